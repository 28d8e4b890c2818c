//! The rounds of a schedule.

ghost use Rattle.std.specs.Prelude.{◌≡◌, ◌<◌, ◌≤◌, ◌^◌, length, option_map};
ghost use Rattle.stream_record_waits.specs.Basis.{IsCourse, IsSound, basis_of, course_of, most_rounds};
ghost use Rattle.stream_record_waits.specs.Course.{after_round, first_ready, is_put_back, turns_of, with_end, with_next, with_turn};
ghost use Rattle.stream_record_waits.specs.ReadyTurns.{AreReadyTurns};

use crate::basis::StepBasis;
use crate::course::{LaneCourse, LaneEnd};
use crate::first_earliest::first_earliest;
use crate::lane_time::LaneTime;
use crate::ready_turns::ReadyTurns;

impl LaneCourse {
    /// A step ends then and there, and the lane is then free.
    fn end_step(&mut self, step: usize, at: LaneTime, lane: usize)
        requires step { step < length self.old.ends.items }
        requires lane { lane < length self.old.free.items }
        ensures { course_of self.new ≡ with_end (course_of self.old) step at lane }
    {
        self.ends[step] = Some(LaneEnd { at, lane });
        self.free[lane] = at;
    }

    /// A turn starts then and there.
    fn start(&mut self, basis: &StepBasis<'_>, step: usize, begin: LaneTime, lane: usize)
        requires sound { IsSound (basis_of basis.now) }
        requires ends { length self.old.ends.items ≡ length basis.now.steps.now }
        requires step { step < length basis.now.steps.now }
        requires lane { lane < length self.old.free.items }
        requires begin { begin.second ≤ 2 ^ 60 }
        ensures { course_of self.new ≡ with_turn (basis_of basis.now) (course_of self.old) step begin lane }
    {
        let end = begin.later_by(basis.seconds(step));
        self.end_step(step, end, lane);
        let second = step + 1;
        if basis.goes_on(step) && basis.is_joined(second) {
            let second_end = end.later_by(basis.seconds(second));
            self.end_step(second, second_end, lane);
        }
    }

    /// Whether a turn that would begin then and there is put back.
    fn is_put_back(&self, basis: &StepBasis<'_>, step: usize, begin: LaneTime, lane: usize) -> bool
        requires sound { IsSound (basis_of basis.now) }
        requires course { IsCourse (basis_of basis.now) most_rounds (course_of self.now) }
        requires step { step < length basis.now.steps.now }
        ensures { result ≡ is_put_back (basis_of basis.now) (course_of self.now) step begin lane }
    {
        if self.pinned[step] {
            return false;
        }
        match basis.behind[step] {
            Some(other) => self.ends_later(other, begin, lane),
            None => false,
        }
    }

    /// A turn that is ready is put back, or starts then and there.
    fn go_on(&mut self, basis: &StepBasis<'_>, step: usize, begin: LaneTime, lane: usize)
        requires sound { IsSound (basis_of basis.now) }
        requires course { IsCourse (basis_of basis.now) most_rounds (course_of self.old) }
        requires step { step < length basis.now.steps.now }
        requires lane { lane < length self.old.free.items }
        requires begin { begin.second ≤ 2 ^ 60 }
        ensures { course_of self.new ≡ with_next (basis_of basis.now) (course_of self.old) begin lane step }
    {
        if self.is_put_back(basis, step, begin, lane) {
            self.pinned[step] = true;
        } else {
            self.start(basis, step, begin, lane);
        }
    }

    /// One round: the turn that is ready first is put back, or starts in the lane that is free
    /// first. Returns the step with which it begins, if a turn was ready.
    pub(crate) fn round(&mut self, basis: &StepBasis<'_>, turns: &ReadyTurns) -> Option<usize>
        requires sound { IsSound (basis_of basis.now) }
        requires course { IsCourse (basis_of basis.now) most_rounds (course_of self.old) }
        requires turns { AreReadyTurns (basis_of basis.now) (course_of self.old) turns.now }
        ensures course { course_of self.new ≡ after_round (basis_of basis.now) (course_of self.old) }
        ensures step { result ≡ option_map (λ turn. turn.step) (first_ready (basis_of basis.now) (course_of self.old) (turns_of (basis_of basis.now))) }
    {
        let turn = turns.first()?;
        let lane = first_earliest(self.free.as_slice());
        let begin = turn.at.later_of(self.free[lane]);
        self.go_on(basis, turn.step, begin, lane);
        Some(turn.step)
    }
}
