//! A schedule of steps under way.

ghost use Rattle.std.specs.Prelude.{◌≡◌, ◌==◌, ◌<◌, All, IfSome, if◌then◌else◌, length, option_map};
ghost use Rattle.stream_record_waits.specs.LaneTime.{next_round};

use crate::basis::StepBasis;
use crate::lane_time::LaneTime;
use crate::steps::step_before;

/// When a step ends in a schedule, and in which lane.
#[derive(Clone, Copy, Debug)]
pub struct LaneEnd {
    /// When it ends.
    pub at: LaneTime,
    /// The lane, counted from 0.
    pub lane: usize,
}

/// A turn that is ready, by its first step.
#[derive(Clone, Copy, Debug)]
pub struct ReadyTurn {
    /// The first step.
    pub step: usize,
    /// When the turn is ready.
    pub at: LaneTime,
}

/// How far the waits of a step are known to be done.
#[derive(Clone, Copy, Debug)]
pub struct Mark {
    /// All waits but the first ones are done, and this is the number of those.
    pub left: usize,
    /// The latest of the rounds after those in which they are done.
    pub at: LaneTime,
}

/// A schedule under way.
#[derive(Drop)]
pub struct LaneCourse {
    /// When each step ends, and in which lane.
    pub ends: Vec<Option<LaneEnd>>,
    /// When each lane is free.
    pub free: Vec<LaneTime>,
    /// Whether each step was put back.
    pub pinned: Vec<bool>,
}

impl LaneCourse {
    ghost use Rattle.stream_record_waits.specs.Basis.{AreMarks, IsCourse, IsMark, IsSound, basis_of, course_of, most_rounds, with_further};
    ghost use Rattle.stream_record_waits.specs.Course.{done_at, done_by, end_at, ends_later, later_if_both, next_of, pin_at, ready_at};

    /// When the step is done.
    fn done(&self, basis: &StepBasis<'_>, step: usize) -> Option<LaneTime>
        requires steps { step < length basis.now.steps.now }
        requires ends { step < length self.now.ends.items }
        ensures { result ≡ done_at (basis_of basis.now) (course_of self.now) step }
    {
        let end = self.ends[step]?;
        if basis.goes_on(step) {
            Some(end.at)
        } else {
            None
        }
    }

    /// The later of a time and of the round after that in which a step is done.
    fn later_round(&self, basis: &StepBasis<'_>, step: usize, at: LaneTime) -> Option<LaneTime>
        requires course { IsCourse (basis_of basis.now) most_rounds (course_of self.now) }
        requires step { step < length basis.now.steps.now }
        ensures { result ≡ later_if_both (option_map next_round (done_at (basis_of basis.now) (course_of self.now) step)) (Some at) }
    {
        let done = self.done(basis, step)?;
        Some(done.next_round().later_of(at))
    }

    /// The same, where there may be no step.
    fn later_round_if(
        &self,
        basis: &StepBasis<'_>,
        step: Option<usize>,
        at: LaneTime,
    ) -> Option<LaneTime>
        requires course { IsCourse (basis_of basis.now) most_rounds (course_of self.now) }
        requires step { IfSome step (λ step. step < length basis.now.steps.now) }
        ensures { result ≡ with_further (basis_of basis.now) (course_of self.now) step (Some at) }
    {
        match step {
            Some(step) => self.later_round(basis, step, at),
            None => Some(at),
        }
    }

    /// The step for which a step waits because it was put back.
    pub(crate) fn pin(&self, basis: &StepBasis<'_>, step: usize) -> Option<usize>
        requires pinned { step < length self.now.pinned.items }
        requires behind { step < length basis.now.behind.now }
        ensures { result ≡ pin_at (basis_of basis.now) (course_of self.now) step }
    {
        if self.pinned[step] {
            basis.behind[step]
        } else {
            None
        }
    }

    /// The mark of a step with these waits, once more of the waits are done.
    fn advanced(&self, basis: &StepBasis<'_>, after: &[usize], mark: Mark) -> Mark
        requires course { IsCourse (basis_of basis.now) most_rounds (course_of self.now) }
        requires after { All (λ step. step < length basis.now.steps.now) after.now }
        requires mark { IsMark (basis_of basis.now) (course_of self.now) after.now mark }
        ensures mark { IsMark (basis_of basis.now) (course_of self.now) after.now result }
        ensures done { done_by (basis_of basis.now) (course_of self.now) after.now ≡ (if result.left == 0 then Some result.at else None) }
    {
        let mut mark = mark;
        while mark.left > 0 {
            match self.later_round(basis, after[mark.left - 1], mark.at) {
                Some(at) => {
                    mark = Mark {
                        left: mark.left - 1,
                        at,
                    };
                }
                None => return mark,
            }
        }
        mark
    }

    /// When the turn that begins with a step is ready. The mark of the step moves on.
    fn ready(&self, basis: &StepBasis<'_>, marks: &mut Vec<Mark>, step: usize) -> Option<LaneTime>
        requires sound { IsSound (basis_of basis.now) }
        requires course { IsCourse (basis_of basis.now) most_rounds (course_of self.now) }
        requires marks { AreMarks (basis_of basis.now) (course_of self.now) marks.old.items }
        requires step { step < length basis.now.steps.now }
        ensures marks { AreMarks (basis_of basis.now) (course_of self.now) marks.new.items }
        ensures ready { result ≡ ready_at (basis_of basis.now) (course_of self.now) step }
    {
        let mark = self.advanced(basis, basis.after[step].as_slice(), marks[step]);
        marks[step] = mark;
        if mark.left > 0 {
            return None;
        }
        let at = self.later_round_if(basis, step_before(basis.steps, step), mark.at)?;
        self.later_round_if(basis, self.pin(basis, step), at)
    }

    /// Whether the end of a step is to come, or stands after the begin of a turn then and there.
    pub(crate) fn ends_later(&self, step: usize, begin: LaneTime, lane: usize) -> bool
        requires { step < length self.now.ends.items }
        ensures { result ≡ ends_later (end_at (course_of self.now) step) begin lane }
    {
        match self.ends[step] {
            Some(end) => {
                begin.is_earlier(end.at) || !end.at.is_earlier(begin) && lane < end.lane
            }
            None => true,
        }
    }

    /// The turn that begins with a step, if it has not started and is ready at some time.
    pub(crate) fn next_of(
        &self,
        basis: &StepBasis<'_>,
        marks: &mut Vec<Mark>,
        step: usize,
    ) -> Option<ReadyTurn>
        requires sound { IsSound (basis_of basis.now) }
        requires course { IsCourse (basis_of basis.now) most_rounds (course_of self.now) }
        requires marks { AreMarks (basis_of basis.now) (course_of self.now) marks.old.items }
        requires step { step < length basis.now.steps.now }
        ensures marks { AreMarks (basis_of basis.now) (course_of self.now) marks.new.items }
        ensures next { result ≡ next_of (basis_of basis.now) (course_of self.now) step }
    {
        if self.ends[step].is_some() {
            return None;
        }
        let at = self.ready(basis, marks, step)?;
        Some(ReadyTurn { step, at })
    }
}
