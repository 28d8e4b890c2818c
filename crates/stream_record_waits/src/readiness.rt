//! When turns are ready, found anew after each round.

ghost use Rattle.std.specs.Prelude.{◌≡◌, ◌<◌, All, IfOk, length};
ghost use Rattle.std.specs.List.{Contains};
ghost use Rattle.stream_record_waits.specs.Basis.{AreMarks, IsCourse, IsSound, basis_of, course_of, most_rounds};
ghost use Rattle.stream_record_waits.specs.ReadyTurns.{AreReadyTurns, AreRenewed, IsAffected, IsTree, turn_of};
ghost use Rattle.stream_record_waits.specs.Steps.{lists_in};
ghost use Rattle.stream_record_waits.specs.Waiters.{AreWaiters};

use crate::basis::StepBasis;
use crate::course::{LaneCourse, Mark, ReadyTurn};
use crate::ready_turns::ReadyTurns;
use std::alloc::{AllocError, Global};

impl LaneCourse {
    /// The turns of all steps that are ready. `Err` where memory is refused.
    pub(crate) fn ready_turns(
        &self,
        alloc: Global,
        basis: &StepBasis<'_>,
        marks: &mut Vec<Mark>,
    ) -> Result<ReadyTurns, AllocError>
        requires sound { IsSound (basis_of basis.now) }
        requires course { IsCourse (basis_of basis.now) most_rounds (course_of self.now) }
        requires marks { AreMarks (basis_of basis.now) (course_of self.now) marks.old.items }
        ensures marks { AreMarks (basis_of basis.now) (course_of self.now) marks.new.items }
        ensures turns { IfOk result (λ turns. AreReadyTurns (basis_of basis.now) (course_of self.now) turns) }
    {
        let mut turns = ReadyTurns::none(alloc, basis.steps.len())?;
        for step in 0..basis.steps.len() {
            self.renew(basis, marks, &mut turns, step);
        }
        Ok(turns)
    }

    /// After the turn that begins with a step was put back or started: finds anew when it is ready,
    /// and when the turns are ready that may wait for one of its steps.
    pub(crate) fn renew_after(
        &self,
        basis: &StepBasis<'_>,
        waiters: &[Vec<usize>],
        marks: &mut Vec<Mark>,
        turns: &mut ReadyTurns,
        step: usize,
    )
        requires sound { IsSound (basis_of basis.now) }
        requires course { IsCourse (basis_of basis.now) most_rounds (course_of self.now) }
        requires waiters { AreWaiters (basis_of basis.now) (lists_in waiters.now) }
        requires marks { AreMarks (basis_of basis.now) (course_of self.now) marks.old.items }
        requires tree { IsTree turns.old }
        requires each { turns.old.count ≡ length basis.now.steps.now }
        requires step { step < length basis.now.steps.now }
        ensures marks { AreMarks (basis_of basis.now) (course_of self.now) marks.new.items }
        ensures turns { AreRenewed (basis_of basis.now) (course_of self.now) turns.old turns.new (IsAffected (basis_of basis.now) (lists_in waiters.now) step) }
    {
        self.renew(basis, marks, turns, step);
        self.renew_all(basis, marks, turns, waiters[step].as_slice());
        let second = step + 1;
        if basis.is_joined(second) {
            self.renew_all(basis, marks, turns, waiters[second].as_slice());
        }
    }

    /// Finds anew when the turns that begin with these steps are ready.
    fn renew_all(
        &self,
        basis: &StepBasis<'_>,
        marks: &mut Vec<Mark>,
        turns: &mut ReadyTurns,
        steps: &[usize],
    )
        requires sound { IsSound (basis_of basis.now) }
        requires course { IsCourse (basis_of basis.now) most_rounds (course_of self.now) }
        requires marks { AreMarks (basis_of basis.now) (course_of self.now) marks.old.items }
        requires tree { IsTree turns.old }
        requires each { turns.old.count ≡ length basis.now.steps.now }
        requires steps { All (λ step. step < length basis.now.steps.now) steps.now }
        ensures marks { AreMarks (basis_of basis.now) (course_of self.now) marks.new.items }
        ensures turns { AreRenewed (basis_of basis.now) (course_of self.now) turns.old turns.new (Contains steps.now) }
    {
        for step in steps {
            self.renew(basis, marks, turns, *step);
        }
    }

    /// Finds anew when the turn that begins with a step is ready.
    fn renew(
        &self,
        basis: &StepBasis<'_>,
        marks: &mut Vec<Mark>,
        turns: &mut ReadyTurns,
        step: usize,
    )
        requires sound { IsSound (basis_of basis.now) }
        requires course { IsCourse (basis_of basis.now) most_rounds (course_of self.now) }
        requires marks { AreMarks (basis_of basis.now) (course_of self.now) marks.old.items }
        requires tree { IsTree turns.old }
        requires each { turns.old.count ≡ length basis.now.steps.now }
        requires step { step < length basis.now.steps.now }
        ensures marks { AreMarks (basis_of basis.now) (course_of self.now) marks.new.items }
        ensures turns { AreRenewed (basis_of basis.now) (course_of self.now) turns.old turns.new (λ other. other ≡ step) }
    {
        let turn = self.turn_of(basis, marks, step);
        turns.set(step, turn);
    }

    /// The turn that begins with a step, if there is one that has not started and is ready at some
    /// time.
    fn turn_of(
        &self,
        basis: &StepBasis<'_>,
        marks: &mut Vec<Mark>,
        step: usize,
    ) -> Option<ReadyTurn>
        requires sound { IsSound (basis_of basis.now) }
        requires course { IsCourse (basis_of basis.now) most_rounds (course_of self.now) }
        requires marks { AreMarks (basis_of basis.now) (course_of self.now) marks.old.items }
        requires step { step < length basis.now.steps.now }
        ensures marks { AreMarks (basis_of basis.now) (course_of self.now) marks.new.items }
        ensures turn { result ≡ turn_of (basis_of basis.now) (course_of self.now) step }
    {
        if basis.begins_turn(step) {
            self.next_of(basis, marks, step)
        } else {
            None
        }
    }
}
