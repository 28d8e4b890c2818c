//! What a schedule of steps goes by.

ghost use Rattle.std.specs.Prelude.{◌≡◌, ◌<◌, ◌^◌, length};

use crate::step_of_plan::StepOfPlan;

/// What a schedule goes by, with an item of each list for each step.
#[derive(Drop)]
pub struct StepBasis<'a> {
    /// The steps.
    pub steps: &'a [StepOfPlan],
    /// The steps that each step waits for.
    pub after: &'a [Vec<usize>],
    /// Whether each step runs in one turn with the step before it.
    pub joined: &'a [bool],
    /// The step behind which each step begins in the stream.
    pub behind: &'a [Option<usize>],
}

impl StepBasis<'_> {
    ghost use Rattle.stream_record_waits.specs.Basis.{basis_of};
    ghost use Rattle.stream_record_waits.specs.Course.{begins_turn, goes_on, is_joined, seconds_at};

    /// Whether what waits for the step may begin once it is done.
    pub(crate) fn goes_on(&self, step: usize) -> bool
        requires { step < length self.now.steps.now }
        ensures { result ≡ goes_on (basis_of self.now) step }
    {
        match self.steps[step].run {
            Some(_) => !self.steps[step].has_failed(),
            None => false,
        }
    }

    /// The seconds that the step takes.
    pub(crate) fn seconds(&self, step: usize) -> u32
        requires { step < length self.now.steps.now }
        ensures { result ≡ seconds_at (basis_of self.now) step }
    {
        match self.steps[step].run {
            Some(run) => run.seconds,
            None => 0,
        }
    }

    /// Whether the step runs in one turn with the step before it. A step that is not there does
    /// not.
    pub(crate) fn is_joined(&self, step: usize) -> bool
        ensures { result ≡ is_joined (basis_of self.now) step }
    {
        step < self.joined.len() && self.joined[step]
    }

    /// Whether a turn begins with the step.
    pub(crate) fn begins_turn(&self, step: usize) -> bool
        requires steps { step < length self.now.steps.now }
        requires joined { step < length self.now.joined.now }
        ensures { result ≡ begins_turn (basis_of self.now) step }
    {
        self.steps[step].has_begun() && !self.joined[step]
    }
}
