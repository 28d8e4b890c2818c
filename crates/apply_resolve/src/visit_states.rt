//! The states of all steps.

ghost use Rattle.std.specs.Prelude.{◌≡◌, ◌+◌, ◌*◌, ◌<◌, IfOk, length, replicate, slice_set};
ghost use Rattle.apply_resolve.specs.VisitStates.{index_of, state_of};

use crate::visit_state::VisitState;
use apply_model::Wait;
use std::alloc::{AllocError, Global};
use std::marker::Model;

/// A state for each of the two steps that a change has at most.
#[derive(Drop)]
pub struct VisitStates {
    states: Vec<VisitState>,
}

impl Model for VisitStates {
    ghost use Rattle.std.specs.Prelude.{List};
    ghost use Rattle.apply_resolve.specs.declared.visit_state.VisitState.{VisitState};

    ghost Value = { List VisitState };

    ghost view = { λ m. m.states.items };
}

impl VisitStates {
    /// States for so many changes, all `Unseen`. `Err` where memory is refused.
    pub fn new(alloc: Global, changes: u32) -> Result<VisitStates, AllocError>
        ensures { IfOk result (λ states. states ≡ replicate (2 * changes) VisitState.Unseen) }
    {
        let states = vec![in alloc; VisitState::Unseen; 2 * changes as usize]?;
        Ok(VisitStates { states })
    }

    /// The state of the step.
    pub fn get(&self, step: Wait) -> VisitState
        requires { index_of step < length self.now }
        ensures { result ≡ state_of self.now step }
    {
        self.states[index(step)]
    }

    /// Sets the state of the step.
    pub fn set(&mut self, step: Wait, state: VisitState)
        requires { index_of step < length self.old }
        ensures { self.new ≡ slice_set self.old (index_of step) state }
    {
        self.states[index(step)] = state;
    }
}

/// The position of the state of a step.
fn index(step: Wait) -> usize
    ensures { result ≡ index_of step }
{
    2 * step.change as usize + step.step as usize
}
