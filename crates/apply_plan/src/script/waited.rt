//! Resolves the items of one `after` list to steps of the plan.

ghost use Rattle.std.specs.Prelude.{◌≡◌, ◌≤◌, All, IfOk, IfSome, find, length, option_map};
ghost use Rattle.std.specs.List.{enumerate_from};
ghost use Rattle.apply_model.specs.Script.Limits.{max_waits};
ghost use Rattle.apply_resolve.specs.ObjectIds.{is_of};
ghost use Rattle.apply_resolve.specs.ChangeNumbers.{number_of};
ghost use Rattle.apply_resolve.specs.Placed.{IsPlaced};
ghost use Rattle.apply_plan.specs.Script.RawView.{waits_view};

use crate::script::raw_wait::RawWait;
use apply_model::{Plan, Wait, Waits};
use apply_resolve::{ChangeNumbers, ObjectId};
use std::alloc::{AllocError, Global};

/// The resolved items of one `after` list.
#[derive(Drop)]
pub struct Waited {
    /// The steps to wait for.
    pub waits: Waits,
    /// Whether an item gives the number of a step that its change does not have.
    pub lacks_step: bool,
}

impl Waited {
    ghost use Rattle.apply_plan.specs.Script.WaitedView.{waited_by};

    /// Resolves the items. `None` means that an item names no change of the plan.
    ///
    /// `Err` means that memory was refused. An item without a step number names no step of a change
    /// that has none, and is left out.
    pub fn of<'a>(
        alloc: Global,
        items: &[RawWait<'a>],
        plan: &Plan,
        numbers: &ChangeNumbers<'a>,
    ) -> Result<Option<Waited>, AllocError>
        requires numbers { (id : _) → number_of numbers.now id
            ≡ option_map (λ p. p.0) (find (λ p. is_of id p.1) (enumerate_from 0 plan.now.changes)) }
        requires few { length items.now ≤ max_waits }
        ensures defined { IfOk result (λ answer. answer ≡ waited_by plan.now.changes (waits_view items.now)) }
        ensures placed { IfOk result (λ answer. IfSome answer (λ waited.
            All (IsPlaced (length plan.now.changes)) waited.waits)) }
    {
        let mut waits = Vec::with_capacity(alloc, items.len())?;
        let mut lacks_step = false;
        for item in items {
            let id = ObjectId {
                address: item.address,
                deposed: item.deposed,
            };
            let Some(change) = numbers.get(id) else {
                return Ok(None);
            };
            let count = plan.change(change).steps().len() as u8;
            match item.step_of(count) {
                Some(step) => waits.push(Wait { change, step })?,
                None => lacks_step = lacks_step || item.step.is_some(),
            }
        }
        Ok(Some(Waited {
            waits: Waits::new(waits),
            lacks_step,
        }))
    }
}
