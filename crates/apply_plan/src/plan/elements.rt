//! Reads the elements of `resource_changes` into changes.

ghost use Rattle.std.specs.Prelude.{◌≡◌, ◌≤◌, ◌++◌, ◌∷◌, [], IfOk, List, length, vec_len};
ghost use Rattle.serde_json.specs.Data.{Data};
ghost use Rattle.apply_json.specs.Verbatim.{none_verbatim};
ghost use Rattle.apply_model.specs.Plan.ResourceChange.{ResourceChange};
ghost use Rattle.apply_model.specs.Plan.SavedPlan.{max_changes};
ghost use Rattle.apply_plan.specs.Plan.ElementsView.{HoldsElements, changes_within};
ghost use Rattle.apply_plan.specs.Plan.NextChange.{change_after};
ghost use Rattle.apply_plan.specs.Plan.PlannedView.{planned_view};
ghost use Rattle.apply_plan.specs.Plan.SavedPlan.{planned_at};
ghost use Rattle.apply_plan.specs.Plan.SeenSet.{HaveBeenSeen};
ghost use Rattle.apply_plan.specs.Results.{Gives, IsExactly};

use crate::plan::plan_error::PlanError;
use crate::plan::planned::Planned;
use apply_json::{Collector, ReadFault, Reader, skip_member};
use apply_model::{Change, MAX_CHANGES};
use apply_resolve::{ObjectId, ObjectSet};
use std::alloc::Global;

/// The changes of the elements that were read, up to the first faulty element.
#[derive(Drop)]
pub struct Elements<'a> {
    changes: Vec<Change>,
    seen: ObjectSet<'a>,
    /// How many elements were read, at most `MAX_CHANGES`.
    count: usize,
    /// The first fault. `PlanError::TooMany` replaces an earlier fault.
    fault: Option<PlanError>,
}

impl<'a> Elements<'a> {
    /// The state before any element was read.
    pub fn new(alloc: Global) -> Elements<'a>
        ensures { HoldsElements result [] }
    {
        Elements {
            changes: Vec::new(alloc),
            seen: ObjectSet::new(alloc),
            count: 0,
            fault: None,
        }
    }

    /// The changes of all elements, or the fault as `Err`.
    pub fn changes(self) -> Result<Vec<Change>, PlanError>
        ensures defined { (ds : List Data) → HoldsElements self.entry ds
            → Gives PlanError.Memory (λ changes. changes.items) result (changes_within ds) }
        ensures few { (ds : List Data) → HoldsElements self.entry ds
            → IfOk result (λ changes. vec_len changes ≤ max_changes) }
    {
        match self.fault {
            Some(fault) => Err(fault),
            None => Ok(self.changes),
        }
    }
}

impl<'a> Collector<'a> for Elements<'a> {
    ghost is_verbatim = { none_verbatim };

    ghost holds = { λ _ elements ds. HoldsElements elements ds };

    fn take(
        &mut self,
        alloc: Global,
        reader: &mut Reader<'a>,
        depth: usize,
    ) -> Result<(), ReadFault> {
        if self.count >= MAX_CHANGES {
            self.fault = Some(PlanError::TooMany);
            return skip_member(reader, depth);
        }
        if self.fault.is_some() {
            self.count += 1;
            return skip_member(reader, depth);
        }
        let number = self.count as u32;
        let planned = Planned::read(alloc, reader, depth, number)?;
        self.count += 1;
        match change_of(alloc, number, planned, &mut self.seen) {
            Ok(change) => {
                self.changes.push(change)?;
                Ok(())
            }
            Err(PlanError::Memory) => Err(ReadFault::Memory),
            Err(fault) => {
                self.fault = Some(fault);
                Ok(())
            }
        }
    }
}

/// The change of element `number`. The object of the element is added to `seen`.
///
/// `Err` is the element's own fault, `PlanError::Duplicate` if `seen` has the object already, or
/// `PlanError::Memory`.
fn change_of<'a>(
    alloc: Global,
    number: u32,
    planned: Result<Planned<'a>, PlanError>,
    seen: &mut ObjectSet<'a>,
) -> Result<Change, PlanError>
    ensures defined { (d : Data) → (earlier : List ResourceChange) → IsExactly planned_view planned.entry (planned_at number d)
        → length earlier ≡ number → HaveBeenSeen seen.old earlier
        → Gives PlanError.Memory (λ change. change) result (change_after earlier d) }
    ensures seen { IfOk result (λ change. (earlier : List ResourceChange) → HaveBeenSeen seen.old earlier
        → HaveBeenSeen seen.new (earlier ++ change ∷ [])) }
{
    match planned {
        Ok(planned) => {
            let id = ObjectId {
                address: planned.element.address,
                deposed: planned.element.deposed,
            };
            if !seen.insert(id)? {
                return Err(PlanError::Duplicate(number));
            }
            Ok(planned.copied(alloc)?)
        }
        Err(fault) => Err(fault),
    }
}
