//! The objects that a stream tells of while a plan is made, where no script says anything of them.

ghost use Rattle.std.specs.Prelude.{◌≡◌, IfOk};
ghost use Rattle.apply_planning_script.specs.KnownObjects.{HasPlanned};
ghost use Rattle.apply_planning_script.specs.ObjectIndex.{name_of_id};
ghost use Rattle.apply_planning_script.specs.Rules.{PlannedObjects, is_expected, is_forgotten, is_refreshed};

use crate::object_index::ObjectIndex;
use crate::rules::PlanningRules;
use apply_model::{Change, ChangeDetails, Mode, Plan};
use apply_prior::Drift;
use apply_resolve::{ChangeNumbers, ObjectId};
use std::alloc::{AllocError, Global};

/// What decides which objects are expected.
#[derive(Drop)]
pub struct Expected<'a> {
    rules: PlanningRules,
    changes: ChangeNumbers<'a>,
    details: &'a [ChangeDetails],
    drifts: ObjectIndex<'a>,
}

impl<'a> Expected<'a> {
    /// What decides for a plan with these details of its changes and these drifts. `Err` means that
    /// memory was refused.
    pub fn of(
        alloc: Global,
        rules: PlanningRules,
        plan: &'a Plan,
        details: &'a [ChangeDetails],
        drifts: &'a [Drift],
    ) -> Result<Expected<'a>, AllocError>
        ensures { IfOk result (λ expected. (expected.rules ≡ rules)
            × HasPlanned expected (record { changes = plan.now.changes; details = details.now; drifts = drifts.now })) }
    {
        Ok(Expected {
            rules,
            changes: ChangeNumbers::of(alloc, plan)?,
            details,
            drifts: ObjectIndex::of(alloc, drifts)?,
        })
    }

    /// Whether a stream tells of the object.
    pub fn has(&self, object: &'a Change) -> bool
        ensures { (plan : PlannedObjects) → HasPlanned self.now plan → result ≡ is_expected self.now.rules plan object.now }
    {
        match object.mode() {
            Mode::DataSource => self.rules.reads(),
            Mode::Managed => self.refreshes(ObjectId::of_change(object)),
        }
    }

    /// Whether the object is refreshed, if it is a managed resource.
    fn refreshes(&self, id: ObjectId<'a>) -> bool
        ensures { (plan : PlannedObjects) → HasPlanned self.now plan → result ≡ is_refreshed self.now.rules plan (name_of_id id.entry) }
    {
        self.rules.refreshes
            && !self.forgets(id)
            && (!self.rules.is_partial
                || self.changes.get(id).is_some()
                || self.drifts.get(id).is_some())
    }

    /// Whether the plan forgets the object.
    fn forgets(&self, id: ObjectId<'a>) -> bool
        ensures { (plan : PlannedObjects) → HasPlanned self.now plan → result ≡ is_forgotten plan (name_of_id id.entry) }
    {
        match self.changes.get(id) {
            Some(number) => match self.details.get(number as usize) {
                Some(details) => details.forgets,
                None => false,
            },
            None => false,
        }
    }
}
