//! A valid element of `resource_changes`, before it is compared with earlier ones.

ghost use Rattle.std.specs.Prelude.{◌≡◌, IfOk, is_some, true};
ghost use Rattle.apply_model.specs.Plan.Address.{relative_address};

use crate::plan::element::Element;
use crate::plan::element_slots::ElementSlots;
use crate::plan::plan_error::PlanError;
use crate::zip_results::zip_results;
use apply_json::{ReadFault, Reader, read_object};
use apply_model::{Action, Change, ChangeParts, Text, relative_address};
use std::alloc::{AllocError, Global};

/// An element of `resource_changes` with valid members, a valid action list, and an address that
/// lies in its module.
#[derive(Clone, Copy)]
pub struct Planned<'a> {
    pub element: Element<'a>,
    pub action: Action,
    ghost fits: { is_some (relative_address element.module_address.now element.address.now) ≡ true },
}

impl<'a> Planned<'a> {
    ghost use Rattle.std.specs.Prelude.{◌<◌, Err, OnOk, length};
    ghost use Rattle.serde_json.specs.Data.{Data};
    ghost use Rattle.apply_json.specs.Tokens.{IsNoValue, IsRead};
    ghost use Rattle.apply_plan.specs.Plan.Members.{element_read, planned_read};
    ghost use Rattle.apply_plan.specs.Plan.PlannedView.{planned_view};
    ghost use Rattle.apply_plan.specs.Plan.SavedPlan.{planned_at};
    ghost use Rattle.apply_plan.specs.Results.{IsExactly};

    /// Reads element `number`. No memory is allocated.
    ///
    /// The inner `Err` is the first fault of the element. The outer `Err` means that the text is
    /// not JSON.
    pub fn read(
        alloc: Global,
        reader: &mut Reader<'a>,
        depth: usize,
        number: u32,
    ) -> Result<Result<Planned<'a>, PlanError>, ReadFault>
        ensures ok { IfOk result (λ planned. (d : Data) × IsRead depth reader.old d reader.new
            × IsExactly planned_view planned (planned_at number d)) }
        ensures shorter { OnOk result (length reader.new < length reader.old) }
        ensures err { result ≡ Err ReadFault.NotJson → IsNoValue depth reader.old }
    {
        let mut slots = ElementSlots::new();
        match read_object(alloc, reader, depth, &mut slots) {
            Ok(_) => Ok(Planned::of(number, &slots)),
            Err(fault) => Err(fault),
        }
    }

    /// Checks the members. `Err` is the first fault of the element.
    fn of(number: u32, slots: &ElementSlots<'a>) -> Result<Planned<'a>, PlanError>
        ensures { IsExactly planned_view result (planned_read number (element_read slots.now)) }
    {
        let Some(element) = Element::of(slots) else {
            return Err(PlanError::BadChange(number));
        };
        let Some(action) = element.action else {
            return Err(PlanError::BadActions(number));
        };
        if relative_address(element.module_address, element.address).is_none() {
            return Err(PlanError::BadAddress(number));
        }
        Ok(Planned { element, action })
    }

    /// The change, with copies of the texts. `Err` means that memory was refused.
    pub fn copied(self, alloc: Global) -> Result<Change, AllocError>
        ensures { IfOk result (λ change. change ≡ planned_view self.entry) }
    {
        let Planned { element, action } = self;
        let place = zip_results(
            Text::new(alloc, element.address),
            Text::new(alloc, element.module_address),
        );
        let names = zip_results(
            Text::new(alloc, element.kind_name),
            Text::new(alloc, element.name),
        );
        let ids = zip_results(
            Text::of_option(alloc, element.deposed),
            Text::of_option(alloc, element.prior_id),
        );
        let rest = zip_results(element.key.copied(alloc), ids);
        let all = zip_results(zip_results(place, names), rest)?;
        let (((address, module_address), (kind_name, name)), (key, (deposed, prior_id))) = all;
        Ok(Change::new(ChangeParts {
            address,
            module_address,
            mode: element.mode,
            kind_name,
            name,
            key,
            deposed,
            prior_id,
            action,
        }))
    }
}
