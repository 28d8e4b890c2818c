//! The top level of a plan (JSON Output Format, "Plan Representation").

ghost use Rattle.std.specs.Prelude.{◌≡◌, codes, nat_eq};
ghost use Rattle.std.specs.List.{starts_with};
ghost use Rattle.std.specs.Option.{option_copied};
ghost use Rattle.serde_json.specs.Data.{Data, Members, no_members};
ghost use Rattle.apply_json.specs.Verbatim.{none_verbatim};
ghost use Rattle.apply_json.specs.ShallowView.{members_in};
ghost use Rattle.apply_plan.specs.Plan.ElementsView.{HoldsPlan, version_read};
ghost use Rattle.apply_plan.specs.Plan.SavedPlan.{plan_of_tree};
ghost use Rattle.apply_plan.specs.Results.{Gives};

use crate::plan::elements::Elements;
use crate::plan::plan_error::PlanError;
use apply_json::{
    ArrayPresence, ReadFault, Reader, Shallow, Slots, is_text, read_list, read_shallow_into,
    skip_member,
};
use apply_model::{Plan, Text};
use std::alloc::Global;

/// The version of Terraform for a plan that states none.
const UNKNOWN_VERSION: &str = "0.0.0";

/// The top-level members of a plan, while they are read.
#[derive(Drop)]
pub struct PlanSlots<'a> {
    pub format_version: Shallow<'a>,
    pub terraform_version: Shallow<'a>,
    /// Whether `resource_changes` is an array.
    pub resource_changes: ArrayPresence,
    pub elements: Elements<'a>,
}

impl<'a> PlanSlots<'a> {
    /// Slots before any member was read.
    pub fn new(alloc: Global) -> PlanSlots<'a>
        ensures { HoldsPlan result no_members }
    {
        PlanSlots {
            format_version: Shallow::Absent,
            terraform_version: Shallow::Absent,
            resource_changes: ArrayPresence::Absent,
            elements: Elements::new(alloc),
        }
    }

    /// The version of Terraform. `None` means an invalid member, or a format other than 1.x.
    fn version(&self) -> Option<&'a str>
        ensures { option_copied result ≡ version_read self.now }
    {
        let version = self.terraform_version.text_or(UNKNOWN_VERSION);
        let Some((format, version)) = self.format_version.text().zip(version) else {
            return None;
        };
        match self.resource_changes {
            ArrayPresence::Absent | ArrayPresence::List => if is_format_1(format) {
                Some(version)
            } else {
                None
            },
            ArrayPresence::Other => None,
        }
    }

    /// Builds the plan. `Err` is `PlanError::NotAPlan` for a wrong top level, else the fault of the
    /// elements, or `PlanError::Memory`.
    pub fn plan(self, alloc: Global) -> Result<Plan, PlanError>
        requires { (ms : Members) × HoldsPlan self ms }
        ensures { (d : Data) → HoldsPlan self.entry (members_in d)
            → Gives PlanError.Memory (λ plan. plan) result (plan_of_tree d) }
    {
        let Some(version) = self.version() else {
            return Err(PlanError::NotAPlan);
        };
        match self.elements.changes() {
            Ok(changes) => {
                let version = Text::new(alloc, version)?;
                Ok(Plan::new(version, changes))
            }
            Err(fault) => Err(fault),
        }
    }
}

impl<'a> Slots<'a> for PlanSlots<'a> {
    ghost is_verbatim = { none_verbatim };

    ghost holds = { λ _ slots ms. HoldsPlan slots ms };

    fn take(
        &mut self,
        alloc: Global,
        name: &str,
        reader: &mut Reader<'a>,
        depth: usize,
    ) -> Result<(), ReadFault> {
        if is_text(name, "format_version") {
            read_shallow_into(reader, depth, &mut self.format_version)
        } else if is_text(name, "terraform_version") {
            read_shallow_into(reader, depth, &mut self.terraform_version)
        } else if is_text(name, "resource_changes") {
            self.elements = Elements::new(alloc);
            self.resource_changes = read_list(alloc, reader, depth, &mut self.elements)?;
            Ok(())
        } else {
            skip_member(reader, depth)
        }
    }
}

/// Whether the format is 1.x.
fn is_format_1(format: &str) -> bool
    ensures { result ≡ starts_with nat_eq format.now (codes "1.") }
{
    format.starts_with("1.")
}
