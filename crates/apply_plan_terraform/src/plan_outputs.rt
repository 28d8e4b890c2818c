//! The outputs of a plan.

ghost use Rattle.std.specs.Prelude.{◌≡◌, ℕ, List, IfOk, false, option_map};
ghost use Rattle.std.specs.BTreeMap.{get_by};
ghost use Rattle.std.specs.Cmp.Lexicographic.{slice_cmp};
ghost use Rattle.std.specs.Option.{unwrap_or};
ghost use Rattle.std.specs.Ordering.{nat_cmp};
ghost use Rattle.serde_json.specs.Data.{no_members};
ghost use Rattle.serde_json.specs.Find.{get_member};
ghost use Rattle.serde_json.specs.View.{view};
ghost use Rattle.apply_plan_terraform.specs.InOrder.{KnowsAs};
ghost use Rattle.apply_plan_terraform.specs.StoredOutputs.{outputs_value_view, put_all};
ghost use Rattle.apply_plan_terraform.specs.Outputs as specs;
ghost use Rattle.apply_plan_terraform.specs.Outputs.{members_or_none, outputs_view};

use crate::output_changes::{change_of, is_changed, is_deleted};
use crate::raw_output::is_kind;
use crate::stored::sections::{OutputsValue, Sections};
use crate::stored::stored_output::StoredOutput;
use serde_json::Value;
use std::alloc::{AllocError, Global};
use std::collections::BTreeMap;

/// The outputs of a plan, and their planned changes. Types and values are JSON texts.
#[derive(Debug, Drop)]
pub struct PlanOutputs {
    /// The outputs before the apply, with their names, in the plan's order.
    pub(crate) known: Vec<(String, StoredOutput)>,
    /// The planned changes of outputs, by name.
    pub(crate) changes: Option<Value>,
}

impl PlanOutputs {
    /// Takes the sections of a plan: its outputs, and their planned changes.
    pub(crate) fn of(alloc: Global, sections: Sections) -> PlanOutputs
        ensures { outputs_view result ≡ record {
          known = members_or_none (option_map outputs_value_view sections.outputs);
          changes = option_map view sections.companion;
        } }
    {
        let Sections { outputs, companion } = sections;
        PlanOutputs {
            known: known_of(alloc, outputs),
            changes: companion,
        }
    }

    /// For each name in `known`, whether the plan knows the type of that output. `Err` when memory
    /// is refused.
    pub fn names(&self, alloc: Global) -> Result<BTreeMap<&str, bool>, AllocError>
        ensures { IfOk result (KnowsAs (outputs_view self.now)) }
    {
        names_of(alloc, self.known.as_slice())
    }

    /// Whether the plan has output `name` after the apply. `names` is the result of `names`.
    pub fn has(&self, names: &BTreeMap<&str, bool>, name: &str) -> bool
        requires { KnowsAs (outputs_view self.now) names.now }
        ensures { result ≡ specs.has_output (outputs_view self.now) name.now }
    {
        let change = change_of(self.changes.as_ref(), name);
        !is_deleted(change) && (is_known(names, name) || is_changed(change))
    }
}

/// Whether the plan knows the type of output `name`.
fn is_known(names: &BTreeMap<&str, bool>, name: &str) -> bool
    ensures { result ≡ unwrap_or (get_by (λ k. slice_cmp nat_cmp name.now k.now) names.now) false }
{
    match names.get(name) {
        Some(known) => *known,
        None => false,
    }
}

/// For each name, whether its last output has a type. `Err` when memory is refused.
fn names_of<'a>(
    alloc: Global,
    outputs: &'a [(String, StoredOutput)],
) -> Result<BTreeMap<&'a str, bool>, AllocError>
    ensures { IfOk result (λ names. (name : List ℕ) → get_by (λ k. slice_cmp nat_cmp name k.now) names
        ≡ option_map specs.is_typed (get_member name (put_all outputs.now no_members))) }
{
    let mut names = BTreeMap::new(alloc);
    for entry in outputs {
        names.insert(entry.0.as_str(), is_kind(entry.1.kind()))?;
    }
    Ok(names)
}

/// The outputs, when their value is an object. Else none.
fn known_of(alloc: Global, value: Option<OutputsValue>) -> Vec<(String, StoredOutput)>
    ensures { put_all result.items no_members ≡ members_or_none (option_map outputs_value_view value) }
{
    match value {
        Some(OutputsValue::Object(outputs)) => outputs,
        _ => Vec::new(alloc),
    }
}
