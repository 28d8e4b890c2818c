//! Checks the outputs that a script states.
//!
//! Every `Err` means that memory was refused.

ghost use Rattle.std.specs.Prelude.{◌≡◌, IfOk, IfSome, option_map};
ghost use Rattle.std.specs.Option.{option_copied};
ghost use Rattle.serde_json.specs.View.{members_view, view};
ghost use Rattle.apply_plan_terraform.specs.InOrder.{KnowsAs};
ghost use Rattle.apply_plan_terraform.specs.Outputs.{outputs_view};
ghost use Rattle.input_validate.specs.Extras.{in_plan_output, members_from, plan_output_table, unless_planned};
ghost use Rattle.input_validate.specs.Findings.{reported};
ghost use Rattle.input_validate.specs.Rules.{faults_of, where_suits};
ghost use Rattle.input_validate.specs.declared.findings.expected.Expected.TheVariants as expected;

use crate::findings::expected::Expected;
use crate::findings::list::{Findings, joined};
use crate::findings::name::Name;
use crate::findings::path::Segment;
use crate::findings::problem::Problem;
use crate::rules::ignored_members::walk_ignored;
use crate::rules::members::faults;
use crate::rules::rule::MemberRule;
use crate::rules::walk::Walk;
use apply_plan_terraform::PlanOutputs;
use serde_json::{Map, Value};
use std::alloc::{AllocError, Global};
use std::collections::BTreeMap;

const TABLE: [MemberRule; 2] = [
    MemberRule {
        name: Name::Kind,
        expected: Expected::NotNull,
    },
    MemberRule {
        name: Name::Sensitive,
        expected: Expected::FlagOrAbsent,
    },
];

pub(crate) const NAMES: [Name; 3] = [Name::Kind, Name::Value, Name::Sensitive];

/// Checks the kind of an output and of its members.
fn walk_table(alloc: Global, output: &Value) -> Result<Findings, AllocError>
    ensures { IfOk result (λ f. f ≡ reported (where_suits expected.PlanOutput (view output.now) (faults_of plan_output_table (view output.now)))) }
{
    if Expected::PlanOutput.suits(output) {
        faults(alloc, output, &TABLE)
    } else {
        Findings::here(alloc, Problem::IsNot(Expected::PlanOutput))
    }
}

/// Reports an output that the plan does not have. Nothing is reported without a plan.
fn unless_planned(
    alloc: Global,
    planned: Option<&PlanOutputs>,
    names: &BTreeMap<&str, bool>,
    name: &str,
) -> Result<Findings, AllocError>
    requires { IfSome (option_copied planned) (λ plan. KnowsAs (outputs_view plan) names.now) }
    ensures { IfOk result (λ f. f ≡ reported (unless_planned (option_map outputs_view (option_copied planned.entry)) name.now)) }
{
    let Some(planned) = planned else {
        return Ok(Findings::none(alloc));
    };
    if planned.has(names, name) {
        Ok(Findings::none(alloc))
    } else {
        Findings::here(alloc, Problem::UnknownOutput)
    }
}

/// Checks the output with this name.
#[tactic(auto, unfolding(crate::specs::Extras::in_plan_output))]
fn walk_output(
    alloc: Global,
    planned: Option<&PlanOutputs>,
    names: &BTreeMap<&str, bool>,
    name: &str,
    output: &Value,
) -> Result<Findings, AllocError>
    requires { IfSome (option_copied planned) (λ plan. KnowsAs (outputs_view plan) names.now) }
    ensures { IfOk result (λ f. f ≡ reported (in_plan_output (option_map outputs_view (option_copied planned.entry)) name.now (view output.now))) }
{
    let all = walk_table(alloc, output);
    let all = joined(all, unless_planned(alloc, planned, names, name));
    joined(all, walk_ignored(alloc, output, &NAMES))
}

/// Checks outputs, in the order of their names' bytes.
fn walk_members(
    alloc: Global,
    planned: Option<&PlanOutputs>,
    names: &BTreeMap<&str, bool>,
    outputs: &Map<String, Value>,
) -> Result<Findings, AllocError>
    requires { IfSome (option_copied planned) (λ plan. KnowsAs (outputs_view plan) names.now) }
    ensures { IfOk result (λ f. f ≡ reported (members_from (in_plan_output (option_map outputs_view (option_copied planned.entry))) 0 (members_view outputs.now.entries))) }
{
    let count = outputs.len();
    let mut left = count;
    let mut all = Findings::none(alloc);
    for (name, output) in outputs {
        let findings = walk_output(alloc, planned, names, name.as_str(), output)?;
        all = all.then(findings.under(Segment::Other(count - left))?)?;
        left -= 1;
    }
    Ok(all)
}

/// Collects the names of the plan's outputs. There are none without a plan.
fn names_in(
    alloc: Global,
    planned: Option<&PlanOutputs>,
) -> Result<BTreeMap<&str, bool>, AllocError>
    ensures { IfOk result (λ names. IfSome (option_copied planned.entry) (λ plan. KnowsAs (outputs_view plan) names)) }
{
    match planned {
        Some(plan) => plan.names(alloc),
        None => Ok(BTreeMap::new(alloc)),
    }
}

/// The member `outputs` at the top of a script. `planned` holds the outputs of the plan, if a run
/// accepts the plan.
#[derive(Drop)]
pub struct Outputs<'p> {
    pub planned: Option<&'p PlanOutputs>,
}

impl<'a> Walk<'a> for Outputs<'_> {
    ghost use Rattle.std.specs.Prelude.{option_map};
    ghost use Rattle.std.specs.Option.{option_copied};
    ghost use Rattle.apply_plan_terraform.specs.Outputs.{outputs_view};
    ghost use Rattle.input_validate.specs.Extras.{in_plan_outputs};

    ghost findings = { λ outputs _ d. in_plan_outputs (option_map outputs_view (option_copied outputs.planned)) d };

    fn walk(
        &self,
        alloc: Global,
        _number: usize,
        value: &'a Value,
    ) -> Result<Findings, AllocError> {
        match value.as_object() {
            Some(outputs) => {
                let names = names_in(alloc, self.planned)?;
                walk_members(alloc, self.planned, &names, outputs)
            }
            None => Ok(Findings::none(alloc)),
        }
    }
}
