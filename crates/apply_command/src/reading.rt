//! Reads what a command that plans needs of a plan and a script.

ghost use Rattle.std.specs.Prelude.{◌≡◌, true, IfErr, IfOk, List};
ghost use Rattle.std.specs.Option.{option_copied};
ghost use Rattle.apply_hooks.specs.declared.rule.Rule.{Rule};
ghost use Rattle.apply_plan.specs.declared.script.script_error.ScriptError.TheVariants.{Memory};
ghost use Rattle.apply_command.specs.Notes as note_specs;
ghost use Rattle.apply_command.specs.Prepared.{command_view};
ghost use Rattle.apply_command.specs.Reading.{AreStated, AreUnstated, rules_of};

use crate::read_command::ReadCommand;
use apply_plan::{PlanError, ScriptError};
use apply_plan_terraform::PlanNote;
use apply_planning_script::{PlanningRules, told_objects};
use apply_prior::{Prior, read_prior};
use apply_run::{Refusal, read_stated};
use apply_text_terraform::Command;
use std::alloc::Global;

/// Reads a plan (JSON Output Format, "Plan Representation") and an optional script for a command
/// that plans.
///
/// `Err` as of `apply_run::read_stated`. `Err` with `Refusal::Script` also if what the script says
/// of the planning is wrong.
pub(crate) fn read_command(
    alloc: Global,
    plan: &[u8],
    script: Option<&[u8]>,
    command: Command,
    refresh: bool,
) -> Result<ReadCommand, Refusal>
    ensures ok { IfOk result (λ read. (hooks : List (List Rule)) → AreStated command refresh
        (record { plan = plan.now; script = option_copied script.entry; hooks = hooks }) (command_view read)) }
    ensures err { IfErr result (λ refusal. (hooks : List (List Rule)) → AreUnstated command refresh
        (record { plan = plan.now; script = option_copied script.entry; hooks = hooks }) refusal) }
{
    let stated = read_stated(alloc, plan, script)?;
    let Ok(prior) = read_prior(alloc, plan) else {
        return Err(Refusal::Plan(PlanError::Memory));
    };
    let Prior {
        objects,
        drifts,
        outputs,
    } = prior;
    let rules = rules_of(command, refresh, stated.details.plan.note);
    let told = told_objects(
        alloc,
        script,
        rules,
        &stated.read.plan,
        &stated.details.plan.changes,
        objects,
        &drifts,
    );
    match told {
        Ok(told) => Ok(ReadCommand {
            stated,
            drifts,
            outputs,
            told,
        }),
        Err(error) => {
            if is_memory(error) {
                return Err(Refusal::Plan(PlanError::Memory));
            }
            Err(Refusal::Script(error))
        }
    }
}

/// Whether memory was refused.
fn is_memory(error: ScriptError) -> bool
    ensures told { error ≡ Memory → result ≡ true }
    ensures memory { result ≡ true → error ≡ Memory }
{
    match error {
        ScriptError::Memory => true,
        _ => false,
    }
}

/// How the plan of the command is made.
fn rules_of(command: Command, refresh: bool, note: Option<PlanNote>) -> PlanningRules
    ensures { result ≡ rules_of command refresh note }
{
    PlanningRules {
        destroys: command == Command::Destroy,
        refreshes: refresh,
        is_partial: is_partial(note),
    }
}

/// Whether the plan covers a part of the configuration only.
pub(crate) fn is_partial(note: Option<PlanNote>) -> bool
    ensures { result ≡ note_specs.is_partial note }
{
    note == Some(PlanNote::Partial)
}
