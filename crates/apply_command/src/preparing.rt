//! Prepares what a command prints and applies.
//!
//! Every `Err` means that memory was refused, or that there are more lines before the apply than any
//! plan of 64 MiB can have.

ghost use Rattle.std.specs.Prelude.{◌≡◌, ◌<◌, ◌≤◌, ◌&&◌, length, map, true, IfOk, List};
ghost use Rattle.std.specs.List.{filter_map, list_any};
ghost use Rattle.apply_model.specs.declared.details.note.Note.{Note};
ghost use Rattle.apply_events.specs.declared.event.Event.{Event};
ghost use Rattle.apply_planning.specs.PlanningWork.{max_seconds_in_all, seconds_in_all};
ghost use Rattle.apply_planning.specs.Schedule.{IsScheduleOf};
ghost use Rattle.apply_planning_failures.specs.LostObjects.{HasLost};
ghost use Rattle.apply_planning_failures.specs.Planning.{AreBegun};
ghost use Rattle.apply_planning_failures.specs.PlansPart.{details_at, kept};
ghost use Rattle.apply_text_planning.specs.Totals.{planned_totals};
ghost use Rattle.apply_writer.specs.Stream.Terraform.{is_error};
ghost use Rattle.apply_command.specs.Head.{is_none};
ghost use Rattle.apply_command.specs.InTime.{max_took};
ghost use Rattle.apply_command.specs.Notes as specs;
ghost use Rattle.apply_command.specs.Prepared.{command_view, IsPrepared};

use crate::command_notes::command_notes;
use crate::head_lines::plan_lines;
use crate::prepared::Prepared;
use crate::read_command::ReadCommand;
use apply_model::{ChangeDetails, Plan, Script, Text};
use apply_plan_terraform::{Details, PlanDetails, PlanNote, written_outputs};
use apply_planning::{MAX_TOLD, Schedule, Told};
use apply_planning_failures::{
    Course, LostObjects, course_of, has_error, kept_changes, kept_drifts, totals_of,
};
use apply_prior::{Drift, PlannedOutput};
use apply_run::{ReadBytes, ReadStated};
use apply_text_planning::PlanTotals;
use apply_text_terraform::Command;
use std::alloc::{AllocError, Global};

/// The longest planning, in seconds.
const MAX_TOOK: u64 = 864_000_000;

/// Prepares what the command prints and applies, with the planning in 1 to 64 lanes.
pub(crate) fn prepare(
    alloc: Global,
    command: Command,
    lanes: u8,
    read: ReadCommand,
) -> Result<Prepared, AllocError>
    requires { 0 < lanes }
    ensures { IfOk result (IsPrepared command lanes (command_view read)) }
{
    let ReadCommand {
        stated,
        drifts,
        outputs: planned_outputs,
        told,
    } = read;
    let ReadStated {
        read: ReadBytes { plan, script },
        details: Details {
            plan: PlanDetails { changes, note },
            outputs,
        },
        mut extras,
    } = stated;
    let schedule = schedule_of(alloc, &told, lanes)?;
    let Course {
        notes: failures,
        begun,
        event_count,
    } = course_of(alloc, &schedule, &told)?;
    let is_severe = has_error(&failures);
    let failed = has_failed(note, is_severe);
    let applies = applies(command, failed);
    let is_told = tells_plan(command, failed, is_severe, is_bare(&plan, &planned_outputs));
    let part = told_plan(alloc, failed, &told, &begun, &plan, &changes, &drifts)?;
    let plan_lines = plan_lines(
        alloc,
        event_count,
        is_told,
        &part.drifts,
        &part.changes,
        &planned_outputs,
    )?;
    let notes = command_notes(
        alloc,
        applies,
        note,
        &plan,
        &changes,
        failures,
        extras.take_notes(alloc),
    )?;
    let no_changes = Plan::new(Text::new(alloc, plan.version())?, Vec::new(alloc));
    let took = schedule.ends_at();
    Ok(Prepared {
        plan,
        script,
        details: changes,
        drifts,
        planned_outputs,
        told,
        totals: part.totals,
        took,
        lanes,
        schedule,
        event_count,
        plan_lines,
        applies,
        no_changes,
        no_script: Script::empty(),
        notes,
        outputs: written_outputs(alloc, outputs, extras)?,
    })
}

/// When the told objects are refreshed and read, in so many lanes.
fn schedule_of(alloc: Global, told: &[Told], lanes: u8) -> Result<Schedule, AllocError>
    requires { 0 < lanes }
    ensures planned { IfOk result (λ schedule. IsScheduleOf told.now schedule) }
    ensures lanes { IfOk result (λ schedule. schedule.lanes ≡ lanes) }
{
    if told.len() > MAX_TOLD || !are_short(told) {
        return Err(AllocError);
    }
    Schedule::new(alloc, told, lanes)
}

/// Whether all objects together take at most 864,000,000 seconds. A script states no more.
fn are_short(told: &[Told]) -> bool
    ensures { result ≡ true → seconds_in_all told.now ≤ max_seconds_in_all }
{
    let mut left = MAX_TOOK;
    for one in told {
        let seconds = one.seconds as u64;
        if seconds > left {
            return false;
        }
        left -= seconds;
    }
    true
}

/// Whether the planning failed.
fn has_failed(note: Option<PlanNote>, is_severe: bool) -> bool
    ensures { (planning : List Note) → is_severe ≡ list_any is_error planning → result ≡ specs.has_failed note planning }
{
    note == Some(PlanNote::Unfinished) || is_severe
}

/// Whether the plan has neither changes nor changes of outputs.
fn is_bare(plan: &Plan, outputs: &[PlannedOutput]) -> bool
    ensures { result ≡ (is_none plan.now.changes && is_none outputs.now) }
{
    plan.len() == 0 && outputs.is_empty()
}

/// Whether the plan is applied.
fn applies(command: Command, failed: bool) -> bool
    ensures { result ≡ specs.applies command failed }
{
    command != Command::Plan && !failed
}

/// Whether the plan is told.
fn tells_plan(command: Command, failed: bool, is_severe: bool, is_bare: bool) -> bool
    ensures { (planning : List Note) → is_severe ≡ list_any is_error planning → result ≡ specs.tells_plan command failed planning is_bare }
{
    match command {
        Command::Plan => true,
        Command::Saved | Command::Apply => !(failed && is_bare),
        Command::Destroy => !(failed && is_bare) && !is_severe,
    }
}

/// The told objects that were never done, if the planning failed.
fn lost_of<'a>(
    alloc: Global,
    failed: bool,
    told: &'a [Told],
    begun: &[bool],
) -> Result<Option<LostObjects<'a>>, AllocError>
    requires { length told.now ≤ length begun.now }
    ensures { IfOk result (λ lost. (events : List Event) → AreBegun (record { told = told.now; events = events }) begun.now
        → HasLost failed (record { told = told.now; events = events }) lost) }
{
    if failed {
        Ok(Some(LostObjects::of(alloc, told, begun)?))
    } else {
        Ok(None)
    }
}

/// What is told of a plan: drifts and changes by their numbers, and the sums.
#[derive(Drop)]
struct ToldPlan {
    drifts: Vec<usize>,
    changes: Vec<u32>,
    totals: PlanTotals,
}

/// What is told of a plan, where the planning began these objects.
fn told_plan(
    alloc: Global,
    failed: bool,
    told: &[Told],
    begun: &[bool],
    plan: &Plan,
    details: &[ChangeDetails],
    drifts: &[Drift],
) -> Result<ToldPlan, AllocError>
    requires { length told.now ≤ length begun.now }
    ensures drifts { IfOk result (λ part. (events : List Event) → AreBegun (record { told = told.now; events = events }) begun.now
        → part.drifts.items ≡ kept failed (record { told = told.now; events = events }) (map (λ drift. drift.change) drifts.now)) }
    ensures changes { IfOk result (λ part. (events : List Event) → AreBegun (record { told = told.now; events = events }) begun.now
        → part.changes.items ≡ kept failed (record { told = told.now; events = events }) plan.now.changes) }
    ensures totals { IfOk result (λ part. (events : List Event) → AreBegun (record { told = told.now; events = events }) begun.now
        → part.totals ≡ planned_totals (filter_map (details_at plan.now.changes details.now)
        (kept failed (record { told = told.now; events = events }) plan.now.changes))) }
{
    let lost = lost_of(alloc, failed, told, begun)?;
    Ok(ToldPlan {
        drifts: kept_drifts(alloc, &lost, drifts)?,
        changes: kept_changes(alloc, &lost, plan)?,
        totals: totals_of(&lost, plan, details),
    })
}
