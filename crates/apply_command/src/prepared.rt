//! What a command prints and applies.

ghost use Rattle.std.specs.Prelude.{◌≡◌, ◌<◌, ◌≤◌, ◌+◌, ◌^◌, length, true};
ghost use Rattle.std.specs.List.{list_all};
ghost use Rattle.apply_events.specs.Waits.Merging.{time_line};
ghost use Rattle.apply_planning.specs.PlanningWork.{planning_work};
ghost use Rattle.apply_command.specs.InTime.{is_in_time, max_took};

use crate::head_line::HeadLine;
use apply_model::{ChangeDetails, Note, Output, Plan, Script};
use apply_planning::{Schedule, Told};
use apply_prior::{Drift, PlannedOutput};
use apply_text_planning::PlanTotals;

/// What a command prints and applies.
#[derive(Drop)]
pub struct Prepared {
    /// The plan, with all its changes.
    pub plan: Plan,
    /// The script.
    pub script: Script,
    /// The details of each change, by the change's number.
    pub details: Vec<ChangeDetails>,
    /// The drifts.
    pub drifts: Vec<Drift>,
    /// The planned changes of the outputs.
    pub planned_outputs: Vec<PlannedOutput>,
    /// The objects that are told of the planning.
    pub told: Vec<Told>,
    /// The sums of the plan.
    pub totals: PlanTotals,
    /// How long the planning takes, in seconds.
    pub took: u64,
    /// How many lanes the planning has.
    pub lanes: u8,
    /// When the objects are refreshed and read.
    pub schedule: Schedule,
    /// How many events the planning has.
    pub event_count: u32,
    /// The lines of the plan, after those of the planning.
    pub plan_lines: Vec<HeadLine>,
    /// Whether the plan is applied.
    pub applies: bool,
    /// The plan without its changes: applied where the plan is not.
    pub no_changes: Plan,
    /// A script for it.
    pub no_script: Script,
    /// The diagnostics of no step.
    pub notes: Vec<Note>,
    /// The outputs after the apply.
    pub outputs: Vec<Output>,
    ghost counted: { event_count ≡ length (time_line (planning_work told.items) lanes) },
    ghost few: { 1 + event_count + length plan_lines.items < 2 ^ 32 },
    ghost in_time: { list_all is_in_time plan_lines.items ≡ true },
    ghost short: { took ≤ max_took },
}
