//! Makes the script of a stream.

ghost use Rattle.std.specs.Prelude.{◌≡◌, ◌<◌, ◌≤◌, ◌++◌, IfErr, IfOk, Ok, length, map};
ghost use Rattle.std.specs.List.{flat_map};
ghost use Rattle.std.specs.Option.{ForSome};
ghost use Rattle.apply_plan_terraform.specs.Outputs.{outputs_view};
ghost use Rattle.stream_record_script.specs.Outputs.{output_warning};
ghost use Rattle.stream_record_script.specs.Recordings.{IsNotRecorded, IsRecorded, choices_with, circumstances_of};
ghost use Rattle.stream_record_steps.specs.Steps.{planned_steps};
ghost use Rattle.stream_record_stream.specs.Streams.{has_error};
ghost use Rattle.stream_record_waits.specs.Graph.{AreWaitsOf};
ghost use Rattle.stream_record_waits.specs.Recorded.{graph_in};
ghost use Rattle.stream_record_waits.specs.Steps.{lists_in};
ghost use Rattle.stream_record_warnings.specs.StepWarnings.{step_warnings};
ghost use Rattle.stream_record_warnings.specs.StreamWarnings.{stream_warnings};
ghost use Rattle.term_words.specs.MessageTexts.{text_bytes};

use crate::outputs::{outputs_told, push_output_warnings, script_outputs, split_outputs};
use crate::recording_fault::RecordingFault;
use crate::runs::steps_of_plan;
use crate::steps::script_of;
use apply_model::{Note, Plan, Severity};
use apply_plan_terraform::{PlanNote, PlanOutputs};
use std::alloc::{AllocError, Global};
use stream_record::script_text;
use stream_record_lines::Output;
use stream_record_outcomes::{Circumstances, RecordedOutcomes, RecordedStep, outcomes};
use stream_record_stream::ApplyStream;
use stream_record_waits::{Choices, recorded_waits};
use stream_record_warnings::{push_step_warnings, push_stream_warnings};
use term_words::MessageText;

/// The most steps of a plan, which has at most 10,000 changes, and each of these at most 2 steps.
const MAX_STEPS: usize = 20_000;

/// How a script is to be made.
#[derive(Clone, Copy, Debug)]
pub struct Wishes {
    /// With a graph: whether steps also wait so that they begin as in the stream.
    pub begins: bool,
    /// The number of lanes in which the script is to run.
    pub lanes: u8,
}

/// The script of a stream.
#[derive(Drop)]
pub struct Recording {
    /// The script, on one line that ends in a line feed.
    pub script: MessageText,
    /// A line for each thing that the script does not say.
    pub warnings: MessageText,
}

/// Makes the script with which a run tells the apply of a stream again. `note` and `outputs` are
/// those of the plan. `graph` has for each step of the plan the numbers of the steps that it waits
/// for, where there is a graph.
///
/// `Err` is one of these. Nothing is left of the work then.
/// - `RecordingFault::TooManyWaits`: the steps have more than 1,000,000 waits.
/// - `RecordingFault::TooLarge`: the script would have more than 67,108,864 bytes.
/// - `RecordingFault::Memory`: memory was refused.
pub fn recording_of(
    alloc: Global,
    plan: &Plan,
    note: Option<PlanNote>,
    outputs: PlanOutputs,
    graph: Option<&[Vec<usize>]>,
    wishes: Wishes,
    stream: &ApplyStream<'_>,
) -> Result<Recording, RecordingFault>
    requires planned { stream.now.begun.planned ≡ planned_steps plan.now.changes }
    requires lanes { 0 < wishes.lanes }
    requires graph { ForSome (graph_in graph) (λ lists. AreWaitsOf (length stream.now.begun.planned) lists) }
    ensures ok { IfOk result (λ made. IsRecorded (record { plan = plan.now; note = note; outputs = outputs_view outputs })
        (graph_in graph.entry) wishes stream.now (Ok (text_bytes made.script)) (text_bytes made.warnings)) }
    ensures err { IfErr result (IsNotRecorded (record { plan = plan.now; note = note; outputs = outputs_view outputs })
        (graph_in graph.entry) wishes stream.now) }
{
    let circumstances = circumstances_of(note, stream);
    let RecordedOutcomes {
        steps: recorded,
        loose,
    } = outcomes(alloc, &stream.begun, &stream.notes, &circumstances)?;
    let steps = steps_of_plan(alloc, &stream.begun, &recorded)?;
    let choices = choices_of(wishes, &loose, stream);
    // Waits are of so few steps.
    prove!(step_count(plan) <= MAX_STEPS);
    let waits = recorded_waits(alloc, &steps, graph, choices)?;
    let split = split_outputs(alloc, &outputs, stream.outputs.as_slice())?;
    let warnings = warnings_of(
        alloc,
        stream,
        wishes.lanes,
        &recorded,
        &waits.early,
        &split.unknown,
    )?;
    let told = outputs_told(alloc, outputs)?;
    let outputs = script_outputs(alloc, &told, &split.known)?;
    let script = script_of(alloc, plan, recorded, &waits.states, &waits.after)?;
    let script = script_text(alloc, plan, &script, &outputs, &loose)?;
    Ok(Recording { script, warnings })
}

/// The warnings of what the script does not say. `Err` where memory is refused.
///
/// `recorded` and `early` have an item for each step of the plan: its outcome, and the steps that
/// were not done when it began, though it waits for them. `unknown` are the outputs that the plan
/// does not have.
fn warnings_of(
    alloc: Global,
    stream: &ApplyStream<'_>,
    lanes: u8,
    recorded: &[Option<RecordedStep>],
    early: &[Vec<usize>],
    unknown: &[&Output],
) -> Result<MessageText, AllocError>
    ensures { IfOk result (λ warnings. text_bytes warnings ≡ stream_warnings lanes stream.now
        ++ step_warnings stream.now.begun recorded.now (lists_in early.now)
        ++ flat_map output_warning (map (λ output. output.now) unknown.now)) }
{
    let mut warnings = MessageText::new(alloc);
    push_stream_warnings(&mut warnings, stream, lanes);
    push_step_warnings(&mut warnings, &stream.begun, recorded, early);
    push_output_warnings(&mut warnings, unknown);
    if warnings.is_whole() {
        Ok(warnings)
    } else {
        Err(AllocError)
    }
}

/// The number of steps of a plan.
fn step_count(plan: &Plan) -> usize
    ensures count { result ≡ length (planned_steps plan.now.changes) }
    ensures few { result ≤ MAX_STEPS }
{
    let mut count = 0;
    for number in 0..plan.len() {
        count += plan.change(number).steps().len();
    }
    count
}

/// What is known of the apply besides its steps and diagnostics.
fn circumstances_of(note: Option<PlanNote>, stream: &ApplyStream<'_>) -> Circumstances
    ensures { result ≡ circumstances_of note stream.now }
{
    Circumstances {
        is_default_form: stream.is_default_form,
        is_partial: matches!(note, Some(PlanNote::Partial)),
        is_errored: matches!(note, Some(PlanNote::Unfinished)),
        cut_off_at: stream.cut_off_at(),
    }
}

/// How waits are chosen, where these are the diagnostics of no step.
fn choices_of(wishes: Wishes, loose: &[Note], stream: &ApplyStream<'_>) -> Choices
    ensures { result ≡ choices_with wishes loose.now stream.now }
{
    Choices {
        begins: wishes.begins,
        lanes: wishes.lanes,
        guesses: !has_error(loose) && stream.cut_off_at().is_none(),
    }
}

/// Whether there is an error.
fn has_error(notes: &[Note]) -> bool
    ensures { result ≡ has_error notes.now }
{
    notes.iter().any(|note| note.severity == Severity::Error)
}
