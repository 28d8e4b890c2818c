//! Writes the script of a stream.

ghost use Rattle.std.specs.Prelude.{◌≡◌, ◌<◌, ◌≤◌, Err, IfErr, IfOk, IfSome, None, Some, length};
ghost use Rattle.std.specs.Option.{ForSome, option_copied};
ghost use Rattle.std.specs.Io.KnownBytes.{Keeps};
ghost use Rattle.stream_record_cli.specs.Outcomes.{HasOutcome};
ghost use Rattle.stream_record_cli.specs.Recorded.{IsOfStream, IsRecording, IsRefused, IsScriptOfStream, IsStreamRefused};
ghost use Rattle.stream_record_cli.specs.declared.record_fault.RecordFault.TheVariants.{Gone};
ghost use Rattle.stream_record_steps.specs.Steps.{planned_steps};
ghost use Rattle.stream_record_waits.specs.Graph.{AreWaitsOf};
ghost use Rattle.stream_record_waits.specs.Recorded.{graph_in};
ghost use Rattle.term_words.specs.MessageTexts.{text_bytes};

use crate::command::planning::{extras_in, plan_in};
use crate::command::streams::stream_in;
use crate::command::waits::graph_waits;
use crate::command::writing::{Texts, write_outcome};
use crate::record_fault::RecordFault;
use crate::refusal::Refusal;
use apply_plan::Plan;
use std::alloc::Global;
use std::io::{BufRead, Write};
use stream_record_script::{Recording, Wishes, recording_of};
use stream_runs::RunChoice;
use stream_tool::Report;

/// How a stream is read, and its script made.
#[derive(Clone, Copy, Debug)]
pub struct StreamChoice {
    /// Whether messages are sought in the lines of a log.
    pub find: bool,
    /// The run of the stream that is taken, if one is chosen.
    pub run: Option<RunChoice>,
    /// How the script is made.
    pub wishes: Wishes,
}

/// Writes the script with which a run of the plan tells the apply of a stream again, and warns of
/// what the script does not say.
///
/// `plan` and `graph` hold whole inputs, or as many bytes as show that an input is too large. `name`
/// is that of the stream's file, if it is one. There has to be a lane.
///
/// The exit status is:
/// - 0 if the script was written.
/// - 1 if it was written, and warnings were printed to `faults`.
/// - 2 if a run refuses the plan, if the graph or the stream is refused, or if the script would be
///   too large.
/// - 3 if memory was refused, or if `out` could not be written.
///
/// Nothing is written before a refusal. An error is printed to `faults`, unless the reader of `out`
/// is gone.
pub fn record_stream<R: BufRead, W: Write, E: Write>(
    alloc: Global,
    plan: &[u8],
    graph: Option<&[u8]>,
    choice: StreamChoice,
    name: Option<&str>,
    reader: &mut R,
    out: &mut W,
    faults: &mut E,
) -> Report<Result<(), RecordFault>>
    requires { 0 < choice.wishes.lanes }
    ensures came { HasOutcome (IsScriptOfStream plan.now (option_copied graph.entry) choice (R.remaining reader.old))
        (IsRefused plan.now (option_copied graph.entry) choice (R.remaining reader.old))
        (W.contents out.old) (W.contents out.new) result.status result.answer }
    ensures quiet { result.status ≡ 0 → Keeps (E.contents faults.old) (E.contents faults.new) }
    ensures gone { result.answer ≡ Err Gone → Keeps (E.contents faults.old) (E.contents faults.new) }
    ensures statuses { result.status ≤ 3 }
{
    let made = texts_of(alloc, plan, graph, choice, reader);
    write_outcome(alloc, name, made, out, faults)
}

/// Makes the script and its warnings. `Err` has the fault that `record_stream` answers.
fn texts_of<R: BufRead>(
    alloc: Global,
    plan: &[u8],
    graph: Option<&[u8]>,
    choice: StreamChoice,
    reader: &mut R,
) -> Result<Texts, Refusal>
    requires { 0 < choice.wishes.lanes }
    ensures ok { IfOk result (λ texts. IsScriptOfStream plan.now (option_copied graph.entry) choice (R.remaining reader.old)
        (text_bytes texts.script) (text_bytes texts.warnings)) }
    ensures err { IfErr result (λ refusal. IsRefused plan.now (option_copied graph.entry) choice (R.remaining reader.old) refusal.fault) }
{
    let read = match plan_in(alloc, plan) {
        Ok(read) => read,
        Err(fault) => return Err(Refusal::of(fault)),
    };
    match graph {
        Some(graph) => {
            let waits = graph_waits(alloc, &read, graph)?;
            texts_with(alloc, plan, &read, Some(&waits), choice, reader)
        }
        None => texts_with(alloc, plan, &read, None, choice, reader),
    }
}

/// Makes the script and its warnings, with these waits of a graph. `plan` is what the bytes `bytes`
/// state. `Err` has the fault that `record_stream` answers.
fn texts_with<R: BufRead>(
    alloc: Global,
    bytes: &[u8],
    plan: &Plan,
    waits: Option<&[Vec<usize>]>,
    choice: StreamChoice,
    reader: &mut R,
) -> Result<Texts, Refusal>
    requires lanes { 0 < choice.wishes.lanes }
    requires waits { ForSome (graph_in waits) (λ lists. AreWaitsOf (length (planned_steps plan.now.changes)) lists) }
    ensures ok { IfOk result (λ texts. IfSome (R.remaining reader.old) (λ stream. IsRecording bytes.now plan.now (graph_in waits.entry) choice stream
        (text_bytes texts.script) (text_bytes texts.warnings))) }
    ensures err { IfErr result (λ refusal. IfSome (R.remaining reader.old) (λ stream.
        IsStreamRefused bytes.now plan.now (graph_in waits.entry) choice stream refusal.fault)) }
    ensures causes { IfErr result (λ refusal. IsOfStream refusal.fault) }
{
    let stream = stream_in(alloc, plan, choice.find, choice.run, reader)?;
    let extras = match extras_in(alloc, bytes) {
        Ok(extras) => extras,
        Err(fault) => return Err(Refusal::of(fault)),
    };
    let Recording { script, warnings } = recording_of(
        alloc,
        plan,
        extras.note,
        extras.outputs,
        waits,
        choice.wishes,
        &stream,
    )?;
    Ok(Texts { script, warnings })
}
