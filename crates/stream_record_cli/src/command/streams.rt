//! Reads the stream, or the run of it that is chosen.

ghost use Rattle.std.specs.Prelude.{◌≡◌, IfErr, IfOk, IfSome, None};
ghost use Rattle.stream_record_cli.specs.StreamsRead.{IsRead, IsReadCause, IsUnread};
ghost use Rattle.stream_record_steps.specs.Steps.{planned_steps};
ghost use Rattle.stream_record_stream.specs.Answers.{IsReadOf};

use crate::refusal::Refusal;
use apply_plan::Plan;
use std::alloc::Global;
use std::io::BufRead;
use stream_record_stream::{ApplyStream, StreamFault, read_apply};
use stream_runs::{Run, RunChoice, select_run};

/// Reads the stream of an apply of the plan: the whole input, or the chosen run of it.
///
/// `Err` has `RecordFault::NoRun` if the run is not there, `RecordFault::Memory` if memory was
/// refused, and else `RecordFault::Stream`.
pub fn stream_in<'p, R: BufRead>(
    alloc: Global,
    plan: &'p Plan,
    find: bool,
    run: Option<RunChoice>,
    reader: &mut R,
) -> Result<ApplyStream<'p>, Refusal>
    ensures ok { IfOk result (λ stream. IfSome (R.remaining reader.old) (λ bytes. IsRead plan.now find run bytes stream)) }
    ensures planned { IfOk result (λ stream. stream.begun.planned ≡ planned_steps plan.now.changes) }
    ensures err { IfErr result (λ refusal. IfSome (R.remaining reader.old) (λ bytes. IsUnread plan.now find run bytes refusal.fault)) }
    ensures causes { IfErr result (λ refusal. IsReadCause refusal.fault) }
{
    match run {
        None => Ok(read_apply(alloc, plan, find, 0, reader)?),
        Some(choice) => {
            let run = select_run(alloc, find, choice, reader)?;
            let stream = run_in(alloc, plan, find, &run)?;
            Ok(stream)
        }
    }
}

/// Reads a run. `Err` is as in `read_apply`.
fn run_in<'p>(
    alloc: Global,
    plan: &'p Plan,
    find: bool,
    run: &Run,
) -> Result<ApplyStream<'p>, StreamFault>
    ensures read { IsReadOf plan.now find run.now.lines_before run.now.bytes.items result }
    ensures planned { IfOk result (λ stream. stream.begun.planned ≡ planned_steps plan.now.changes) }
{
    let mut bytes = run.bytes.as_slice();
    read_apply(alloc, plan, find, run.lines_before, &mut bytes)
}
