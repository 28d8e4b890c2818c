//! Single lines, each in a string of its own. Every `Err` means that memory was refused.

ghost use Rattle.std.specs.Prelude.{◌≡◌, ◌≤◌, IfOk, string_bytes};
ghost use Rattle.apply_events.specs.Fits.{HasStep};
ghost use Rattle.apply_text.specs.Start.{latest_clock};
ghost use Rattle.apply_text.specs.Lines.{event_text, summary_text, version_text};

use crate::line_buffer::LineBuffer;
use crate::operation::Operation;
use crate::start::Start;
use apply_events::{Counts, Event};
use apply_model::{Plan, Script};
use std::alloc::{AllocError, Global};

/// The first line of a stream, with its line feed (Machine-Readable UI, "Version Message"). It
/// gives the plan's Terraform version, and its timestamp is `start`.
pub fn version_line(alloc: Global, plan: &Plan, start: Start) -> Result<String, AllocError>
    ensures { IfOk result (λ line. string_bytes line ≡ version_text plan.now start) }
{
    let mut buffer = LineBuffer::with_room(alloc)?;
    buffer.push_version(plan, start)?;
    Ok(buffer.into_string())
}

/// The line of an event, with its line feed (Machine-Readable UI, "Operation Messages" and
/// "Diagnostic"). Its timestamp is `clock` seconds after `start`, where `clock` is the greatest
/// time of an event so far.
///
/// `clock` is at most 2,592,000,000. A text that the script does not have is empty: of a diagnostic, the
/// name of a provisioner, or an output of one.
pub fn event_line(
    alloc: Global,
    plan: &Plan,
    script: &Script,
    start: Start,
    clock: u64,
    event: &Event,
) -> Result<String, AllocError>
    requires has_step { HasStep plan.now event.now.change event.now.step }
    requires in_time { clock ≤ latest_clock }
    ensures { IfOk result
        (λ line. string_bytes line ≡ event_text plan.now script.now start clock event.now) }
{
    let mut buffer = LineBuffer::with_room(alloc)?;
    buffer.push_event(plan, script, start, clock, event)?;
    Ok(buffer.into_string())
}

/// The last line of a stream, with its line feed: the counts of completed changes (Machine-Readable
/// UI, "Change Summary"). Its timestamp is `clock` seconds after `start`. `clock` is at most
/// 2,592,000,000.
pub fn summary_line(
    alloc: Global,
    start: Start,
    clock: u64,
    operation: Operation,
    counts: &Counts,
) -> Result<String, AllocError>
    requires { clock ≤ latest_clock }
    ensures { IfOk result
        (λ line. string_bytes line ≡ summary_text start clock operation counts.now) }
{
    let mut buffer = LineBuffer::with_room(alloc)?;
    buffer.push_summary(start, clock, operation, counts)?;
    Ok(buffer.into_string())
}
