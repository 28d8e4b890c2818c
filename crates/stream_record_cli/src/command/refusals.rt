//! Prints why no script was written.

ghost use Rattle.std.specs.Prelude.{◌≡◌, ◌⊎◌};
ghost use Rattle.std.specs.Io.KnownBytes.{Keeps};
ghost use Rattle.stream_record_cli.specs.Causes.{IsStatusOf, fault_status_of};
ghost use Rattle.stream_record_cli.specs.declared.record_fault.RecordFault.TheVariants.{Gone};

use crate::record_fault::RecordFault;
use crate::refusal::Refusal;
use input_files::InputFault;
use std::alloc::Global;
use std::io::Write;
use stream_record_stream::StreamFault;
use stream_runs::SeveralRuns;
use stream_tool::{FAILED, REFUSED, refuse_file, refuse_memory, refuse_unread, report};

/// Prints why the input of that name was not read. Returns the exit status: 2, or 3 where memory
/// was refused.
pub fn refuse_input<E: Write>(alloc: Global, faults: &mut E, name: &str, fault: InputFault) -> u8
    ensures { (result ≡ 2) ⊎ (result ≡ 3) }
{
    match fault {
        InputFault::Unopened(error) => refuse_file(alloc, faults, name, "opened", Some(&error)),
        InputFault::Unread(failed) => refuse_unread(alloc, faults, name, failed),
        InputFault::Memory => refuse_memory(faults),
    }
}

/// Prints why the script was not written, and returns the exit status. `name` is that of the
/// stream's file, if it is one.
///
/// Nothing is printed if the reader of the output is gone: whoever ended that reader, as `head`
/// ends, knows.
pub fn refuse<E: Write>(alloc: Global, name: Option<&str>, refusal: Refusal, faults: &mut E) -> u8
    ensures status { IsStatusOf refusal.fault result }
    ensures gone { refusal.fault ≡ Gone → Keeps (E.contents faults.old) (E.contents faults.new) }
{
    let fault = refusal.fault;
    match fault {
        RecordFault::Gone => FAILED,
        RecordFault::Stream(stream) => refuse_stream(alloc, name, stream, faults),
        _ => {
            match refusal.line {
                // A failed write is ignored, since no other place is left for messages.
                Some(line) => {
                    let _ = faults.write_all(line.as_bytes());
                }
                None => report(faults, fault),
            }
            status_of(fault)
        }
    }
}

/// The exit status for this cause.
fn status_of(fault: RecordFault) -> u8
    ensures { result ≡ fault_status_of fault }
{
    match fault {
        RecordFault::Input(_)
        | RecordFault::Plan(_)
        | RecordFault::Graph(_)
        | RecordFault::Stream(_)
        | RecordFault::NoRun(_)
        | RecordFault::TooLarge => REFUSED,
        RecordFault::Memory | RecordFault::Gone | RecordFault::Unwritten => FAILED,
    }
}

/// Prints why the stream is refused, and returns the exit status.
fn refuse_stream<E: Write>(
    alloc: Global,
    name: Option<&str>,
    fault: StreamFault,
    faults: &mut E,
) -> u8
    ensures { IsStatusOf (RecordFault.Stream fault) result }
{
    match (fault, name) {
        (StreamFault::Unread(failed), Some(name)) => refuse_unread(alloc, faults, name, failed),
        (StreamFault::VersionAgain { runs, .. }, _) => {
            report(faults, fault);
            report(faults, SeveralRuns { runs });
            REFUSED
        }
        _ => {
            report(faults, fault);
            REFUSED
        }
    }
}
