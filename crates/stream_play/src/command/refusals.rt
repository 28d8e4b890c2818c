//! Reports why a stream was not played to its end.

ghost use Rattle.std.specs.Prelude.{◌≡◌, is_some};
ghost use Rattle.std.specs.Io.KnownBytes.{Keeps};
ghost use Rattle.stream_play.specs.CommandLine.{IsFaultStatus, fault_status_of};
ghost use Rattle.stream_play.specs.declared.play_fault.PlayFault.TheVariants.{Gone};

use crate::play_fault::PlayFault;
use std::alloc::Global;
use std::io::Write;
use stream_tool::{FAILED, REFUSED, refuse_unread, report};

/// Reports the fault on `faults`, with the name of the file where `name` is given, and returns the
/// exit status. Nothing is reported where the reader of the output is gone. Whoever ended that
/// reader, as `head` ends, knows.
pub fn refuse<E: Write>(alloc: Global, faults: &mut E, name: Option<&str>, fault: PlayFault) -> u8
    ensures status { IsFaultStatus (is_some name.entry) fault result }
    ensures gone { fault ≡ Gone → Keeps (E.contents faults.old) (E.contents faults.new) }
{
    match (fault, name) {
        (PlayFault::Gone, _) => FAILED,
        (PlayFault::Unread(failed), Some(name)) => refuse_unread(alloc, faults, name, failed),
        _ => {
            report(faults, fault);
            fault_status(fault)
        }
    }
}

/// Returns the exit status of the fault.
fn fault_status(fault: PlayFault) -> u8
    ensures { result ≡ fault_status_of fault }
{
    match fault {
        PlayFault::TooLong(_) | PlayFault::TooMany | PlayFault::NoRun(_) | PlayFault::Unread(_) =>
            REFUSED,
        PlayFault::Memory | PlayFault::Gone | PlayFault::Unwritten => FAILED,
    }
}

/// Flushes the lines that were played before the fault. After a failed write, nothing is flushed.
pub fn send_on<W: Write>(out: &mut W, fault: PlayFault)
    ensures { Keeps (W.contents out.old) (W.contents out.new) }
{
    match fault {
        PlayFault::Gone | PlayFault::Unwritten => {}
        _ => {
            let _ = out.flush();
        }
    }
}
