//! Reports why a stream was not watched to its end.

ghost use Rattle.std.specs.Prelude.{◌≡◌, is_some};
ghost use Rattle.std.specs.Io.KnownBytes.{Keeps};
ghost use Rattle.stream_watch_cli.specs.CommandLine.{IsFaultStatus, fault_status_of};
ghost use Rattle.stream_watch_cli.specs.declared.display.Display.TheVariants.{Lines};
ghost use Rattle.stream_watch_cli.specs.declared.watch_fault.WatchFault.TheVariants.{Gone};

use crate::display::Display;
use crate::screen::Screen;
use crate::watch_fault::WatchFault;
use std::alloc::Global;
use std::io::Write;
use std::time::Clock;
use stream_ahead::Pace;
use stream_tool::{FAILED, REFUSED, refuse_unread, report};

/// Reports the fault on `faults`, with the name of the file where `name` is given, and returns the
/// exit status. Nothing is reported where the reader of the output is gone. Whoever ended that
/// reader, as `head` ends, knows.
pub fn refuse<E: Write>(alloc: Global, faults: &mut E, name: Option<&str>, fault: WatchFault) -> u8
    ensures status { IsFaultStatus (is_some name.entry) fault result }
    ensures gone { fault ≡ Gone → Keeps (E.contents faults.old) (E.contents faults.new) }
{
    match (fault, name) {
        (WatchFault::Gone, _) => FAILED,
        (WatchFault::Unread(failed), Some(name)) => refuse_unread(alloc, faults, name, failed),
        _ => {
            report(faults, fault);
            fault_status(fault)
        }
    }
}

/// Returns the exit status of the fault.
fn fault_status(fault: WatchFault) -> u8
    ensures { result ≡ fault_status_of fault }
{
    match fault {
        WatchFault::TooMany | WatchFault::Unread(_) => REFUSED,
        WatchFault::Memory | WatchFault::Gone | WatchFault::Unwritten => FAILED,
    }
}

/// Flushes the lines that were told before the fault, and takes the panel away. After a failed
/// write, nothing is written.
pub fn send_on<W: Write, C: Clock, P: Pace, S: Screen>(
    display: &mut Display<'_, C, P, S>,
    out: &mut W,
    fault: WatchFault,
)
    ensures { display.old ≡ Lines → Keeps (W.contents out.old) (W.contents out.new) }
{
    match fault {
        WatchFault::Gone | WatchFault::Unwritten => {}
        _ => {
            display.leave(out);
            let _ = out.flush();
        }
    }
}
