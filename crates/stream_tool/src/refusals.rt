//! Reports why a command ends early.

ghost use Rattle.std.specs.Prelude.{◌≡◌, ◌≤◌, ◌⊎◌};
ghost use Rattle.std.specs.Io.KnownBytes.{Keeps};
ghost use Rattle.stream_tool.specs.Refused.{usage_status_of};

use crate::file_fault::FileFault;
use crate::reporting::report;
use crate::status::{FAILED, REFUSED};
use crate::usage::Usage;
use std::alloc::Global;
use std::io;
use std::io::Write;
use stream_lines::{FailedRead, LineFault};
use term_text::escape_controls;

/// Prints help on `out`, or reports on `faults` why the arguments are refused. Returns the exit
/// status: 0 for help, 3 where memory was refused, else 2.
pub fn answer_usage<W: Write, E: Write>(usage: &Usage, out: &mut W, faults: &mut E) -> u8
    ensures status { result ≡ usage_status_of usage.now }
    ensures quiet { result ≡ 0 → Keeps (E.contents faults.old) (E.contents faults.new) }
    ensures refused { 2 ≤ result → Keeps (W.contents out.old) (W.contents out.new) }
{
    match usage {
        Usage::Help(text) => {
            let _ = out.write_all(text.as_str().as_bytes());
            let _ = out.flush();
            0
        }
        Usage::Words(text) => {
            let _ = faults.write_all(text.as_str().as_bytes());
            REFUSED
        }
        Usage::Memory => refuse_memory(faults),
    }
}

/// Reports that the file could not be read. Returns the exit status: 2, or 3 where memory was
/// refused for the message.
pub fn refuse_unread<E: Write>(alloc: Global, faults: &mut E, name: &str, failed: FailedRead) -> u8
    ensures { (result ≡ 2) ⊎ (result ≡ 3) }
{
    match failed.number() {
        Some(number) => {
            let error = io::Error::from_raw_os_error(number);
            refuse_file(alloc, faults, name, "read", Some(&error))
        }
        None => refuse_file(alloc, faults, name, "read", None),
    }
}

/// Reports that the file could not be opened or read, with the error of the system. Control
/// characters in its name are escaped. Returns the exit status: 2, or 3 where memory was refused
/// for the message.
pub fn refuse_file<E: Write>(
    alloc: Global,
    faults: &mut E,
    name: &str,
    done: &str,
    error: Option<&io::Error>,
) -> u8
    ensures { (result ≡ 2) ⊎ (result ≡ 3) }
{
    let Ok(name) = escape_controls(alloc, name.as_bytes()) else {
        return refuse_memory(faults);
    };
    report(
        faults,
        FileFault {
            what: "file",
            name: name.as_str(),
            done,
            error,
        },
    );
    REFUSED
}

/// Reports that memory was refused, and returns the exit status 3.
pub fn refuse_memory<E: Write>(faults: &mut E) -> u8
    ensures { result ≡ 3 }
{
    report(faults, LineFault::Memory);
    FAILED
}
