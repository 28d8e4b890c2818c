//! Reads the script's file.

ghost use Rattle.std.specs.Prelude.{◌≡◌, ◌≤◌, ◌+◌, ◌⊎◌, length, IfOk};
ghost use Rattle.apply_plan.specs.Bytes.{max_bytes};
ghost use Rattle.apply_cli.specs.Command.{IsFrontOfFile};
ghost use Rattle.apply_cli.specs.Status.{script_fault_status_of};

use crate::input::read_through_buffer;
use crate::read_fault::ReadFault;
use crate::status::REFUSED;
use std::alloc::Global;
use std::io::Write;
use std::rt::Files;
use std::{fs, io};
use stream_tool::{FileFault, refuse_memory, report};
use term_text::escape_controls;

/// Why a script's file gave no bytes.
#[derive(Clone, Copy)]
pub enum ScriptFault {
    /// The file could not be opened.
    Unopened(io::Error),
    /// A read of the file failed.
    Unread(io::Error),
    /// Memory was refused.
    Memory,
}

/// Returns the bytes of the file, at most 67,108,865. `Err` with `ScriptFault::Unopened` if it
/// cannot be opened, with `ScriptFault::Unread` if a read fails, and with `ScriptFault::Memory` if
/// memory is refused.
pub fn read_file<R: Files>(rt: &R, alloc: Global, file: &str) -> Result<Vec<u8>, ScriptFault>
    ensures bytes { IfOk result (λ bytes. IsFrontOfFile R.File.remaining bytes.items) }
    ensures few { IfOk result (λ bytes. length bytes.items ≤ max_bytes + 1) }
{
    match fs::open(rt, file) {
        Ok(mut file) => match read_through_buffer(alloc, &mut file) {
            Ok(bytes) => Ok(bytes),
            Err(ReadFault::Failed(error)) => Err(ScriptFault::Unread(error)),
            Err(ReadFault::Memory) => Err(ScriptFault::Memory),
        },
        Err(error) => Err(ScriptFault::Unopened(error)),
    }
}

/// Reports why the script's file of that name gave no bytes, and returns the exit status. It is 3
/// also if memory is refused for the message.
pub fn report_script<E: Write>(alloc: Global, faults: &mut E, name: &str, fault: ScriptFault) -> u8
    ensures status { (result ≡ script_fault_status_of fault) ⊎ (result ≡ 3) }
    ensures bad { (2 ≤ result) × (result ≤ 3) }
{
    match fault {
        ScriptFault::Unopened(error) => report_named(alloc, faults, name, "opened", &error),
        ScriptFault::Unread(error) => report_named(alloc, faults, name, "read", &error),
        ScriptFault::Memory => refuse_memory(faults),
    }
}

/// Reports what could not be done with the script's file of that name, and the error. Control
/// characters in the name are escaped. Returns the exit status: 2, or 3 if memory is refused.
fn report_named<E: Write>(
    alloc: Global,
    faults: &mut E,
    name: &str,
    done: &str,
    error: &io::Error,
) -> u8
    ensures { (result ≡ 2) ⊎ (result ≡ 3) }
{
    let Ok(name) = escape_controls(alloc, name.as_bytes()) else {
        return refuse_memory(faults);
    };
    report(
        faults,
        FileFault {
            what: "script file",
            name: name.as_str(),
            done,
            error: Some(error),
        },
    );
    REFUSED
}
