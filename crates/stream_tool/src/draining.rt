//! Reads the rest of an input after a command has ended early.

ghost use Rattle.std.specs.Prelude.{◌≡◌, OnOk, true};
ghost use Rattle.std.specs.Io.KnownBytes.{IsAtEnd, Keeps};

use std::io::{Read, Write};
use stream_lines::{FailedRead, drain};

/// Flushes the messages, then reads the input to its end and drops the bytes. A program that writes
/// the input is not stopped by SIGPIPE then. Nothing happens unless `is_awaited`. `Err` where a
/// read fails.
pub fn flush_and_drain<R: Read, E: Write>(
    is_awaited: bool,
    input: &mut R,
    faults: &mut E,
) -> Result<(), FailedRead>
    ensures read { is_awaited ≡ true → OnOk result (IsAtEnd (R.remaining input.new)) }
    ensures keeps { Keeps (E.contents faults.old) (E.contents faults.new) }
{
    if !is_awaited {
        return Ok(());
    }
    let _ = faults.flush();
    drain(input)
}
