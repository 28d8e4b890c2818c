//! Reads the rest of an input that is not needed any more.

ghost use Rattle.std.specs.Prelude.{OnOk};
ghost use Rattle.std.specs.Io.KnownBytes.{IsAtEnd};

use crate::failed_read::FailedRead;
use std::io;
use std::io::Read;

/// Reads the input to its end and drops all bytes, without heap memory. A writer gets SIGPIPE where
/// its reader stops early. An interrupted read is repeated. `Err` where a read fails.
pub fn drain<R: Read>(input: &mut R) -> Result<(), FailedRead>
    ensures { OnOk result (IsAtEnd (R.remaining input.new)) }
{
    match io::copy(input, &mut io::sink()) {
        Ok(_) => Ok(()),
        Err(error) => Err(FailedRead::of(&error)),
    }
}
