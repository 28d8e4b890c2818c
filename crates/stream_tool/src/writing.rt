//! Writes to the output.

ghost use Rattle.std.specs.Prelude.{ℕ, OnErr, OnOk, take};
ghost use Rattle.std.specs.Io.KnownBytes.{Appends, Keeps};

use std::io::{self, ErrorKind, Write};
use thiserror::Error;

/// Why the output could not be written.
#[derive(Clone, Copy, Debug, Drop, Error, PartialEq, Eq)]
pub enum WriteFault {
    /// A write or a flush failed because the reader of the output is gone (`BrokenPipe`).
    #[error("the output could not be written")]
    Gone,
    /// A write or a flush failed for another reason, or a write accepted no byte.
    #[error("the output could not be written")]
    Unwritten,
}

/// Writes all bytes, in as many writes as needed. An interrupted write is repeated.
///
/// `Err` with `WriteFault::Gone` where the reader of the output is gone. `Err` with
/// `WriteFault::Unwritten` where a write fails otherwise, or accepts no byte. A front of the bytes
/// may be written then.
pub fn write_whole<W: Write>(out: &mut W, bytes: &[u8]) -> Result<(), WriteFault>
    ensures ok { OnOk result (Appends (W.contents out.old) (W.contents out.new) bytes.now) }
    ensures part { OnErr result ((n : ℕ) × Appends (W.contents out.old) (W.contents out.new) (take n bytes.now)) }
{
    let mut written = 0;
    'writes: for _ in 0..u64::MAX {
        if written >= bytes.len() {
            return Ok(());
        }
        match out.write(&bytes[written..]) {
            Ok(0) => break,
            Ok(more) => written += more,
            Err(error) => if error.kind() != ErrorKind::Interrupted {
                return Err(write_fault(&error));
            },
        }
    }
    Err(WriteFault::Unwritten)
}

/// Flushes the output. `Err` with `WriteFault::Gone` or `WriteFault::Unwritten`, as for a write.
pub fn flush<W: Write>(out: &mut W) -> Result<(), WriteFault>
    ensures { Keeps (W.contents out.old) (W.contents out.new) }
{
    match out.flush() {
        Ok(()) => Ok(()),
        Err(error) => Err(write_fault(&error)),
    }
}

/// Classifies a failed write or flush.
fn write_fault(error: &io::Error) -> WriteFault {
    if error.kind() == ErrorKind::BrokenPipe {
        WriteFault::Gone
    } else {
        WriteFault::Unwritten
    }
}
