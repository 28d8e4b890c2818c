//! Single reads.

ghost use Rattle.std.specs.Prelude.{◌≡◌, ◌<◌, ◌≤◌, IfOk, length, take};
ghost use Rattle.std.specs.Io.KnownBytes.{Consumes, IsAtEnd};

use crate::failed_read::FailedRead;
use std::io::Read;

/// Reads into the buffer once, and returns the number of bytes: 0 at the end of the input. `Err`
/// where the read fails.
pub fn read_once<R: Read>(input: &mut R, buffer: &mut [u8]) -> Result<usize, FailedRead>
    ensures { IfOk result (λ count. (count ≤ length buffer.new)
        × Consumes (R.remaining input.old) (R.remaining input.new) (take count buffer.new)
        × (count ≡ 0 → 0 < length buffer.new → IsAtEnd (R.remaining input.new))) }
{
    match input.read(buffer) {
        Ok(count) => Ok(count),
        Err(error) => Err(FailedRead::of(&error)),
    }
}
