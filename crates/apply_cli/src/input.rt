//! Reads the bytes of an input.

ghost use Rattle.std.specs.Prelude.{◌≡◌, ◌<◌, ◌≤◌, ◌+◌, List, ℕ, ◌++◌, IfOk, IfSome, length, take, true};
ghost use Rattle.std.specs.Io.KnownBytes.{Consumes, IsAtEnd, Keeps};
ghost use Rattle.apply_plan.specs.Bytes.{max_bytes};

use crate::input_fault::InputFault;
use crate::read_fault::ReadFault;
use apply_plan::MAX_BYTES;
use std::alloc::{AllocError, Global};
use std::io::{Read, Write};
use stream_lines::drain;

/// One byte more than a plan may have, so that a longer plan is known to be too long.
const MAX_READ: usize = MAX_BYTES + 1;

/// How many bytes are read at once.
const BUFFER_LEN: usize = 65_536;

/// Returns the bytes of the input up to its end, at most 67,108,865. `Err` if a read fails, or
/// memory is refused.
pub fn read_all<R: Read + Drop>(alloc: Global, mut input: R) -> Result<Vec<u8>, InputFault>
    ensures bytes { IfOk result
        (λ bytes. IfSome (R.remaining input) (λ all. bytes.items ≡ take (max_bytes + 1) all)) }
    ensures few { IfOk result (λ bytes. length bytes.items ≤ max_bytes + 1) }
{
    read_input(alloc, &mut input).0
}

/// Does what `read_all` does, and leaves the input with the caller. The second value says whether
/// the input was read to its end.
pub(crate) fn read_input<R: Read>(
    alloc: Global,
    input: &mut R,
) -> (Result<Vec<u8>, InputFault>, bool)
    ensures bytes { IfOk result.0
        (λ bytes. IfSome (R.remaining input.old) (λ all. bytes.items ≡ take (max_bytes + 1) all)) }
    ensures few { IfOk result.0 (λ bytes. length bytes.items ≤ max_bytes + 1) }
    ensures end { result.1 ≡ true → IsAtEnd (R.remaining input.new) }
{
    match read_through_buffer(alloc, input) {
        Ok(bytes) => {
            let is_whole = bytes.len() < MAX_READ;
            (Ok(bytes), is_whole)
        }
        Err(ReadFault::Failed(_)) => (Err(InputFault::Read), false),
        Err(ReadFault::Memory) => (Err(InputFault::Memory), false),
    }
}

/// Returns the first bytes of the input, up to the limit, read through a buffer that this function
/// allocates. `Err` if a read fails, or memory is refused.
pub(crate) fn read_through_buffer<R: Read>(
    alloc: Global,
    input: &mut R,
) -> Result<Vec<u8>, ReadFault>
    ensures bytes { IfOk result
        (λ bytes. IfSome (R.remaining input.old) (λ all. bytes.items ≡ take (max_bytes + 1) all)) }
    ensures few { IfOk result (λ bytes. length bytes.items ≤ max_bytes + 1) }
    ensures end { IfOk result
        (λ bytes. length bytes.items < max_bytes + 1 → IsAtEnd (R.remaining input.new)) }
{
    let mut buffer = zeros(alloc, BUFFER_LEN)?;
    read_front(alloc, input, &mut buffer, MAX_READ)
}

/// Returns `count` zeros. `Err` if memory is refused.
fn zeros(alloc: Global, count: usize) -> Result<Vec<u8>, AllocError>
    ensures { IfOk result (λ zeros. length zeros.items ≡ count) }
{
    vec![in alloc; 0; count]
}

/// Returns the first bytes of the input, up to the limit, read through the buffer. `Err` as in
/// `read_through_buffer`.
fn read_front<R: Read>(
    alloc: Global,
    input: &mut R,
    buffer: &mut [u8],
    limit: usize,
) -> Result<Vec<u8>, ReadFault>
    requires { 0 < length buffer.old }
    ensures bytes { IfOk result
        (λ bytes. IfSome (R.remaining input.old) (λ all. bytes.items ≡ take limit all)) }
    ensures few { IfOk result (λ bytes. length bytes.items ≤ limit) }
    ensures end { IfOk result (λ bytes. length bytes.items < limit → IsAtEnd (R.remaining input.new)) }
{
    let mut bytes = Vec::new(alloc);
    while bytes.len() < limit {
        let room = buffer.len().min(limit - bytes.len());
        if read_some(input, &mut buffer[..room], &mut bytes)? == 0 {
            break;
        }
    }
    Ok(bytes)
}

/// Appends the bytes of one read, and returns how many they are: 0 at the end. `Err` as in
/// `read_through_buffer`.
fn read_some<R: Read>(
    input: &mut R,
    buffer: &mut [u8],
    bytes: &mut Vec<u8>,
) -> Result<usize, ReadFault>
    requires { 0 < length buffer.old }
    ensures { IfOk result (λ count. (piece : List ℕ)
        × (bytes.new.items ≡ bytes.old.items ++ piece)
        × (length piece ≡ count)
        × (count ≤ length buffer.old)
        × Consumes (R.remaining input.old) (R.remaining input.new) piece
        × (count ≡ 0 → IsAtEnd (R.remaining input.new))) }
{
    match input.read(buffer) {
        Ok(count) => {
            bytes.extend_from_slice(&buffer[..count])?;
            Ok(count)
        }
        Err(error) => Err(ReadFault::Failed(error)),
    }
}

/// Reads the rest of an input that was not read to its end, and drops it. What was reported on
/// `faults` is flushed before. Returns whether the end was reached: `false` only after a failed
/// read.
pub(crate) fn finish_reading<R: Read, E: Write>(
    is_whole: bool,
    input: &mut R,
    faults: &mut E,
) -> bool
    requires { is_whole ≡ true → IsAtEnd (R.remaining input.old) }
    ensures end { result ≡ true → IsAtEnd (R.remaining input.new) }
    ensures quiet { Keeps (E.contents faults.old) (E.contents faults.new) }
{
    if is_whole {
        return true;
    }
    let _ = faults.flush();
    drain(input).is_ok()
}
