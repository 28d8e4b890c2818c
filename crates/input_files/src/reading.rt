//! Reads an input to its end.

ghost use Rattle.std.specs.Prelude.{◌≡◌, ◌<◌, ◌≤◌, ◌++◌, ℕ, List, IfOk, IfSome, length, take};
ghost use Rattle.std.specs.Io.KnownBytes.{Consumes, IsAtEnd};
ghost use Rattle.input_files.specs.Inputs.{IsReadOf};

use crate::read_fault::ReadFault;
use std::alloc::{AllocError, Global};
use std::io::Read;
use stream_lines::{FailedRead, read_once};

/// The most bytes of an input: 64 MiB.
pub const MAX_BYTES: usize = 67_108_864;

/// One byte more than an input may have, so that an input that is too large can be told.
const MAX_READ: usize = MAX_BYTES + 1;

/// How many bytes one read asks for.
const BUFFER_LEN: usize = 65_536;

/// An input that was read to its end.
#[derive(Drop)]
pub struct ReadInput {
    /// The first bytes of the input: all of them, or one more than it may have.
    pub bytes: Vec<u8>,
    /// How many bytes the whole input has.
    pub len: u64,
}

/// Reads an input to its end. No more than 67,108,865 bytes are stored; the others are only
/// counted.
///
/// `Err` is `ReadFault::Unread` if a read failed, and `ReadFault::Memory` if memory was refused.
pub fn read_all<R: Read>(alloc: Global, input: &mut R) -> Result<ReadInput, ReadFault>
    ensures { IfOk result (λ read. IsReadOf (R.remaining input.old) read.bytes.items) }
{
    let mut buffer = zeros(alloc, BUFFER_LEN)?;
    let bytes = read_front(alloc, input, &mut buffer, MAX_READ)?;
    let mut len = bytes.len() as u64;
    if bytes.len() == MAX_READ {
        len = len.saturating_add(count_rest(input, &mut buffer)?);
    }
    Ok(ReadInput { bytes, len })
}

/// Counts the bytes that an input has left. `Err` means that a read failed.
fn count_rest<R: Read>(input: &mut R, buffer: &mut [u8]) -> Result<u64, FailedRead> {
    let mut len = 0u64;
    for _ in 0..u64::MAX {
        match read_once(input, buffer)? {
            0 => return Ok(len),
            count => len = len.saturating_add(count as u64),
        }
    }
    Ok(len)
}

/// Makes a vector of zeros. `Err` means that memory was refused.
fn zeros(alloc: Global, count: usize) -> Result<Vec<u8>, AllocError>
    ensures { IfOk result (λ zeros. length zeros.items ≡ count) }
{
    vec![in alloc; 0u8; count]
}

/// Reads the first bytes of an input, up to `limit`. `Err` is as in `read_all`.
fn read_front<R: Read>(
    alloc: Global,
    input: &mut R,
    buffer: &mut [u8],
    limit: usize,
) -> Result<Vec<u8>, ReadFault>
    requires { 0 < length buffer.old }
    ensures { IfOk result (λ bytes. IfSome (R.remaining input.old) (λ all. bytes.items ≡ take limit all)) }
{
    let mut bytes = Vec::new(alloc);
    while bytes.len() < limit {
        let room = buffer.len().min(limit - bytes.len());
        if read_some(input, &mut buffer[..room], &mut bytes)? == 0 {
            break;
        }
    }
    Ok(bytes)
}

/// Appends the bytes of one read, and returns their number: 0 at the end of the input. `Err` is as
/// in `read_all`.
fn read_some<R: Read>(
    input: &mut R,
    buffer: &mut [u8],
    bytes: &mut Vec<u8>,
) -> Result<usize, ReadFault>
    requires { 0 < length buffer.old }
    ensures { IfOk result (λ count. (piece : List ℕ)
        × (bytes.new.items ≡ bytes.old.items ++ piece)
        × (length piece ≡ count)
        × (count ≤ length buffer.old)
        × Consumes (R.remaining input.old) (R.remaining input.new) piece
        × (count ≡ 0 → IsAtEnd (R.remaining input.new))) }
{
    let count = read_once(input, buffer)?;
    bytes.extend_from_slice(&buffer[..count])?;
    Ok(count)
}
