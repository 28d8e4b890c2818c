//! Reads the plan and the script.

ghost use Rattle.std.specs.Prelude.{◌≡◌, ◌<◌, ◌≤◌, ◌+◌, ◌++◌, ℕ, List, IfErr, IfOk, IfSome, length, option_map, take};
ghost use Rattle.std.specs.Io.KnownBytes.{Consumes, IsAtEnd};
ghost use Rattle.std.specs.Option.{option_copied};
ghost use Rattle.input_validate_cli.specs.Causes.{IsReadFault};
ghost use Rattle.input_validate_cli.specs.Validated.{IsReadOf, IsScriptOf};

use crate::command::arguments::Settings;
use crate::command::validate_fault::ValidateFault;
use crate::input_sizes::InputSizes;
use apply_plan::MAX_BYTES;
use std::alloc::{AllocError, AllocFailed, Global};
use std::fs;
use std::io::Read;
use std::rt::Files;
use stream_lines::{FailedRead, read_once};

/// One byte more than an input may have, so that an input that is too large can be told.
const MAX_READ: usize = MAX_BYTES + 1;

/// How many bytes one read asks for.
const BUFFER_LEN: usize = 65_536;

/// An input that was read to its end.
#[derive(Drop)]
pub struct ReadInput {
    /// The first bytes of the input: all of them, or one more than it may have.
    pub bytes: Vec<u8>,
    /// How many bytes the whole input has.
    pub len: u64,
}

/// Why an input was not read.
#[derive(Clone, Copy)]
pub enum ReadFault {
    /// A read failed.
    Unread(FailedRead),
    /// Memory was refused.
    Memory,
}

impl From<FailedRead> for ReadFault {
    fn from(failed: FailedRead) -> ReadFault {
        ReadFault::Unread(failed)
    }
}

impl From<AllocError> for ReadFault {
    fn from(_refused: AllocError) -> ReadFault {
        ReadFault::Memory
    }
}

impl<T: Drop> From<AllocFailed<T>> for ReadFault {
    fn from(_refused: AllocFailed<T>) -> ReadFault {
        ReadFault::Memory
    }
}

/// The plan, and the script where the settings name one.
#[derive(Drop)]
pub struct Inputs {
    pub plan: ReadInput,
    pub script: Option<ReadInput>,
}

impl Inputs {
    /// Returns the stored bytes of the script.
    pub fn script_bytes(&self) -> Option<&[u8]>
        ensures { option_copied result ≡ option_map (λ read. read.bytes.items) self.now.script }
    {
        match &self.script {
            Some(read) => Some(read.bytes.as_slice()),
            None => None,
        }
    }

    /// Returns the sizes of the inputs.
    pub fn sizes(&self) -> InputSizes {
        let script = match &self.script {
            Some(read) => read.len,
            None => 0,
        };
        InputSizes {
            plan: self.plan.len,
            script,
        }
    }
}

/// Reads the script where the settings name one, and then the plan.
///
/// `Err` with `ValidateFault::Unopened` where the script's file can't be opened. `Err` with
/// `ValidateFault::Script` and `ValidateFault::Plan` where a read of the script or the plan fails,
/// and with `ValidateFault::Memory` where memory is refused.
pub fn read_inputs<F: Files, R: Read>(
    files: &F,
    alloc: Global,
    settings: &Settings,
    input: &mut R,
) -> Result<Inputs, ValidateFault>
    ensures plan { IfOk result (λ inputs. IsReadOf (R.remaining input.old) inputs.plan.bytes.items) }
    ensures script { IfOk result (λ inputs. IsScriptOf F.File.remaining settings.now.script (option_map (λ read. read.bytes.items) inputs.script)) }
    ensures failed { IfErr result (IsReadFault settings.now.script) }
{
    let script = read_script(files, alloc, settings)?;
    match read_all(alloc, input) {
        Ok(plan) => Ok(Inputs { plan, script }),
        Err(ReadFault::Unread(failed)) => Err(ValidateFault::Plan(failed)),
        Err(ReadFault::Memory) => Err(ValidateFault::Memory),
    }
}

/// Reads the script where the settings name one. `Err` is as in `read_inputs`.
fn read_script<F: Files>(
    files: &F,
    alloc: Global,
    settings: &Settings,
) -> Result<Option<ReadInput>, ValidateFault>
    ensures script { IfOk result (λ script. IsScriptOf F.File.remaining settings.now.script (option_map (λ read. read.bytes.items) script)) }
    ensures failed { IfErr result (IsReadFault settings.now.script) }
{
    let Some(name) = &settings.script else {
        return Ok(None);
    };
    match fs::open(files, name.as_str()) {
        Ok(mut file) => match read_all(alloc, &mut file) {
            Ok(script) => Ok(Some(script)),
            Err(ReadFault::Unread(failed)) => Err(ValidateFault::Script(failed)),
            Err(ReadFault::Memory) => Err(ValidateFault::Memory),
        },
        Err(error) => Err(ValidateFault::Unopened(error)),
    }
}

/// Reads an input to its end. No more than 67,108,865 bytes are stored; the others are only
/// counted.
///
/// `Err` is `ReadFault::Unread` if a read failed, and `ReadFault::Memory` if memory was refused.
pub fn read_all<R: Read>(alloc: Global, input: &mut R) -> Result<ReadInput, ReadFault>
    ensures { IfOk result (λ read. IsReadOf (R.remaining input.old) read.bytes.items) }
{
    let mut buffer = zeros(alloc, BUFFER_LEN)?;
    let bytes = read_front(alloc, input, &mut buffer, MAX_READ)?;
    let mut len = bytes.len() as u64;
    if bytes.len() == MAX_READ {
        len = len.saturating_add(count_rest(input, &mut buffer)?);
    }
    Ok(ReadInput { bytes, len })
}

/// Counts the bytes that an input has left. `Err` means that a read failed.
fn count_rest<R: Read>(input: &mut R, buffer: &mut [u8]) -> Result<u64, FailedRead> {
    let mut len = 0u64;
    for _ in 0..u64::MAX {
        match read_once(input, buffer)? {
            0 => return Ok(len),
            count => len = len.saturating_add(count as u64),
        }
    }
    Ok(len)
}

/// Makes a vector of zeros. `Err` means that memory was refused.
fn zeros(alloc: Global, count: usize) -> Result<Vec<u8>, AllocError>
    ensures { IfOk result (λ zeros. length zeros.items ≡ count) }
{
    vec![in alloc; 0u8; count]
}

/// Reads the first bytes of an input, up to `limit`. `Err` is as in `read_all`.
fn read_front<R: Read>(
    alloc: Global,
    input: &mut R,
    buffer: &mut [u8],
    limit: usize,
) -> Result<Vec<u8>, ReadFault>
    requires { 0 < length buffer.old }
    ensures { IfOk result (λ bytes. IfSome (R.remaining input.old) (λ all. bytes.items ≡ take limit all)) }
{
    let mut bytes = Vec::new(alloc);
    while bytes.len() < limit {
        let room = buffer.len().min(limit - bytes.len());
        if read_some(input, &mut buffer[..room], &mut bytes)? == 0 {
            break;
        }
    }
    Ok(bytes)
}

/// Appends the bytes of one read, and returns their number: 0 at the end of the input. `Err` is as
/// in `read_all`.
fn read_some<R: Read>(
    input: &mut R,
    buffer: &mut [u8],
    bytes: &mut Vec<u8>,
) -> Result<usize, ReadFault>
    requires { 0 < length buffer.old }
    ensures { IfOk result (λ count. (piece : List ℕ)
        × (bytes.new.items ≡ bytes.old.items ++ piece)
        × (length piece ≡ count)
        × (count ≤ length buffer.old)
        × Consumes (R.remaining input.old) (R.remaining input.new) piece
        × (count ≡ 0 → IsAtEnd (R.remaining input.new))) }
{
    let count = read_once(input, buffer)?;
    bytes.extend_from_slice(&buffer[..count])?;
    Ok(count)
}
