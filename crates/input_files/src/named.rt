//! Reads the input of a name.

ghost use Rattle.std.specs.Prelude.{◌≡◌, IfOk, codes, false};
ghost use Rattle.std.specs.Str.{bytes_eq};
ghost use Rattle.input_files.specs.Inputs.{IsInputOf};

use crate::read_fault::ReadFault;
use crate::reading::{ReadInput, read_all};
use std::alloc::Global;
use std::io::Read;
use std::rt::Files;
use std::{fs, io};
use stream_lines::FailedRead;

/// Why the input of a name was not read.
#[derive(Clone, Copy, Debug, Drop)]
pub enum InputFault {
    /// The file could not be opened.
    Unopened(io::Error),
    /// A read failed.
    Unread(FailedRead),
    /// Memory was refused.
    Memory,
}

impl From<ReadFault> for InputFault {
    fn from(fault: ReadFault) -> InputFault {
        match fault {
            ReadFault::Unread(failed) => InputFault::Unread(failed),
            ReadFault::Memory => InputFault::Memory,
        }
    }
}

/// Reads the file of that name to its end, or `standard` for the name `-`. No more than 67,108,865
/// bytes are stored.
///
/// Standard input is left as it is for any other name.
///
/// `Err` is `InputFault::Unopened` if the file can't be opened, `InputFault::Unread` if a read
/// failed, and `InputFault::Memory` if memory was refused.
pub fn read_named<F: Files, R: Read>(
    files: &F,
    alloc: Global,
    name: &str,
    standard: &mut R,
) -> Result<ReadInput, InputFault>
    ensures read { IfOk result (λ read. IsInputOf F.File.remaining (R.remaining standard.old) name.now read.bytes.items) }
    ensures kept { bytes_eq name.now (codes "-") ≡ false → R.remaining standard.new ≡ R.remaining standard.old }
{
    if name == "-" {
        return Ok(read_all(alloc, standard)?);
    }
    match fs::open(files, name) {
        Ok(mut file) => Ok(read_all(alloc, &mut file)?),
        Err(error) => Err(InputFault::Unopened(error)),
    }
}
