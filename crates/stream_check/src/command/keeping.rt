//! Keeps the messages of an input in a file, and checks the input.

ghost use Rattle.std.specs.Prelude.{◌≡◌, ◌++◌, ◌≤◌, ℕ, List, IfErr, IfOk, IfSome, OnOk, length};
ghost use Rattle.std.specs.Io.KnownBytes.{Appends, Consumes, IsAtEnd, Keeps};
ghost use Rattle.stream_lines.specs.Cut.{cut_lines};
ghost use Rattle.stream_check.specs.CommandLine.{HasJudgedInput, IsSilent};
ghost use Rattle.stream_check.specs.Kept.{kept_lines};
ghost use Rattle.stream_check.specs.Reading.{IsUnkept};
ghost use Rattle.stream_check.specs.declared.verdict.read_fault.ReadFault.TheVariants.{Unwritten};
ghost use Rattle.stream_message.specs.Located.{found_line};

use crate::command::checked::Checked;
use crate::command::checking::check_input;
use crate::command::refusals::refuse_unkept;
use crate::command::settings::Settings;
use crate::verdict::read_fault::{FailedCreation, ReadFault};
use std::alloc::{AllocError, Global};
use std::fs::OpenOptions;
use std::io::{BufRead, Read, Write};
use std::rt::Files;
use stream_lines::{LineEnd, LineFault, next_line, read_once};
use stream_message::found_message;
use stream_tool::write_whole;

/// How many bytes are read at once.
const BUFFER_LEN: usize = 65_536;

/// Checks the stream of the reader as `check_input` does. If the settings name a file for the
/// messages, the whole input is read first, its messages are written there, and memory holds both.
/// The file is made before the first read.
pub fn check_and_keep<F: Files, R: BufRead, W: Write, E: Write>(
    files: &F,
    alloc: Global,
    settings: &Settings,
    reader: &mut R,
    out: &mut W,
    faults: &mut E,
) -> Checked
    ensures judged { HasJudgedInput settings.now.write settings.now (R.remaining reader.old) (W.contents out.old) (W.contents out.new) result }
    ensures silent { IsSilent result → Keeps (E.contents faults.old) (E.contents faults.new) }
{
    match &settings.write {
        None => check_input(alloc, settings, reader, out, faults),
        Some(name) => match keep(files, alloc, name, reader) {
            Ok(bytes) => {
                let mut input = bytes.as_slice();
                check_input(alloc, settings, &mut input, out, faults)
            }
            Err(fault) => Checked {
                verdict: Err(fault),
                reported: refuse_unkept(alloc, faults, settings.file(), name, fault),
            },
        },
    }
}

/// Makes the file of that name, reads the input to its end, and writes its messages into the file.
/// Returns the bytes of the input.
///
/// Errors:
///
/// - `ReadFault::Uncreated`: the file can't be made, or is there. Nothing was read.
/// - `ReadFault::Unread`: a read failed. The file is empty.
/// - `ReadFault::Unwritten`: a write failed. A front of the messages may be in the file.
/// - `ReadFault::Memory`: memory was refused.
fn keep<F: Files, R: BufRead>(
    files: &F,
    alloc: Global,
    name: &str,
    reader: &mut R,
) -> Result<Vec<u8>, ReadFault>
    ensures whole { IfOk result (λ bytes. IfSome (R.remaining reader.old) (λ all. bytes.items ≡ all)) }
    ensures unkept { IfErr result IsUnkept }
{
    let mut file = create(files, name)?;
    let bytes = read_whole(alloc, reader)?;
    write_messages(alloc, &bytes, &mut file)?;
    Ok(bytes)
}

/// Makes a file that is not there, to write to it. `Err` is `ReadFault::Uncreated`.
fn create<F: Files>(files: &F, name: &str) -> Result<F::File, ReadFault>
    ensures { IfErr result IsUnkept }
{
    match OpenOptions::new()
        .write(true)
        .create_new(true)
        .open(files, name)
    {
        Ok(file) => Ok(file),
        Err(error) => Err(ReadFault::Uncreated(FailedCreation {
            number: error.raw_os_error(),
        })),
    }
}

/// Reads an input to its end. `Err` with `ReadFault::Unread` where a read fails, and with
/// `ReadFault::Memory` where memory is refused.
fn read_whole<R: Read>(alloc: Global, input: &mut R) -> Result<Vec<u8>, ReadFault>
    ensures whole { IfOk result (λ bytes. IfSome (R.remaining input.old) (λ all. bytes.items ≡ all)) }
    ensures unkept { IfErr result IsUnkept }
{
    let mut buffer = zeros(alloc)?;
    let mut bytes = Vec::new(alloc);
    'reads: for _ in 0..u64::MAX {
        let count = match read_once(input, &mut buffer) {
            Ok(count) => count,
            Err(failed) => return Err(ReadFault::Unread(failed)),
        };
        if count == 0 {
            return Ok(bytes);
        }
        bytes.extend_from_slice(&buffer[..count])?;
    }
    Err(ReadFault::Memory)
}

/// Makes the buffer for reads. `Err` where memory is refused.
fn zeros(alloc: Global) -> Result<Vec<u8>, AllocError>
    ensures { IfOk result (λ zeros. length zeros.items ≡ 65536) }
{
    vec![in alloc; 0u8; BUFFER_LEN]
}

/// Writes the messages that are found in the lines of the bytes, each with a line feed, and nothing
/// else. A line of more than 67,108,864 bytes ends them.
///
/// `Err` with `ReadFault::Unwritten` where a write fails: a front of the messages may be written
/// then. `Err` with `ReadFault::Memory` where memory is refused: nothing is written then.
pub fn write_messages<W: Write>(alloc: Global, bytes: &[u8], file: &mut W) -> Result<(), ReadFault>
    ensures written { OnOk result (Appends (W.contents file.old) (W.contents file.new) (kept_lines (cut_lines bytes.now))) }
    ensures unkept { IfErr result IsUnkept }
{
    let messages = match messages_of(alloc, bytes) {
        Ok(messages) => messages,
        Err(_) => return Err(ReadFault::Memory),
    };
    match write_whole(file, &messages) {
        Ok(()) => Ok(()),
        Err(_) => Err(ReadFault::Unwritten),
    }
}

/// Returns the messages that are found in the lines, each with a line feed. A line of more than
/// 67,108,864 bytes ends them. `Err` where memory is refused.
fn messages_of(alloc: Global, bytes: &[u8]) -> Result<Vec<u8>, LineFault>
    ensures { IfOk result (λ messages. messages.items ≡ kept_lines (cut_lines bytes.now)) }
{
    let mut rest = bytes;
    let mut text = Vec::new(alloc);
    let mut messages = Vec::new(alloc);
    'lines: for _ in 0..u64::MAX {
        let next = match next_line(&mut rest, &mut text) {
            Ok(next) => next,
            Err(fault) => return Err(fault),
        };
        match next {
            LineEnd::End => return Ok(messages),
            LineEnd::TooLong => return Ok(messages),
            LineEnd::Line { .. } => {}
        }
        match add_message(alloc, &text, &mut messages) {
            Ok(()) => {}
            Err(_) => return Err(LineFault::Memory),
        }
    }
    Err(LineFault::Memory)
}

/// Adds the message that is found in the line, and a line feed. `Err` where memory is refused.
fn add_message(alloc: Global, line: &[u8], messages: &mut Vec<u8>) -> Result<(), AllocError>
    ensures { OnOk result (messages.new.items ≡ messages.old.items ++ found_line line.now) }
{
    if let Some(message) = found_message(alloc, line)? {
        messages.extend_from_slice(message)?;
        messages.push(b'\n')?;
    }
    Ok(())
}
