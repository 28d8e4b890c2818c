//! Plays a stream: each line at its own time.

ghost use Rattle.std.specs.Prelude.{◌≡◌, IfErr, IfOk, IfSome, OnOk, OnSome};
ghost use Rattle.std.specs.Io.Buffered.{reader_remaining};
ghost use Rattle.std.specs.Io.KnownBytes.{IsAtEnd, Keeps};
ghost use Rattle.stream_message.specs.Located.{found_line};
ghost use Rattle.stream_play.specs.Played.{IsLineWritten, IsPlayed, IsReadFault, written_of};
ghost use Rattle.stream_lines.specs.Reading.{Gives};

use crate::play_fault::PlayFault;
use crate::speed::Speed;
use crate::timing::Timing;
use memchr::memchr;
use std::alloc::{AllocError, Global};
use std::io::{BufReader, Read, Write};
use std::time::Clock;
use stream_lines::{LineEnd, next_line};
use stream_message::found_message;
use stream_tool::{flush, write_whole};

/// Writes the lines of the reader unchanged, each when it is due. With `find` they are the lines of
/// a log: the messages that are found in them are written, each with a line feed, and nothing else.
///
/// A line is due at the time of its timestamp, counted from the first message and divided by the
/// speed. The count starts when the first message was read. A line follows at once where it is no
/// message, or its timestamp goes back. Where the clock can't be read, no line waits.
///
/// The output is flushed before each sleep. It is also flushed before each read of the input while
/// no whole line is buffered.
///
/// These errors leave whole lines on the output:
///
/// - `PlayFault::TooLong`: a line has more than 67,108,864 bytes.
/// - `PlayFault::TooMany`: the stream has more than 2^64 - 2 lines.
/// - `PlayFault::Unread`: a read failed.
/// - `PlayFault::Memory`: memory was refused.
///
/// `PlayFault::Gone` and `PlayFault::Unwritten` report a failed write or flush, and may leave a part
/// of a line. After an error, nothing more is read or written.
pub fn play<R: Read, W: Write, C: Clock>(
    alloc: Global,
    clock: &C,
    speed: Speed,
    find: bool,
    reader: &mut BufReader<R>,
    output: &mut W,
) -> Result<(), PlayFault>
    ensures played { IfSome (reader_remaining R.remaining reader.old)
        (λ bytes. IsPlayed find bytes (W.contents output.old) (W.contents output.new) result) }
    ensures at_end { OnOk result
        (OnSome (reader_remaining R.remaining reader.old) (IsAtEnd (reader_remaining R.remaining reader.new))) }
{
    let mut line = Vec::new(alloc);
    let mut timing = Timing::new(alloc, speed);
    'lines: for before in 0..u64::MAX {
        let next = match read_next(reader, &mut line, output) {
            Ok(next) => next,
            Err(fault) => return Err(fault),
        };
        match next {
            LineEnd::End => return Ok(()),
            LineEnd::TooLong => return Err(PlayFault::TooLong(before + 1)),
            LineEnd::Line { has_feed } => {
                match play_line(alloc, clock, &mut timing, find, &mut line, has_feed, output) {
                    Ok(()) => {}
                    Err(fault) => return Err(fault),
                }
            }
        }
    }
    Err(PlayFault::TooMany)
}

/// Reads the next line, without its line feed. The output is flushed first, unless a whole line is
/// buffered: the read may have to wait.
///
/// `Err` where the read or the flush fails, or memory is refused.
fn read_next<R: Read, W: Write>(
    reader: &mut BufReader<R>,
    line: &mut Vec<u8>,
    output: &mut W,
) -> Result<LineEnd, PlayFault>
    ensures next { IfOk result (λ next. IfSome (reader_remaining R.remaining reader.old)
        (Gives next line.new.items (reader_remaining R.remaining reader.new))) }
    ensures bytes { Keeps (W.contents output.old) (W.contents output.new) }
    ensures refused { IfErr result IsReadFault }
{
    if memchr(b'\n', reader.buffer()).is_none() {
        flush(output)?;
    }
    Ok(next_line(reader, line)?)
}

/// Writes what is written of a line that was just read, when it is due.
///
/// `Err` where a write or a flush fails, or memory is refused.
fn play_line<W: Write, C: Clock>(
    alloc: Global,
    clock: &C,
    timing: &mut Timing,
    find: bool,
    line: &mut Vec<u8>,
    has_feed: bool,
    output: &mut W,
) -> Result<(), PlayFault>
    ensures { IsLineWritten (written_of find line.old.items has_feed) (W.contents output.old) (W.contents output.new) result }
{
    match close(alloc, find, line, has_feed) {
        Ok(()) => write_when_due(alloc, clock, timing, line, output),
        Err(_) => Err(PlayFault::Memory),
    }
}

/// Makes of a line what is written of it. `Err` where memory is refused.
fn close(alloc: Global, find: bool, line: &mut Vec<u8>, has_feed: bool) -> Result<(), AllocError>
    ensures { OnOk result (line.new.items ≡ written_of find line.old.items has_feed) }
{
    if find {
        keep_message(alloc, line)?;
    } else if has_feed {
        line.push(b'\n')?;
    }
    Ok(())
}

/// Keeps of a line of a log the message that is found in it, and adds a line feed. `Err` where
/// memory is refused.
fn keep_message(alloc: Global, line: &mut Vec<u8>) -> Result<(), AllocError>
    ensures { OnOk result (line.new.items ≡ found_line line.old.items) }
{
    let mut found = Vec::new(alloc);
    if let Some(message) = found_message(alloc, line)? {
        found.extend_from_slice(message)?;
        found.push(b'\n')?;
    }
    *line = found;
    Ok(())
}

/// Waits until the line is due, then writes it. `Err` where a write or a flush fails, or memory is
/// refused.
fn write_when_due<W: Write, C: Clock>(
    alloc: Global,
    clock: &C,
    timing: &mut Timing,
    line: &[u8],
    output: &mut W,
) -> Result<(), PlayFault>
    ensures { IsLineWritten line.now (W.contents output.old) (W.contents output.new) result }
{
    let due = timing.due(alloc, clock, line)?;
    timing.wait(clock, due, output)?;
    Ok(write_whole(output, line)?)
}
