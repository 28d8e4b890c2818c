//! Reads a stream line by line. Memory holds at most one line and the bytes that the reader
//! buffers.

ghost use Rattle.std.specs.Prelude.{◌≡◌, ◌≢◌, ◌<◌, ◌≤◌, ◌++◌, ℕ, List, All, Some, IfOk, IfSome, length, take, slice_get};
ghost use Rattle.stream_lines.specs.Reading.{Gives, Supplies};

use crate::failed_read::FailedRead;
use crate::limits::MAX_BYTES;
use crate::line::LineEnd;
use crate::line_fault::LineFault;
use memchr::memchr;
use std::io::{BufRead, ErrorKind};

/// What one read added to the line.
#[derive(Clone, Copy)]
pub enum Piece {
    /// A part of the line; more bytes may follow.
    Part,
    /// The rest of the line, up to its line feed.
    Line,
    /// Nothing: the stream is at its end.
    End,
}

/// Reads the next line into `line`, without its line feed. The old content of `line` is dropped.
/// Reading stops as soon as the line is too long. An interrupted read is repeated.
///
/// `Err` with `LineFault::Unread` where a read fails, and with `LineFault::Memory` where memory is
/// refused.
pub fn next_line<R: BufRead>(reader: &mut R, line: &mut Vec<u8>) -> Result<LineEnd, LineFault>
    ensures { IfOk result (λ next. IfSome (R.remaining reader.old)
        (Gives next line.new.items (R.remaining reader.new))) }
{
    line.clear();
    'parts: for _ in 0..u64::MAX {
        let piece = append_available(reader, line)?;
        if line.len() > MAX_BYTES {
            return Ok(LineEnd::TooLong);
        }
        match piece {
            Piece::Part => {}
            Piece::Line => return Ok(LineEnd::Line { has_feed: true }),
            Piece::End => {
                return Ok(if line.is_empty() {
                    LineEnd::End
                } else {
                    LineEnd::Line { has_feed: false }
                });
            }
        }
    }
    Err(LineFault::Unread(FailedRead::for_tries()))
}

/// Appends the bytes of the line that one read makes available. An interrupted read appends
/// nothing.
///
/// `Err` with `LineFault::Unread` where the read fails, and with `LineFault::Memory` where memory
/// is refused.
fn append_available<R: BufRead>(reader: &mut R, line: &mut Vec<u8>) -> Result<Piece, LineFault>
    ensures { IfOk result (λ shown. (piece : List ℕ)
        × (line.new.items ≡ line.old.items ++ piece)
        × All (λ byte. byte ≢ 10) piece
        × Supplies shown piece (R.remaining reader.old) (R.remaining reader.new)) }
{
    let available = match reader.fill_buf() {
        Ok(available) => available,
        Err(error) => {
            return if error.kind() == ErrorKind::Interrupted {
                Ok(Piece::Part)
            } else {
                Err(LineFault::Unread(FailedRead::of(&error)))
            };
        }
    };
    let count = available.len();
    let len = len_before_feed(available);
    line.extend_from_slice(&available[..len])?;
    if len < count {
        reader.consume(len + 1);
        return Ok(Piece::Line);
    }
    reader.consume(len);
    Ok(if len == 0 { Piece::End } else { Piece::Part })
}

/// Returns how many bytes stand before the first line feed, or the length where there is no line
/// feed.
fn len_before_feed(bytes: &[u8]) -> usize
    ensures bound { result ≤ length bytes.now }
    ensures before { All (λ byte. byte ≢ 10) (take result bytes.now) }
    ensures feed { result < length bytes.now → slice_get bytes.now result ≡ Some 10 }
{
    match memchr(b'\n', bytes) {
        Some(len) => len,
        None => bytes.len(),
    }
}
