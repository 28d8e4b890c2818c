//! Reads a whole stream.

ghost use Rattle.std.specs.Prelude.{Err, IfErr, IfSome, OnOk};
ghost use Rattle.stream_lines.specs.Cut.{cut_lines};
ghost use Rattle.stream_timeline.specs.Lines.{AreRead, IsReadOf};
ghost use Rattle.stream_timeline.specs.TimelineRead.{empty_timeline};
ghost use Rattle.stream_timeline.specs.Building.{HasRead};

use crate::reading::builder::TimelineBuilder;
use crate::reading::log_line::log_line;
use crate::reading::timeline::Timeline;
use crate::reading::timeline_fault::TimelineFault;
use std::alloc::Global;
use std::io::BufRead;
use stream_lines::{LineEnd, next_line};

/// Reads the time line of a stream, line by line. Each line ends at a line feed; the last one may
/// have none. With `find` the lines are those of a log, and the messages in them are read. Reading
/// stops at the first line that causes an error; `stream_lines::drain` reads on.
///
/// - `TimelineFault::TooLong`: a line has more than 67,108,864 bytes.
/// - `TimelineFault::TooManyLines`: there are more than 4,294,967,296 lines.
/// - `TimelineFault::TooManySteps`: there are more than 100,000 steps and provisioners.
/// - `TimelineFault::NoMessage`: no line is a message.
/// - `TimelineFault::Unread`: a read failed.
/// - `TimelineFault::Memory`: memory was refused.
pub fn read<R: BufRead>(
    alloc: Global,
    find: bool,
    reader: &mut R,
) -> Result<Timeline, TimelineFault>
    ensures { IfSome (R.remaining reader.old) (λ bytes. IsReadOf find bytes result) }
{
    let mut builder = TimelineBuilder::new(alloc);
    let mut line = Vec::new(alloc);
    match take_lines(alloc, find, reader, &mut line, &mut builder) {
        Ok(()) => builder.end(),
        Err(fault) => Err(fault),
    }
}

/// Passes all lines to the builder, each in the buffer `line`. The caller owns the buffer and the
/// builder, so that no exit from the loop has to drop them.
fn take_lines<R: BufRead>(
    alloc: Global,
    find: bool,
    reader: &mut R,
    line: &mut Vec<u8>,
    builder: &mut TimelineBuilder,
) -> Result<(), TimelineFault>
    requires { HasRead builder.old empty_timeline }
    ensures timeline { OnOk result (IfSome (R.remaining reader.old) (λ bytes. AreRead find (cut_lines bytes) builder.new.timeline)) }
    ensures fault { IfErr result (λ fault. IfSome (R.remaining reader.old) (λ bytes. IsReadOf find bytes (Err fault))) }
{
    'lines: for before in 0..u64::MAX {
        match next_line(reader, line)? {
            LineEnd::End => return Ok(()),
            LineEnd::TooLong => return Err(TimelineFault::TooLong(before + 1)),
            LineEnd::Line { has_feed: _ } => {}
        }
        if builder.is_full() {
            return Err(TimelineFault::TooManyLines);
        }
        match builder.line(alloc, log_line(find, line)) {
            Ok(()) => {}
            Err(fault) => return Err(fault),
        }
    }
    Err(TimelineFault::TooManyLines)
}
