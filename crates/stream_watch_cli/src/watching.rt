//! Watches a stream, line by line.

ghost use Rattle.std.specs.Prelude.{◌≡◌, ℕ, IfOk, IfSome, List, OnOk};
ghost use Rattle.std.specs.Io.Buffered.{reader_remaining};
ghost use Rattle.std.specs.Io.KnownBytes.{IsAtEnd, Keeps};
ghost use Rattle.stream_check.specs.Judging.{HasJudged};
ghost use Rattle.stream_check.specs.Lines.{verdict_of};
ghost use Rattle.stream_check.specs.declared.rules.mode.Mode.{Mode as mode_type};
ghost use Rattle.stream_lines.specs.Reading.{Gives};
ghost use Rattle.stream_watch_cli.specs.Watched.{HasEnded, HasShortLines, HasToldAll, IsVerdictOf};
ghost use Rattle.stream_watch_cli.specs.declared.display.Display.TheVariants.{Lines};

use crate::display::Display;
use crate::screen::Screen;
use crate::watch_fault::WatchFault;
use memchr::memchr;
use std::alloc::Global;
use std::io::{BufReader, Read, Write};
use std::time::Clock;
use stream_ahead::Pace;
use stream_check::{Finding, Judge, MAX_LINES, Mode, Whole};
use stream_lines::{Line, LineEnd, next_line};
use stream_watch::{Looks, Watcher};

/// Watches the stream of the reader: shows what is told of each line, and at the end the verdict of
/// `check`, which is returned. All that was told is shown before each read of the input while no
/// whole line is buffered.
///
/// - `WatchFault::TooMany`: the stream has more than 4,294,967,296 lines.
/// - `WatchFault::Unread`: a read failed.
/// - `WatchFault::Memory`: memory was refused.
/// - `WatchFault::Gone` and `WatchFault::Unwritten`: a write or a flush failed.
///
/// After an error, nothing more is read or written. The lines that were written before a fault of
/// reading are whole.
pub fn watch<R: Read, W: Write, C: Clock, P: Pace, S: Screen>(
    alloc: Global,
    mode: Mode,
    looks: Looks,
    display: &mut Display<'_, C, P, S>,
    reader: &mut BufReader<R>,
    output: &mut W,
) -> Result<Result<Whole, Finding>, WatchFault>
    ensures verdict { IfSome (reader_remaining R.remaining reader.old) (λ bytes. HasShortLines bytes → IsVerdictOf mode bytes result) }
    ensures at_end { IfSome (reader_remaining R.remaining reader.old)
        (λ bytes. HasShortLines bytes → OnOk result (IsAtEnd (reader_remaining R.remaining reader.new))) }
    ensures told { display.old ≡ Lines → IfSome (reader_remaining R.remaining reader.old)
        (λ bytes. HasShortLines bytes → HasToldAll mode looks bytes (W.contents output.old) (W.contents output.new) result) }
{
    let mut watcher = Watcher::new(alloc, mode.find, looks);
    let mut judge = Judge::new(alloc, mode);
    let mut line = Line::new(alloc);
    'lines: for lines in 0..=MAX_LINES {
        match read_within(lines, reader, &mut line, &mut watcher, display, output)? {
            LineEnd::End => return end(watcher, judge, &line, display, output),
            LineEnd::TooLong => {
                judge.too_long(&line)?;
                watcher.too_long(lines + 1);
                skip_rest(reader, &mut line, &mut watcher, display, output)?;
            }
            LineEnd::Line { has_feed } => {
                line.has_feed = has_feed;
                judge.line(&line)?;
                watcher.text(&line.text)?;
            }
        }
        match display.line(&mut watcher, output) {
            Ok(()) => {}
            Err(fault) => return Err(fault),
        }
    }
    Err(WatchFault::TooMany)
}

/// Reads the next line after so many, as `read_next` does. `Err` with `WatchFault::TooMany` also
/// where it is one too many.
fn read_within<R: Read, W: Write, C: Clock, P: Pace, S: Screen>(
    lines: u64,
    reader: &mut BufReader<R>,
    line: &mut Line,
    watcher: &mut Watcher,
    display: &mut Display<'_, C, P, S>,
    output: &mut W,
) -> Result<LineEnd, WatchFault>
    ensures gives { IfOk result (λ next. IfSome (reader_remaining R.remaining reader.old)
        (Gives next line.new.text.items (reader_remaining R.remaining reader.new))) }
    ensures same { display.old ≡ Lines → display.new ≡ Lines }
    ensures watcher { display.old ≡ Lines → watcher.new ≡ watcher.old }
    ensures kept { display.old ≡ Lines → Keeps (W.contents output.old) (W.contents output.new) }
{
    let next = read_next(reader, line, watcher, display, output)?;
    match next {
        LineEnd::End => Ok(next),
        _ if lines >= MAX_LINES => Err(WatchFault::TooMany),
        _ => Ok(next),
    }
}

/// Reads the next line, without its line feed. All that was told is shown first, unless a whole line
/// is buffered: the read may have to wait.
///
/// `Err` where the read or a write fails, or memory is refused.
fn read_next<R: Read, W: Write, C: Clock, P: Pace, S: Screen>(
    reader: &mut BufReader<R>,
    line: &mut Line,
    watcher: &mut Watcher,
    display: &mut Display<'_, C, P, S>,
    output: &mut W,
) -> Result<LineEnd, WatchFault>
    ensures gives { IfOk result (λ next. IfSome (reader_remaining R.remaining reader.old)
        (Gives next line.new.text.items (reader_remaining R.remaining reader.new))) }
    ensures same { display.old ≡ Lines → display.new ≡ Lines }
    ensures watcher { display.old ≡ Lines → watcher.new ≡ watcher.old }
    ensures kept { display.old ≡ Lines → Keeps (W.contents output.old) (W.contents output.new) }
{
    if memchr(b'\n', reader.buffer()).is_none() {
        display.before_read(watcher, output)?;
    }
    Ok(next_line(reader, &mut line.text)?)
}

/// Shows what was told of a line that is too long, and reads on to its end. `Err` where the read or a
/// write fails, or memory is refused.
fn skip_rest<R: Read, W: Write, C: Clock, P: Pace, S: Screen>(
    reader: &mut BufReader<R>,
    line: &mut Line,
    watcher: &mut Watcher,
    display: &mut Display<'_, C, P, S>,
    output: &mut W,
) -> Result<(), WatchFault>
    ensures { display.old ≡ Lines → display.new ≡ Lines }
{
    display.line(watcher, output)?;
    display.before_read(watcher, output)?;
    'parts: for _ in 0..MAX_LINES {
        match next_line(reader, &mut line.text)? {
            LineEnd::TooLong => {}
            _ => return Ok(()),
        }
    }
    Ok(())
}

/// Tells the end and the verdict, shows it, and returns the verdict. `Err` where memory is refused,
/// or a write or the flush fails.
fn end<W: Write, C: Clock, P: Pace, S: Screen>(
    mut watcher: Watcher,
    judge: Judge,
    line: &Line,
    display: &mut Display<'_, C, P, S>,
    output: &mut W,
) -> Result<Result<Whole, Finding>, WatchFault>
    ensures verdict { IfOk result (λ answer. (mode : mode_type) → (texts : List (List ℕ)) → HasJudged mode judge texts → verdict_of mode texts ≡ answer) }
    ensures told { IfOk result (λ answer. (mode : mode_type) → (texts : List (List ℕ)) → HasJudged mode judge texts
        → HasEnded mode texts watcher (display.old ≡ Lines) (W.contents output.old) (W.contents output.new) answer) }
{
    let verdict = judge.verdict(line)?;
    watcher.end(verdict.answer.is_ok());
    watcher.verdict(&verdict);
    display.end(&mut watcher, output)?;
    Ok(verdict.answer)
}
