//! What is written to a terminal at once.

ghost use Rattle.std.specs.Prelude.{◌≡◌, min};
ghost use Rattle.term_words.specs.MessageTexts.{AppendsText, HasText};
ghost use Rattle.stream_panel.specs.Frames.{between_modes, frame_bytes, line_rows, rows_taken, rows_up, unbroken_bytes, up_bytes};

use term_words::MessageText;

/// Adds a frame: the told lines in place of the panel that stands, and the lines of a new panel
/// below them.
///
/// The cursor stands below the panel that stands, at the start of a line, before the frame and after
/// it. `standing` has how many columns each line of that panel has, and `columns` is how many the
/// terminal has now: if they are fewer than when the panel was written, it has broken lines. `told`
/// is empty or ends with a line feed, and so does `panel`. An empty `panel` is none.
#[tactic(auto, unfolding(crate::specs::Frames::frame_bytes))]
pub fn push_frame(
    out: &mut MessageText,
    columns: usize,
    standing: &[usize],
    told: &[u8],
    panel: &MessageText,
)
    ensures { (lines : _) → HasText panel.now lines → AppendsText out.old out.new (frame_bytes (rows_up columns standing.now) told.now lines) }
{
    out.text("\r");
    push_up(out, rows_taken(columns, standing));
    out.text("\u{1b}[J");
    out.bytes(told);
    push_unbroken(out, panel);
}

/// Returns how many rows lines take in a terminal of so many columns, which breaks a line that has
/// more. `widths` has how many columns each line has. The result is at most `usize::MAX`.
pub fn rows_taken(columns: usize, widths: &[usize]) -> usize
    ensures { result ≡ min (rows_taken columns widths.now) usize.MAX }
{
    let mut rows: usize = 0;
    for width in widths {
        rows = rows.saturating_add(line_rows(columns, *width));
    }
    rows
}

/// Returns how many rows a line takes in a terminal of so many columns. Each line takes a row.
#[tactic(auto, unfolding(crate::specs::Frames::line_rows))]
fn line_rows(columns: usize, width: usize) -> usize
    ensures { result ≡ line_rows columns width }
{
    width.div_ceil(columns.max(1)).max(1)
}

/// Adds what moves the cursor up so many rows.
fn push_up(out: &mut MessageText, rows: usize)
    ensures { AppendsText out.old out.new (up_bytes rows) }
{
    if rows > 0 {
        out.text("\u{1b}[");
        out.number(rows as u64);
        out.text("A");
    }
}

/// Adds lines that the terminal does not break where they are too wide.
fn push_unbroken(out: &mut MessageText, lines: &MessageText)
    ensures { (bytes : _) → HasText lines.now bytes → AppendsText out.old out.new (unbroken_bytes bytes) }
{
    if !lines.is_whole() {
        out.lose();
    } else if !lines.as_bytes().is_empty() {
        push_between_modes(out, lines);
    }
}

/// Adds lines, and around them what ends and starts the breaking of lines.
fn push_between_modes(out: &mut MessageText, lines: &MessageText)
    ensures { (bytes : _) → HasText lines.now bytes → AppendsText out.old out.new (between_modes bytes) }
{
    out.text("\u{1b}[?7l");
    out.add(lines);
    out.text("\u{1b}[?7h");
}
