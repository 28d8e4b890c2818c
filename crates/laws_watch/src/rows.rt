//! Laws of rows. Each function does nothing; its contract is the law.

ghost use Rattle.std.specs.Prelude.{◌≡◌, ◌&&◌, ◌∷◌, [], List, false, ℕ};
ghost use Rattle.stream_watch.specs.Marks.{is_in_panel};
ghost use Rattle.stream_watch.specs.Printed.{line_bytes};
ghost use Rattle.stream_watch.specs.declared.looks.Looks.{Looks};
ghost use Rattle.stream_watch.specs.declared.mark.Mark.{Mark};
ghost use Rattle.laws_watch.specs.Rows.{AreRows, EndsLine, IsOneRow, Row, further, row_bytes, timed};

/// Can two rows share a line, or can a row be empty? No: each row ends its line, with a panel too,
/// unless the panel shows the row.
pub fn a_row_is_whole_lines()
    ensures timed { (looks : Looks) (elapsed : ℕ) (mark : Mark) (text : List ℕ)
        → (looks.has_panel && is_in_panel mark) ≡ false → EndsLine (row_bytes looks (timed elapsed mark text)) }
    ensures further { (looks : Looks) (mark : Mark) (text : List ℕ) → EndsLine (row_bytes looks (further mark text)) }
{}

/// Which rows are missing above a panel? Begins and what is under way. Each other row has the bytes
/// that it has without a panel.
pub fn a_panel_hides_begins_and_progress()
    ensures { (looks : Looks) (elapsed : ℕ) (mark : Mark) (text : List ℕ) → (looks.has_panel && is_in_panel mark) ≡ false
        → row_bytes looks (timed elapsed mark text) ≡ line_bytes looks.width looks.has_colour elapsed mark text }
{}

/// How do marks count rows? Rows without a mark are no rows. Rows with one mark are one row with a
/// time, and rows that belong to it.
pub fn marks_are_rows()
    ensures none { (elapsed : ℕ) (rows : List Row) → AreRows elapsed [] rows → rows ≡ [] }
    ensures one { (elapsed : ℕ) (mark : Mark) (rows : List Row) → AreRows elapsed (mark ∷ []) rows
        → IsOneRow elapsed mark rows }
{}
