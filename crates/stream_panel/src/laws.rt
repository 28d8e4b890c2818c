//! Laws of panels and frames. Each function does nothing; its contract is the law.

ghost use Rattle.std.specs.Prelude.{ℕ, List, ◌≡◌, ◌≤◌, ◌<◌, ◌+◌, ◌/◌, ◌++◌, All, length, map};
ghost use Rattle.std.specs.List.{flat_map};
ghost use Rattle.stream_panel.specs.Canvases.{width_in};
ghost use Rattle.stream_panel.specs.Frames.{frame_bytes, line_rows, rows_taken};
ghost use Rattle.stream_panel.specs.Panel.{panel_lines};
ghost use Rattle.stream_panel.specs.Sizes.{line_columns, most_lines};
ghost use Rattle.stream_panel.specs.Status.{left_of};
ghost use Rattle.stream_panel.specs.Stretches.{Stretch, columns_in};
ghost use Rattle.stream_panel.specs.Terminal.{after_all, broken_row, cells_of, command_bytes, frame_commands, lines_bytes, rows_of, standing_rows};

/// A panel has one line at least, and at most as many as its terminal allows. In a terminal of six
/// rows or more, these are at most half of the rows.
pub fn a_panel_has_few_lines()
    ensures some { (view : _) (state : _) → 1 ≤ length (panel_lines view state) }
    ensures few { (view : _) (state : _) → length (panel_lines view state) ≤ most_lines view.size }
    ensures half { (size : _) → 6 ≤ size.rows → most_lines size ≤ size.rows / 2 }
{}

/// No line of a panel has more columns than a line may have, where that is 30 or more. In a terminal
/// with room for a panel it is 39 or more, unless the arguments allow fewer columns. So the widths
/// of lines are known as they are.
pub fn no_line_is_too_wide()
    ensures fits { (view : _) (state : _) → 30 ≤ line_columns view
        → All (λ line. columns_in line ≤ line_columns view) (panel_lines view state) }
    ensures known { (view : _) (state : _) → 30 ≤ line_columns view
        → map width_in (panel_lines view state) ≡ map columns_in (panel_lines view state) }
{}

/// Changes that ended, that run and that are left are all that are planned, or more.
pub fn nothing_planned_is_forgotten()
    ensures { (counts : _) (running : ℕ)
        → counts.planned ≤ counts.done + counts.failed + running + left_of counts running }
{}

/// A terminal that breaks a row into rows leaves out no cell and adds none, gives no row more cells
/// than it has columns, and takes as many rows as a frame goes up for the row.
pub fn a_broken_row_stays_whole()
    ensures whole { (columns : ℕ) (cells : List ℕ) → 0 < columns → flat_map (λ row. row) (broken_row columns cells) ≡ cells }
    ensures within { (columns : ℕ) (cells : List ℕ) → All (λ row. length row ≤ columns) (broken_row columns cells) }
    ensures count { (columns : ℕ) (cells : List ℕ) → length (broken_row columns cells) ≡ line_rows columns (length cells) }
    ensures line { (line : List Stretch) → length (cells_of line) ≡ columns_in line }
{}

/// A frame tells the terminal to go up, to erase what stands below, and to write lines. Where the
/// cursor stands below a panel, it stands below the new panel afterwards. Above that panel stand the
/// rows that stood above the old one, and then the told lines. So it is at each number of columns
/// that the terminal has by then, also where it has broken the lines of the old panel.
pub fn a_frame_replaces_the_panel()
    ensures bytes { (standing : ℕ) (told panel : List (List ℕ))
        → frame_bytes standing (lines_bytes told) (lines_bytes panel) ≡ flat_map command_bytes (frame_commands standing told panel) }
    ensures rows { (columns : ℕ) (before told panel : List (List ℕ)) (standing : List (List Stretch))
        → after_all (frame_commands (rows_taken columns (map columns_in standing)) told panel) (rows_of (before ++ standing_rows columns standing))
        ≡ rows_of (before ++ told ++ panel) }
{}
