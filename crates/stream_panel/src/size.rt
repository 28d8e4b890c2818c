//! The size of a terminal.

ghost use Rattle.std.specs.Prelude.{◌≡◌};
ghost use Rattle.stream_panel.specs.Sizes.{has_room, most_lines};

/// The least size with room for a panel.
const LEAST_COLUMNS: usize = 40;

const LEAST_ROWS: usize = 8;

/// The size of a terminal, in characters.
#[derive(Clone, Copy, Debug, PartialEq, Eq)]
pub struct Size {
    pub columns: usize,
    pub rows: usize,
}

/// Whether a terminal has room for a panel: 40 columns and 8 rows at least.
pub fn has_room(size: Size) -> bool
    ensures { result ≡ has_room size }
{
    size.columns >= LEAST_COLUMNS && size.rows >= LEAST_ROWS
}

/// How many lines a panel has at most: half the rows of the terminal, but 3 to 12.
pub(crate) fn most_lines(size: Size) -> usize
    ensures { result ≡ most_lines size }
{
    (size.rows / 2).min(12).max(3)
}
