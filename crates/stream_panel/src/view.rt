//! How a panel looks, and how long nothing was read.

ghost use Rattle.std.specs.Prelude.{◌≡◌};
ghost use Rattle.stream_panel.specs.Sizes.{age, line_columns};

use crate::size::Size;
use stream_watch::gap;

/// The columns of the widest panel, and one that stays free.
const MOST_COLUMNS: usize = 120;

/// How a panel looks, and how long nothing was read.
#[derive(Clone, Copy, Debug, PartialEq, Eq)]
pub struct View {
    /// The size of the terminal.
    pub size: Size,
    /// The greatest number of columns that the arguments allow, where they name one.
    pub width: Option<usize>,
    /// Whether the lines have the sequences of colours.
    pub has_colour: bool,
    /// How many microseconds ago the last message with a timestamp was read. Before the first one,
    /// how many microseconds ago the tool started.
    pub since: u64,
    /// Whether no line was read yet.
    pub is_waiting: bool,
}

impl View {
    /// How many columns a line of the panel has at most. One column stays free of those of the
    /// terminal, of those that the arguments allow, and of 120.
    pub fn line_columns(self) -> usize
        ensures { result ≡ line_columns self }
    {
        let columns = self.size.columns.min(MOST_COLUMNS);
        match self.width {
            Some(width) => width.min(columns).saturating_sub(1),
            None => columns.saturating_sub(1),
        }
    }

    /// How many microseconds ago the timestamp `begin` was, where `now` is the greatest so far.
    pub(crate) fn age(self, begin: i64, now: i64) -> u64
        ensures { result ≡ age self.since begin now }
    {
        gap(begin, now).saturating_add(self.since)
    }
}
