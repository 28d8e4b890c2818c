//! How the lines look.

/// How the lines look.
#[derive(Clone, Copy, Debug, PartialEq, Eq)]
pub struct Looks {
    /// The greatest number of columns of a line, 60 to 400. `None` breaks no line.
    pub width: Option<usize>,
    /// Whether the lines have the sequences of colours.
    pub has_colour: bool,
    /// Whether a panel below the lines shows what is under way. Begins and steps under way are then
    /// not told.
    pub has_panel: bool,
}
