//! What is known of the terminal.

use stream_panel::Size;

/// What is known of the terminal that standard output may be.
#[derive(Clone, Copy, Debug, PartialEq, Eq)]
pub struct Terminal {
    /// Whether it should show colours where the arguments leave that open.
    pub is_colour_wanted: bool,
    /// Whether it should show a panel where the arguments leave that open.
    pub is_panel_wanted: bool,
    pub size: Size,
}
