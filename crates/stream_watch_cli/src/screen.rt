//! The screen on which a panel stands.

use crate::terminal::Terminal;
use stream_panel::Size;

/// The screen on which a panel stands. It may change its size at any time.
pub trait Screen {
    /// The size of the screen now.
    fn size(&self) -> Size;
}

/// A screen that keeps its size.
impl Screen for Terminal {
    fn size(&self) -> Size {
        self.size
    }
}
