//! A text that a provisioner prints.

use crate::text::Text;

/// A text that a provisioner prints, and when.
#[derive(Debug, Drop)]
pub struct TimedText {
    /// When the text comes, in seconds after the provisioner began. In a script it comes no sooner
    /// than the text before it, and no later than the provisioner's end.
    pub after: u32,
    /// The text. It may be empty.
    pub text: Text,
}
