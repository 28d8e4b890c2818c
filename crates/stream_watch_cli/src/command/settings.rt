//! The settings of the command.

ghost use Rattle.std.specs.Prelude.{◌≡◌, is_some, option_map, string_bytes};
ghost use Rattle.std.specs.Option.{option_copied};

use crate::command::when::When;
use stream_check::Mode;

/// The settings that the arguments of `watch` state.
#[derive(Drop)]
pub struct Settings {
    /// How the stream is read.
    pub mode: Mode,
    /// The greatest number of columns of a line.
    pub width: Option<usize>,
    /// When the lines have colours.
    pub colour: When,
    /// When a panel stands below the lines.
    pub panel: When,
    /// The file with the stream. Without a file, or with `-`, the stream is standard input.
    pub file: Option<String>,
}

impl Settings {
    /// The file with the stream, where one is named.
    pub(crate) fn file(&self) -> Option<&str>
        ensures text { option_copied result ≡ option_map string_bytes self.now.file }
        ensures named { is_some result ≡ is_some self.now.file }
    {
        match &self.file {
            Some(name) => Some(name.as_str()),
            None => None,
        }
    }
}
