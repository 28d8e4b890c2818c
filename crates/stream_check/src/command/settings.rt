//! The settings of the command.

ghost use Rattle.std.specs.Prelude.{◌≡◌, is_some, option_map, string_bytes};
ghost use Rattle.std.specs.Option.{option_copied};

use crate::rules::mode::Mode;
use stream_runs::RunChoice;

/// The form of the verdict.
#[derive(Clone, Copy)]
pub enum Form {
    /// A line of text.
    Text,
    /// A line with a JSON object (RFC 8259).
    Json,
}

/// The settings that the arguments of `check` state.
#[derive(Drop)]
pub struct Settings {
    /// How the stream is read.
    pub mode: Mode,
    /// The run that is checked, of several in the input. `None` checks the whole input.
    pub run: Option<RunChoice>,
    /// The file for the messages of the input. `None` keeps none.
    pub write: Option<String>,
    /// The form of the verdict.
    pub form: Form,
    /// The file with the stream. Without a file, or with `-`, the stream is standard input.
    pub file: Option<String>,
}

impl Settings {
    /// The file with the stream, where one is named.
    pub(crate) fn file(&self) -> Option<&str>
        ensures text { option_copied result ≡ option_map string_bytes self.now.file }
        ensures named { is_some result ≡ is_some self.now.file }
    {
        match &self.file {
            Some(name) => Some(name.as_str()),
            None => None,
        }
    }
}
