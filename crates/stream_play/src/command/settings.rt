//! The settings of the command.

ghost use Rattle.std.specs.Prelude.{◌≡◌, is_some, option_map, string_bytes};
ghost use Rattle.std.specs.Option.{option_copied};

use crate::speed::Speed;
use stream_runs::RunChoice;

/// The settings that the arguments of `play` state.
#[derive(Debug, Drop)]
pub struct Settings {
    /// How many times as fast as the timestamps.
    pub speed: Speed,
    /// Whether the lines are those of a log. Then the messages that are found in them are played.
    pub find: bool,
    /// The run that is played, of several in the input. `None` plays the whole input.
    pub run: Option<RunChoice>,
    /// The file with the stream. Without a file, or with `-`, the stream is standard input.
    pub file: Option<String>,
}

impl Settings {
    /// The file with the stream, where one is named.
    pub(crate) fn file(&self) -> Option<&str>
        ensures text { option_copied result ≡ option_map string_bytes self.now.file }
        ensures named { is_some result ≡ is_some self.now.file }
    {
        match &self.file {
            Some(name) => Some(name.as_str()),
            None => None,
        }
    }
}
