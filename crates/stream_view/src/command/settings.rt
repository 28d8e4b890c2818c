//! The settings of the command line.

ghost use Rattle.std.specs.Prelude.{◌≡◌, option_map, string_bytes};
ghost use Rattle.std.specs.Option.{option_copied};

use crate::command::colour::Colour;
use crate::row_choice::RowChoice;
use stream_runs::RunChoice;

/// What is drawn.
#[derive(Clone, Copy, Debug, PartialEq, Eq)]
pub enum Form {
    /// A text, in lines of at most `width` columns.
    Text { width: u32, colour: Colour },
    /// An SVG.
    Svg,
    /// One JSON object, for programs.
    Json,
    /// Markdown, for the comment of a pull request.
    Markdown,
}

/// The settings that the arguments after `view` give.
#[derive(Debug, Drop)]
pub struct Settings {
    pub form: Form,
    /// Which steps get a row, and in which order.
    pub rows: RowChoice,
    /// Whether the lines are those of a log, in which the messages are found.
    pub find: bool,
    /// The run that is drawn, of several in the input. `None` draws the whole input.
    pub run: Option<RunChoice>,
    /// The file with the stream. `None`: standard input, which `-` names too.
    pub file: Option<String>,
}

impl Settings {
    /// The file with the stream, where one is named.
    pub(crate) fn file(&self) -> Option<&str>
        ensures { option_copied result ≡ option_map string_bytes self.now.file }
    {
        match &self.file {
            Some(name) => Some(name.as_str()),
            None => None,
        }
    }
}
