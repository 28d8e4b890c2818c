//! What the arguments of `record` state.

ghost use Rattle.std.specs.Prelude.{◌≡◌, max, option_map, string_bytes};
ghost use Rattle.std.specs.Option.{option_copied};
ghost use Rattle.stream_record_cli.specs.Chosen.{choice_of};

use crate::command::recording::StreamChoice;
use stream_record_script::Wishes;
use stream_runs::RunChoice;

/// What the arguments of `record` state.
#[derive(Debug, Drop)]
pub struct Settings {
    /// The name of the plan's file; `-` is standard input.
    pub plan: String,
    /// The name of the graph's file, if one is given; `-` is standard input.
    pub graph: Option<String>,
    /// Whether steps also wait so that they begin as in the stream.
    pub begins: bool,
    /// The number of lanes in which the script is to run, 1 to 64.
    pub lanes: u8,
    /// Whether the script is of the plan alone.
    pub only_plan: bool,
    /// Whether messages are sought in the lines of a log.
    pub find: bool,
    /// The run of the stream that is taken, if one is chosen.
    pub run: Option<RunChoice>,
    /// The file with the stream. `None` is standard input.
    pub file: Option<String>,
}

impl Settings {
    /// The name of the graph's file, if one is given.
    pub(crate) fn graph_name(&self) -> Option<&str>
        ensures { option_copied result ≡ option_map string_bytes self.now.graph }
    {
        match &self.graph {
            Some(name) => Some(name.as_str()),
            None => None,
        }
    }

    /// The name of the stream's file. `None` is standard input.
    pub(crate) fn file_name(&self) -> Option<&str>
        ensures { option_copied result ≡ option_map string_bytes self.now.file }
    {
        match &self.file {
            Some(name) => Some(name.as_str()),
            None => None,
        }
    }

    /// The name of the graph's file, or of the plan's.
    pub(crate) fn name_of(&self, is_graph: bool) -> &str {
        match self.graph_name() {
            Some(name) if is_graph => name,
            _ => self.plan.as_str(),
        }
    }

    /// Whether the stream is read from standard input.
    pub(crate) fn reads_stream_from_input(&self) -> bool {
        !self.only_plan && self.file.is_none()
    }

    /// How the stream is read, and the script made. There is at least one lane.
    pub(crate) fn choice(&self) -> StreamChoice
        ensures { result ≡ choice_of self.now }
    {
        StreamChoice {
            find: self.find,
            run: self.run,
            wishes: Wishes {
                begins: self.begins,
                lanes: self.lanes.max(1),
            },
        }
    }
}
