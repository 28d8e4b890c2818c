//! Why no script was written.

ghost use Rattle.std.specs.Prelude.{◌≡◌};
ghost use Rattle.stream_record_cli.specs.Causes.{as_record_fault};

use crate::graph_refusal::GraphRefusal;
use apply_plan::PlanError;
use input_files::InputFault;
use stream_record_stream::StreamFault;
use stream_runs::MissingRun;
use stream_tool::WriteFault;
use thiserror::Error;

/// Why no script was written.
#[derive(Clone, Copy, Debug, Drop, Error)]
pub enum RecordFault {
    /// An input could not be opened or read, or memory was refused for it. Nothing was written.
    #[error("an input could not be read")]
    Input(InputFault),
    /// A run refuses the plan. Nothing was written.
    #[error("{0}")]
    Plan(PlanError),
    /// The graph gives no waits for the plan. Nothing was written.
    #[error("{0}")]
    Graph(GraphRefusal),
    /// The stream is no stream of an apply of the plan, or could not be read. Nothing was written.
    #[error("{0}")]
    Stream(StreamFault),
    /// The input has no run of that number. Nothing was written.
    #[error("{0}")]
    NoRun(MissingRun),
    /// The script would have more than 67,108,864 bytes. Nothing was written.
    #[error("the script is larger than 67108864 bytes")]
    TooLarge,
    /// Memory was refused. Nothing was written.
    #[error("out of memory")]
    Memory,
    /// A write or a flush failed, because the reader of the output is gone.
    #[error("the output could not be written")]
    Gone,
    /// A write or a flush failed for another reason.
    #[error("the output could not be written")]
    Unwritten,
}

impl From<WriteFault> for RecordFault {
    ghost from_gives = { λ given fault. fault ≡ as_record_fault given };

    fn from(given: WriteFault) -> RecordFault {
        match given {
            WriteFault::Gone => RecordFault::Gone,
            WriteFault::Unwritten => RecordFault::Unwritten,
        }
    }
}
