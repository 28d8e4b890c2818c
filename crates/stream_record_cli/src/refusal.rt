//! Why no script was written, with the message that says it.

ghost use Rattle.std.specs.Prelude.{◌≡◌};
ghost use Rattle.stream_record_cli.specs.Causes.{as_record_fault, of_graph_fault, of_recording_fault, of_run_fault, of_script_fault, of_stream_fault};
ghost use Rattle.stream_record_cli.specs.declared.record_fault.RecordFault.TheVariants.{Memory};

use crate::graph_refusal::GraphRefusal;
use crate::record_fault::RecordFault;
use input_graph::GraphFault;
use std::alloc::{AllocError, AllocFailed};
use stream_record::ScriptFault;
use stream_record_script::RecordingFault;
use stream_record_stream::StreamFault;
use stream_runs::RunFault;
use stream_tool::WriteFault;
use term_words::MessageText;

/// Why no script was written, with the message that says it.
#[derive(Drop)]
pub struct Refusal {
    pub fault: RecordFault,
    /// The line of the message, where the fault alone does not say all: it names a step or a node.
    pub line: Option<MessageText>,
}

impl Refusal {
    /// A refusal that its fault says.
    pub fn of(fault: RecordFault) -> Refusal
        ensures { result.fault ≡ fault }
    {
        Refusal { fault, line: None }
    }
}

impl From<AllocError> for Refusal {
    ghost from_gives = { λ _ refusal. refusal.fault ≡ Memory };

    fn from(_refused: AllocError) -> Refusal {
        Refusal::of(RecordFault::Memory)
    }
}

impl<T: Drop> From<AllocFailed<T>> for Refusal {
    ghost from_gives = { λ _ refusal. refusal.fault ≡ Memory };

    fn from(_refused: AllocFailed<T>) -> Refusal {
        Refusal::of(RecordFault::Memory)
    }
}

impl From<GraphFault> for Refusal {
    ghost from_gives = { λ given refusal. refusal.fault ≡ of_graph_fault given };

    fn from(given: GraphFault) -> Refusal {
        Refusal::of(match given {
            GraphFault::TooLarge => RecordFault::Graph(GraphRefusal::TooLarge),
            GraphFault::NeitherNodeNorEdge { line } => RecordFault::Graph(GraphRefusal::Neither(
                line,
            )),
            GraphFault::NotOfPlan { line } => RecordFault::Graph(GraphRefusal::NotOfPlan(line)),
            GraphFault::NoGraph => RecordFault::Graph(GraphRefusal::NoGraph),
            GraphFault::NoNode => RecordFault::Graph(GraphRefusal::NoNode),
            GraphFault::Memory => RecordFault::Memory,
        })
    }
}

impl From<StreamFault> for Refusal {
    ghost from_gives = { λ given refusal. refusal.fault ≡ of_stream_fault given };

    fn from(given: StreamFault) -> Refusal {
        Refusal::of(match given {
            StreamFault::Memory => RecordFault::Memory,
            _ => RecordFault::Stream(given),
        })
    }
}

impl From<RunFault> for Refusal {
    ghost from_gives = { λ given refusal. refusal.fault ≡ of_run_fault given };

    fn from(given: RunFault) -> Refusal {
        Refusal::of(match given {
            RunFault::Missing(missing) => RecordFault::NoRun(missing),
            RunFault::TooLong(line) => RecordFault::Stream(StreamFault::TooLong(line)),
            RunFault::TooMany => RecordFault::Stream(StreamFault::TooMany),
            RunFault::Unread(failed) => RecordFault::Stream(StreamFault::Unread(failed)),
            RunFault::Memory => RecordFault::Memory,
        })
    }
}

impl From<ScriptFault> for Refusal {
    ghost from_gives = { λ given refusal. refusal.fault ≡ of_script_fault given };

    fn from(given: ScriptFault) -> Refusal {
        Refusal::of(match given {
            ScriptFault::TooLarge => RecordFault::TooLarge,
            ScriptFault::Memory => RecordFault::Memory,
        })
    }
}

impl From<RecordingFault> for Refusal {
    ghost from_gives = { λ given refusal. refusal.fault ≡ of_recording_fault given };

    fn from(given: RecordingFault) -> Refusal {
        Refusal::of(match given {
            RecordingFault::TooManyWaits => RecordFault::Graph(GraphRefusal::TooManyWaits),
            RecordingFault::TooLarge => RecordFault::TooLarge,
            RecordingFault::Memory => RecordFault::Memory,
        })
    }
}

impl From<WriteFault> for Refusal {
    ghost from_gives = { λ given refusal. refusal.fault ≡ as_record_fault given };

    fn from(given: WriteFault) -> Refusal {
        Refusal::of(RecordFault::from(given))
    }
}
