//! The stages of a step.

ghost use Rattle.std.specs.Prelude.{◌≡◌};
ghost use Rattle.stream_check.specs.Message.{timed_stage_of};

use stream_message::Stage;

/// A stage of a step, with the seconds since its start.
#[derive(Clone, Copy)]
pub enum TimedStage {
    Start,
    Progress(u64),
    Complete(u64),
    Errored(u64),
}

impl TimedStage {
    /// The stage with its seconds. A start has none.
    pub fn of(stage: Stage, seconds: u64) -> TimedStage
        ensures { result ≡ timed_stage_of stage seconds }
    {
        match stage {
            Stage::Start => TimedStage::Start,
            Stage::Progress => TimedStage::Progress(seconds),
            Stage::Complete => TimedStage::Complete(seconds),
            Stage::Errored => TimedStage::Errored(seconds),
        }
    }
}
