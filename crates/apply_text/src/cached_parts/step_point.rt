//! The points of a step that have a message: start, completion, failure.

ghost use Rattle.std.specs.Prelude.{◌≡◌};
ghost use Rattle.apply_text.specs.HookLines as hook_lines;

use apply_model::StepKind;

/// A point of a step that has a message.
#[derive(Clone, Copy, Drop)]
pub enum StepPoint {
    /// The step starts.
    Start,
    /// The step completes.
    Complete,
    /// The step fails.
    Errored,
}

impl StepPoint {
    /// The part of the message between the address and the seconds.
    pub fn lead(self, step: StepKind) -> &'static str
        ensures { result.now ≡ hook_lines.lead_text self step }
    {
        match self {
            StepPoint::Start => start_lead(step),
            StepPoint::Complete => complete_lead(step),
            StepPoint::Errored => errored_lead(step),
        }
    }

    /// The type of the message.
    pub fn type_name(self) -> &'static str
        ensures { result.now ≡ hook_lines.point_type self }
    {
        match self {
            StepPoint::Start => "apply_start",
            StepPoint::Complete => "apply_complete",
            StepPoint::Errored => "apply_errored",
        }
    }
}

/// The message text of a start, after the address.
fn start_lead(step: StepKind) -> &'static str
    ensures { result.now ≡ hook_lines.lead_text StepPoint.Start step }
{
    match step {
        StepKind::Create => ": Creating...",
        StepKind::Update => ": Modifying...",
        StepKind::Delete => ": Destroying...",
        StepKind::Read => ": Refreshing...",
    }
}

/// The message text of a completion, between the address and the seconds.
fn complete_lead(step: StepKind) -> &'static str
    ensures { result.now ≡ hook_lines.lead_text StepPoint.Complete step }
{
    match step {
        StepKind::Create => ": Creation complete after ",
        StepKind::Update => ": Modifications complete after ",
        StepKind::Delete => ": Destruction complete after ",
        StepKind::Read => ": Refresh complete after ",
    }
}

/// The message text of a failure, between the address and the seconds.
fn errored_lead(step: StepKind) -> &'static str
    ensures { result.now ≡ hook_lines.lead_text StepPoint.Errored step }
{
    match step {
        StepKind::Create => ": Creation errored after ",
        StepKind::Update => ": Modifications errored after ",
        StepKind::Delete => ": Destruction errored after ",
        StepKind::Read => ": Refresh errored after ",
    }
}
