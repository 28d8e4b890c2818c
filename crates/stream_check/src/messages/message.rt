//! Messages as they stand in their lines.

ghost use Rattle.std.specs.Prelude.{◌≡◌};
ghost use Rattle.stream_check.specs.Message.{step_or_other, summary_named};

use crate::messages::action::Action;
use crate::messages::intent::Intent;
use crate::messages::timed_stage::TimedStage;
use crate::messages::totals::Totals;
use apply_json::is_text;
use stream_message::Stage;

/// A message that borrows its texts from its line, or from the scratch of the reader.
#[derive(Clone, Copy)]
pub enum Message<'a> {
    Version,
    Step {
        address: &'a str,
        action: Action,
        stage: TimedStage,
    },
    Provision {
        address: &'a str,
        stage: Stage,
    },
    /// A planned change, with the address of its object.
    Planned {
        intent: Intent,
        address: Option<&'a str>,
    },
    PlanSummary {
        totals: Totals,
    },
    Summary {
        totals: Totals,
    },
    Diagnostic {
        is_error: bool,
        address: Option<&'a str>,
    },
    Outputs,
    Other,
    /// A line of a log that holds no message.
    Foreign,
}

/// The address and the action word of a step.
#[derive(Clone, Copy)]
pub struct Subject<'a> {
    pub address: &'a str,
    pub word: &'a str,
}

impl<'a> Message<'a> {
    ghost use Rattle.stream_check.specs.MessageView.{message_view};

    /// The message about a step. A message with an unknown action is `Other`.
    pub fn of_step(subject: Subject<'a>, stage: TimedStage) -> Message<'a>
        ensures { message_view result ≡ step_or_other (subject.entry.address.now, subject.entry.word.now) stage }
    {
        match Action::named(subject.word) {
            Some(action) => Message::Step {
                address: subject.address,
                action,
                stage,
            },
            None => Message::Other,
        }
    }

    /// The summary of an operation. The summary of an unknown operation is `Other`.
    pub fn of_totals(operation: &str, totals: Totals) -> Message<'a>
        ensures { message_view result ≡ summary_named operation.now totals }
    {
        if is_text(operation, "apply") || is_text(operation, "destroy") {
            Message::Summary { totals }
        } else if is_text(operation, "plan") {
            Message::PlanSummary { totals }
        } else {
            Message::Other
        }
    }
}
