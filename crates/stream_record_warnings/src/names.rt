//! Steps as messages name them.

ghost use Rattle.std.specs.Prelude.{◌≡◌, slice_get};
ghost use Rattle.std.specs.Option.{option_copied};
ghost use Rattle.stream_record_warnings.specs.Names.{deposed_words, kind_at, kind_word, step_words};
ghost use Rattle.term_words.specs.MessageTexts.{AppendsText};

use apply_model::StepKind;
use stream_record_steps::PlannedStep;
use term_words::MessageText;

/// Adds the name of a step, as `create of aws_instance.web`.
pub fn push_step(text: &mut MessageText, step: &PlannedStep<'_>)
    ensures { AppendsText text.old text.new (step_words step.now) }
{
    push_kind_at(text, step.kind(), step.change().address());
    push_deposed(text, step.change().deposed());
}

/// Adds a kind and an address, as `create of aws_instance.web`.
pub fn push_kind_at(text: &mut MessageText, kind: StepKind, address: &str)
    ensures { AppendsText text.old text.new (kind_at kind address.now) }
{
    text.text(kind_word(kind));
    text.text(" of ");
    text.escaped(address.as_bytes());
}

/// Adds the key of a deposed object, if there is one.
fn push_deposed(text: &mut MessageText, deposed: Option<&str>)
    ensures { AppendsText text.old text.new (deposed_words (option_copied deposed.entry)) }
{
    if let Some(key) = deposed {
        text.text(" (deposed ");
        text.escaped(key.as_bytes());
        text.text(")");
    }
}

/// The name of a kind.
fn kind_word(kind: StepKind) -> &'static str
    ensures { result.now ≡ kind_word kind }
{
    match kind {
        StepKind::Create => "create",
        StepKind::Update => "update",
        StepKind::Delete => "delete",
        StepKind::Read => "read",
    }
}

/// The step at a place of the plan, if there is one.
pub fn step_at<'s, 'p>(steps: &'s [PlannedStep<'p>], place: usize) -> Option<&'s PlannedStep<'p>>
    ensures { option_copied result ≡ slice_get steps.now place }
{
    steps.get(place)
}
