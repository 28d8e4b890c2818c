//! Words that several rows share.

ghost use Rattle.std.specs.Prelude.{◌≡◌, ◌++◌, [], codes, if◌then◌else◌};
ghost use Rattle.apply_json.specs.Tree.{is_empty};
ghost use Rattle.stream_watch.specs.Steps.{step_view};
ghost use Rattle.stream_watch.specs.Words.{length_since, length_words, provisioner_words, step_words, with_part};
ghost use Rattle.term_words.specs.MessageTexts.{AppendsText, HasText};
ghost use Rattle.term_words.specs.Words.{grouped};

use crate::clock::gap;
use crate::steps::OpenStep;
use term_words::MessageText;

/// Adds an action and an address.
pub fn push_step(text: &mut MessageText, action: &str, address: &str)
    ensures { AppendsText text.old text.new (step_words action.now address.now) }
{
    text.escaped(action.as_bytes());
    text.text(" ");
    text.escaped(address.as_bytes());
}

/// Adds a duration of so many microseconds after a word, where it is known.
pub fn push_length(text: &mut MessageText, word: &str, length: Option<u128>)
    ensures { AppendsText text.old text.new (length_words word.now length) }
{
    if let Some(length) = length {
        text.text(word);
        text.duration(length);
    }
}

/// Returns a length of 128 bits.
pub fn widened(length: Option<u64>) -> Option<u128>
    ensures { result ≡ length }
{
    match length {
        Some(length) => Some(u128::from(length)),
        None => None,
    }
}

/// Returns how long after a begin the moment comes, in microseconds. `None` where the begin is not
/// known.
pub fn length_since(begin: Option<i64>, moment: i64) -> Option<u128>
    ensures { result ≡ length_since begin moment }
{
    match begin {
        Some(begin) => Some(u128::from(gap(begin, moment))),
        None => None,
    }
}

/// Adds a comma between two parts, unless the text is empty.
pub fn push_comma(text: &mut MessageText)
    ensures { (before : _) → HasText text.old before → HasText text.new (if is_empty before then [] else before ++ codes ", ") }
{
    if !text.as_bytes().is_empty() {
        text.text(", ");
    }
}

/// Adds a further part: a count and its words, behind a comma unless it is the first.
pub fn push_part(text: &mut MessageText, count: u64, words: &str)
    ensures { (before : _) → HasText text.old before → HasText text.new (with_part (grouped count ++ words.now) before) }
{
    push_comma(text);
    text.count(count);
    text.text(words);
}

/// Adds the provisioner that runs in the step.
#[tactic(auto, unfolding(crate::specs::Words::provisioner_words))]
pub fn push_provisioner_of(text: &mut MessageText, step: &OpenStep)
    ensures { AppendsText text.old text.new (provisioner_words (step_view step.now).provisioner) }
{
    if let Some(provisioner) = &step.provisioner {
        text.text(" (");
        text.escaped(provisioner.name.as_str().as_bytes());
        text.text(")");
    }
}
