//! Action lists of a change (JSON Output Format, "Change Representation").

ghost use Rattle.std.specs.Prelude.{◌≡◌, ◌<◌, Err, OnOk, Some, length, option_map};
ghost use Rattle.std.specs.Option.{option_copied};
ghost use Rattle.serde_json.specs.Data.{Data};
ghost use Rattle.apply_json.specs.Verbatim.{none_verbatim};
ghost use Rattle.apply_json.specs.Tokens.{IsNoValue, IsRead};
ghost use Rattle.apply_model.specs.Plan.Action.{steps_of_action};
ghost use Rattle.apply_plan.specs.Plan.Members.{actions_member};
ghost use Rattle.apply_plan.specs.Plan.Words.{says, steps_of_word, steps_of_words, steps_of_two, with_next_word, words_of, words_view};

use apply_json::{ArrayPresence, Collector, ReadFault, Reader, read_list, read_shallow};
use apply_model::Action;
use std::alloc::Global;

/// The words of an action list. `None` is an item that is not a text.
///
/// No valid list has more than two words, so further words are not stored.
#[derive(Clone, Copy, Drop)]
pub enum Actions<'a> {
    Nothing,
    One(Option<&'a str>),
    Two(Option<&'a str>, Option<&'a str>),
    More,
}

impl<'a> Actions<'a> {
    /// The list with `word` added at the end.
    fn and(self, word: Option<&'a str>) -> Actions<'a>
        ensures { words_view result ≡ with_next_word (words_view self.entry) (option_copied word.entry) }
    {
        match self {
            Actions::Nothing => Actions::One(word),
            Actions::One(first) => Actions::Two(first, word),
            Actions::Two(_, _) | Actions::More => Actions::More,
        }
    }

    /// The action. `None` means that the list is not one of the eight valid lists.
    fn action(self) -> Option<Action>
        ensures { option_map steps_of_action result ≡ steps_of_words (words_view self.entry) }
    {
        match self {
            Actions::One(word) => alone(word),
            Actions::Two(first, second) => together(first, second),
            Actions::Nothing | Actions::More => None,
        }
    }
}

impl<'a> Collector<'a> for Actions<'a> {
    ghost is_verbatim = { none_verbatim };

    ghost holds = { λ _ actions ds. words_view actions ≡ words_of ds };

    fn take(
        &mut self,
        _alloc: Global,
        reader: &mut Reader<'a>,
        depth: usize,
    ) -> Result<(), ReadFault> {
        let word = read_shallow(reader, depth)?.text();
        *self = self.and(word);
        Ok(())
    }
}

/// Reads an action list into its slot.
///
/// The slot becomes `None` for a value that is not an array, and `Some(None)` for an invalid list.
/// `Err` means that the text is not JSON.
pub fn read_actions(
    alloc: Global,
    reader: &mut Reader<'_>,
    depth: usize,
    slot: &mut Option<Option<Action>>,
) -> Result<(), ReadFault>
    ensures ok { OnOk result ((d : Data) × IsRead depth reader.old d reader.new
        × (option_map (option_map steps_of_action) slot.new ≡ actions_member (Some d))) }
    ensures shorter { OnOk result (length reader.new < length reader.old) }
    ensures err { result ≡ Err ReadFault.NotJson → IsNoValue depth reader.old }
{
    let mut actions = Actions::Nothing;
    *slot = match read_list(alloc, reader, depth, &mut actions)? {
        ArrayPresence::List => Some(actions.action()),
        ArrayPresence::Absent | ArrayPresence::Other => None,
    };
    Ok(())
}

/// Whether the item is the text `word`.
fn is_word(item: Option<&str>, word: &str) -> bool
    ensures { result ≡ says word.now (option_copied item.entry) }
{
    match item {
        Some(text) => text == word,
        None => false,
    }
}

fn alone(word: Option<&str>) -> Option<Action>
    ensures { option_map steps_of_action result ≡ steps_of_word (option_copied word.entry) }
{
    if is_word(word, "no-op") {
        Some(Action::NoOp)
    } else if is_word(word, "create") {
        Some(Action::Create)
    } else if is_word(word, "read") {
        Some(Action::Read)
    } else if is_word(word, "update") {
        Some(Action::Update)
    } else if is_word(word, "delete") {
        Some(Action::Delete)
    } else if is_word(word, "forget") {
        Some(Action::Forget)
    } else {
        None
    }
}

fn together(first: Option<&str>, second: Option<&str>) -> Option<Action>
    ensures { option_map steps_of_action result
        ≡ steps_of_two (option_copied first.entry) (option_copied second.entry) }
{
    if is_word(first, "delete") && is_word(second, "create") {
        Some(Action::DeleteThenCreate)
    } else if is_word(first, "create") && is_word(second, "delete") {
        Some(Action::CreateThenDelete)
    } else {
        None
    }
}
