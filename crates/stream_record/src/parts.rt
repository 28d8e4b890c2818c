//! Parts of objects and lists.

ghost use Rattle.std.specs.Prelude.{◌≡◌};
ghost use Rattle.std.specs.Option.{option_copied};
ghost use Rattle.stream_record.specs.Parts.{closing, opening, raw_member, text_member};
ghost use Rattle.term_words.specs.MessageTexts.{AppendsText};

use apply_model::Text;
use term_words::MessageText;

/// Adds what stands before an item of a list: a comma if an item stands before it, or else `begin`.
pub fn push_opening(text: &mut MessageText, begin: &str, later: bool)
    ensures { AppendsText text.old text.new (opening begin.now later) }
{
    text.text(if later { "," } else { begin });
}

/// Adds what stands after the items of a list: nothing if there are none.
pub fn push_closing(text: &mut MessageText, end: &str, later: bool)
    ensures { AppendsText text.old text.new (closing end.now later) }
{
    text.text(if later { end } else { "" });
}

/// Adds a member that is a string, if there is one. `front` ends in the name and a colon.
pub fn push_text_member(text: &mut MessageText, front: &str, value: Option<&str>)
    ensures { AppendsText text.old text.new (text_member front.now (option_copied value.entry)) }
{
    if let Some(value) = value {
        text.text(front);
        text.json_string(value);
    }
}

/// Adds a member that is a JSON text, if there is one. `front` ends in the name and a colon.
pub fn push_raw_member(text: &mut MessageText, front: &str, json: Option<&str>)
    ensures { AppendsText text.old text.new (raw_member front.now (option_copied json.entry)) }
{
    if let Some(json) = json {
        text.text(front);
        text.text(json);
    }
}

/// The text, borrowed.
pub fn as_text(text: &Option<Text>) -> Option<&str>
    ensures { option_copied result ≡ text.now }
{
    text.as_ref().map(Text::as_str)
}
