//! Adds the members of JSON objects to a text (RFC 8259).

ghost use Rattle.std.specs.Prelude.{option_map};
ghost use Rattle.serde_json.specs.Data.{boolean, null, string};
ghost use Rattle.stream_view.specs.Json.{count_data, named, number_data, version_data};
ghost use Rattle.term_words.specs.MessageTexts.{AppendsText};

use term_words::MessageText;

/// Adds the text `before`, and a number.
pub fn push_number(text: &mut MessageText, before: &str, number: u128)
    ensures { AppendsText text.old text.new (named before.now (number_data number)) }
{
    text.text(before);
    text.wide_number(number);
}

/// Adds the text `before`, and a number, or `null` without one.
pub fn push_count(text: &mut MessageText, before: &str, count: Option<u64>)
    ensures { AppendsText text.old text.new (named before.now (count_data count)) }
{
    match count {
        Some(count) => push_number(text, before, count as u128),
        None => push_null(text, before),
    }
}

/// Adds the text `before`, and `null`.
pub fn push_null(text: &mut MessageText, before: &str)
    ensures { AppendsText text.old text.new (named before.now null) }
{
    text.text(before);
    text.text("null");
}

/// Adds the text `before`, and `true` or `false`.
pub fn push_flag(text: &mut MessageText, before: &str, flag: bool)
    ensures { AppendsText text.old text.new (named before.now (boolean flag)) }
{
    text.text(before);
    text.text(if flag { "true" } else { "false" });
}

/// Adds the text `before`, and a string.
pub fn push_string(text: &mut MessageText, before: &str, value: &str)
    ensures { AppendsText text.old text.new (named before.now (string value.now)) }
{
    text.text(before);
    text.json_string(value);
}

/// Adds the text `before`, and a string, or `null` without one.
pub fn push_optional(text: &mut MessageText, before: &str, value: Option<&str>)
    ensures { AppendsText text.old text.new (named before.now (version_data (option_map (λ text. text.now) value.entry))) }
{
    match value {
        Some(value) => push_string(text, before, value),
        None => push_null(text, before),
    }
}
