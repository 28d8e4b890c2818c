//! A tip for options that have one dash, as Terraform's have.

use crate::tool::Tool;
use clap::Command;
use std::alloc::{AllocError, Global};
use term_text::escape_controls;

/// Returns the text of a refusal, with a tip after it if an option of several letters has one dash.
/// The tip shows that option with two dashes, or `--help` if the tool has no such option. `Err`
/// where memory is refused.
pub(crate) fn with_dash_tip<T: Tool>(
    alloc: Global,
    mut text: String,
    words: &[String],
) -> Result<String, AllocError> {
    let Some(option) = dashed_once(text.as_str(), words) else {
        return Ok(text);
    };
    let command = T::command(alloc)?;
    let shown = escape_controls(alloc, option.as_bytes())?;
    let example = if has_option(&command, option) {
        shown.as_str()
    } else {
        "help"
    };
    let tool = command.get_name();
    write!(
        text,
        "\n  tip: options have two dashes here, as in: {tool} --{example}\n"
    )?;
    Ok(text)
}

/// Returns the option of several letters that is refused because it has one dash, without the dash.
/// The parser reads the words in their order, so the first word with one dash is refused.
fn dashed_once<'a>(text: &str, words: &'a [String]) -> Option<&'a str> {
    let refused = text.strip_prefix("error: unexpected argument '-")?;
    if refused.starts_with('-') {
        return None;
    }
    for word in words {
        if let Some(option) = word.strip_prefix("-") {
            if !option.starts_with('-') {
                return (option.len() > 1).then_some(option);
            }
        }
    }
    None
}

/// Whether the command has the option. A value may follow the option's name, after `=`.
fn has_option(command: &Command<'_>, option: &str) -> bool {
    let name = match option.split_once('=') {
        Some((name, _)) => name,
        None => option,
    };
    for argument in command.get_arguments() {
        if argument.get_long() == Some(name) {
            return true;
        }
    }
    false
}
