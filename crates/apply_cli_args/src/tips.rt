//! Tips after an error of the parser.

use clap::error::ErrorKind;
use std::alloc::{AllocError, Global};
use strsim::osa_distance;

/// Printed after the error of a first argument that looks like a file, as the file of a plan.
const PLAN_TIP: &str =
    "\n  tip: a plan is read from standard input, as in: applystream < plan.json\n";

/// Printed after the error of an option with one dash, which Terraform would accept.
const DASH_TIP: &str =
    "\n  tip: options have two dashes here, as in: applystream --parallelism=10\n";

/// Printed after the error of a first argument that is like no command.
const COMMANDS_TIP: &str =
    "\n  tip: the commands are check, watch, view, play, record and validate, and applystream --help explains them\n";

/// The commands besides the main one.
static COMMANDS: [&str; 6] = ["check", "watch", "view", "play", "record", "validate"];

/// Adds the tip that follows the parser's error for an unknown argument. The kind of the error does
/// not show what sort of argument it was; only the text does. `Err` if memory is refused.
pub(crate) fn push_tip(
    alloc: Global,
    text: &mut String,
    kind: ErrorKind,
    words: &[String],
) -> Result<(), AllocError> {
    if kind != ErrorKind::UnknownArgument || text.starts_with("error: unexpected argument '--") {
        return Ok(());
    }
    if text.starts_with("error: unexpected argument '-") {
        return text.push_str(DASH_TIP);
    }
    match words.first() {
        Some(word) if may_be_command(word.as_str()) => push_command_tip(alloc, text, word.as_str()),
        _ => text.push_str(PLAN_TIP),
    }
}

/// Whether the word may stand for a command: it is neither an option nor like the name of a file.
fn may_be_command(word: &str) -> bool {
    !word.starts_with('-') && !word.contains('.') && !word.contains('/')
}

/// Adds the tip that names a similar command, or all commands if none is similar. `Err` if memory
/// is refused.
fn push_command_tip(alloc: Global, text: &mut String, word: &str) -> Result<(), AllocError> {
    match similar_command(alloc, word)? {
        Some(command) => write!(text, "\n  tip: a similar command exists: '{command}'\n"),
        None => text.push_str(COMMANDS_TIP),
    }
}

/// Returns the command that takes the fewest edits to come from the word, at most one for each three
/// of its letters. An edit inserts, deletes or replaces a letter, or swaps two. `None` if no command
/// takes so few. `Err` if memory is refused.
fn similar_command(alloc: Global, word: &str) -> Result<Option<&'static str>, AllocError> {
    let mut similar = None;
    let mut fewest = usize::MAX;
    for command in COMMANDS {
        let edits = osa_distance(alloc, word, command)?;
        if edits <= command.len() / 3 && edits < fewest {
            fewest = edits;
            similar = Some(command);
        }
    }
    Ok(similar)
}
