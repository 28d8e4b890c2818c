//! The options of a run that `validate` takes too, as words to type.

use crate::job::Job;
use apply_text_terraform::{Command, Form};
use std::alloc::{AllocError, Global};
use term_text::escape_controls;

/// Returns the options of a run that `validate` takes too, as words with a blank before each.
/// Defaults have none, and neither has the form that a command implies. `Err` if memory is refused.
pub(crate) fn shared_words(
    alloc: Global,
    job: &Job<'_, '_>,
    parallelism: Option<u8>,
) -> Result<String, AllocError> {
    let mut words = String::new(alloc);
    if let Some(script) = &job.settings.script {
        words.push_str(" --script ")?;
        push_shell_word(alloc, &mut words, script.as_str())?;
    }
    if let Some(lanes) = parallelism {
        write!(words, " --parallelism {lanes}")?;
    }
    words.push_str(command_words(job))?;
    if job.command != Command::Saved && !job.refresh {
        words.push_str(" --refresh false")?;
    }
    Ok(words)
}

/// Returns the words for the command, with a blank before each. For a saved plan, these are the
/// words for its form.
fn command_words(job: &Job<'_, '_>) -> &'static str {
    match job.command {
        Command::Saved => match job.form {
            Form::Applystream => "",
            Form::Terraform => " --form terraform",
        },
        Command::Plan => " --command plan",
        Command::Apply => " --command apply",
        Command::Destroy => " --command destroy",
    }
}

/// Adds the name as a word of a shell, with control characters escaped. It stands in single quotes
/// if it has a character that a shell may read otherwise. `Err` if memory is refused.
fn push_shell_word(alloc: Global, words: &mut String, name: &str) -> Result<(), AllocError> {
    let shown = escape_controls(alloc, name.as_bytes())?;
    let shown = shown.as_str();
    if shown.chars().all(is_plain) {
        return words.push_str(shown);
    }
    words.push_str("'")?;
    for character in shown.chars() {
        if character == '\'' {
            // A quote ends the quoted text, stands escaped outside of it, and begins it again.
            words.push_str("'\\''")?;
        } else {
            words.push(character)?;
        }
    }
    words.push_str("'")
}

/// Whether each shell reads the character as itself.
fn is_plain(character: char) -> bool {
    character.is_ascii_alphanumeric() || "._-/+:@%,".contains(character)
}
