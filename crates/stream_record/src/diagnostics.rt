//! Diagnostics of a script.

ghost use Rattle.std.specs.Prelude.{◌≡◌, None};
ghost use Rattle.std.specs.Option.{option_copied};
ghost use Rattle.stream_record.specs.ScriptText.{detail_text, diag_member, diag_text, note_text, notes_text, severity_front};
ghost use Rattle.term_words.specs.MessageTexts.{AppendsText};

use crate::parts::{as_text, push_closing, push_opening, push_raw_member, push_text_member};
use apply_model::{Diag, Note, Severity};
use term_words::MessageText;

/// Adds the diagnostics of no step, if there are some.
pub fn push_notes(text: &mut MessageText, notes: &[Note])
    ensures { AppendsText text.old text.new (notes_text notes.now) }
{
    let mut later = false;
    for note in notes {
        push_opening(text, ",\"diagnostics\":[", later);
        push_note(text, note);
        later = true;
    }
    push_closing(text, "]", later);
}

/// Adds a diagnostic of no step.
fn push_note(text: &mut MessageText, note: &Note)
    ensures { AppendsText text.old text.new (note_text note.now) }
{
    push_diag(
        text,
        severity_front(note.severity),
        note.address(),
        &note.diag,
    );
}

/// What stands before the summary of a diagnostic of no step.
fn severity_front(severity: Severity) -> &'static str
    ensures { result.now ≡ severity_front severity }
{
    match severity {
        Severity::Error => "{\"severity\":\"error\",",
        Severity::Warning => "{\"severity\":\"warning\",",
    }
}

/// Adds a diagnostic of a step or a provisioner, if there is one.
pub fn push_diag_member(text: &mut MessageText, front: &str, diag: Option<&Diag>)
    ensures { AppendsText text.old text.new (diag_member front.now (option_copied diag.entry)) }
{
    if let Some(diag) = diag {
        push_diag(text, front, None, diag);
    }
}

/// Adds a diagnostic. `front` is what stands before its summary.
pub fn push_diag(text: &mut MessageText, front: &str, address: Option<&str>, diag: &Diag)
    ensures { AppendsText text.old text.new (diag_text front.now (option_copied address.entry) diag.now) }
{
    text.text(front);
    text.text("\"summary\":");
    text.json_string(diag.summary.as_str());
    push_detail(text, diag.detail.as_str());
    push_text_member(text, ",\"address\":", address);
    push_raw_member(text, ",\"range\":", as_text(&diag.range));
    push_raw_member(text, ",\"snippet\":", as_text(&diag.snippet));
    text.text("}");
}

/// Adds the detail of a diagnostic, unless it is empty.
fn push_detail(text: &mut MessageText, detail: &str)
    ensures { AppendsText text.old text.new (detail_text detail.now) }
{
    if !detail.is_empty() {
        text.text(",\"detail\":");
        text.json_string(detail);
    }
}
