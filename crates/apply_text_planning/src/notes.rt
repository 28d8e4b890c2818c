//! Diagnostics of a plan that is made in the run. Every `Err` means that memory was refused.

ghost use Rattle.std.specs.Prelude.{◌≡◌, ◌++◌, string_bytes, IfOk, OnOk};
ghost use Rattle.std.specs.Option.{option_copied};
ghost use Rattle.apply_text_planning.specs.Notes as notes;

use apply_model::{Change, ChangeDetails, Diag, Note, Plan, Severity, Text};
use std::alloc::{AllocError, Global};

/// Builds the warning that the plan covers a part of the configuration only.
pub fn targeting_note(alloc: Global) -> Result<Note, AllocError>
    ensures { IfOk result (λ note. note ≡ notes.targeting_note) }
{
    note_of_text(
        alloc,
        Severity::Warning,
        "Resource targeting is in effect",
        "You are creating a plan with the -target option, which means that the result of this plan may not represent all of the changes requested by the current configuration.\n\nThe -target option is not for routine use, and is provided only for exceptional situations such as recovering from errors or mistakes, or when Terraform specifically suggests to use it as part of an error message.",
    )
}

/// Builds the error of a plan that ended with an error which no other diagnostic states.
pub fn unfinished_note(alloc: Global) -> Result<Note, AllocError>
    ensures { IfOk result (λ note. note ≡ notes.unfinished_note) }
{
    note_of_text(
        alloc,
        Severity::Error,
        "The plan ended with an error",
        "The plan's JSON says that its making ended with an error, and not with which; a script can tell it.",
    )
}

/// Builds the warning that names the objects which Terraform stops tracking. `details` belong to
/// the plan's changes, in their order. A change without details is passed over. `None` when there
/// is no such object.
pub fn forgotten_note(
    alloc: Global,
    plan: &Plan,
    details: &[ChangeDetails],
) -> Result<Option<Note>, AllocError>
    ensures { IfOk result (λ note. note
        ≡ notes.forgotten_note_of (notes.forgotten_in plan.now.changes details.now)) }
{
    let mut lines = String::new(alloc);
    push_forgotten(&mut lines, plan, details)?;
    if lines.is_empty() {
        return Ok(None);
    }
    Ok(Some(note_of_lines(alloc, lines.as_str())?))
}

/// Appends a line for each object that Terraform stops tracking.
fn push_forgotten(
    lines: &mut String,
    plan: &Plan,
    details: &[ChangeDetails],
) -> Result<(), AllocError>
    ensures { OnOk result (string_bytes lines.new ≡ string_bytes lines.old
        ++ notes.forgotten_lines (notes.forgotten_in plan.now.changes details.now)) }
{
    for number in 0..plan.len() {
        push_if_forgotten(lines, plan.change(number), details.get(number as usize))?;
    }
    Ok(())
}

/// Appends the line of a change's object, if the details say that Terraform stops tracking it.
fn push_if_forgotten(
    lines: &mut String,
    change: &Change,
    details: Option<&ChangeDetails>,
) -> Result<(), AllocError>
    ensures { OnOk result (string_bytes lines.new ≡ string_bytes lines.old
        ++ notes.forgotten_lines (notes.forgotten_at change.now (option_copied details.entry))) }
{
    match details {
        Some(details) if details.forgets => {
            let address = change.address();
            write!(lines, " - {address}\n")
        }
        _ => Ok(()),
    }
}

/// Builds the warning around the lines of the objects.
fn note_of_lines(alloc: Global, lines: &str) -> Result<Note, AllocError>
    ensures { IfOk result (λ note. note ≡ notes.note_of_lines lines.now) }
{
    let mut detail = String::new(alloc);
    write!(
        detail,
        "If you apply this plan, Terraform will discard its tracking information for the following objects, but it will not delete them:\n{lines}\nAfter applying this plan, Terraform will no longer manage these objects. You will need to import them into Terraform to manage them again."
    )?;
    note_of_text(
        alloc,
        Severity::Warning,
        "Some objects will no longer be managed by Terraform",
        detail.as_str(),
    )
}

/// Builds a diagnostic without an address.
fn note_of_text(
    alloc: Global,
    severity: Severity,
    summary: &str,
    detail: &str,
) -> Result<Note, AllocError>
    ensures { IfOk result (λ note. note ≡ notes.note_of_text severity summary.now detail.now) }
{
    Ok(Note {
        severity,
        diag: Diag {
            summary: Text::new(alloc, summary)?,
            detail: Text::new(alloc, detail)?,
            range: None,
            snippet: None,
        },
        address: None,
    })
}
