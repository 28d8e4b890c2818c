//! The members of a diagnostic that are copied verbatim from the script: range and snippet. Every
//! `Err` means that memory was refused.

ghost use Rattle.std.specs.Prelude.{◌≡◌, ◌++◌, List, OnOk, ℕ};
ghost use Rattle.std.specs.Option.{option_copied};
ghost use Rattle.apply_text.specs.AppliedStep.{diag_view};
ghost use Rattle.apply_text_terraform.specs.Verbatim.{verbatim_member, verbatim_members, diagnostic_end};

use apply_text::parts::DiagTexts;
use std::alloc::AllocError;

/// The end of a message about a diagnostic, before escaping.
const DIAGNOSTIC_END: &str = "},\"type\":\"diagnostic\"}";

/// Inserts the range and the snippet after the other members of the diagnostic, if it has them.
/// `line` is the message without them. After an `Err` the line may be incomplete.
pub fn put_verbatim_members(line: &mut Vec<u8>, diag: DiagTexts<'_>) -> Result<(), AllocError>
    ensures { OnOk result ((front : List ℕ) → line.old.items ≡ front ++ diagnostic_end
        → line.new.items ≡ front ++ (verbatim_members (diag_view diag.entry) ++ diagnostic_end)) }
{
    line.truncate(line.len().saturating_sub(DIAGNOSTIC_END.len()));
    push_member(line, ",\"range\":", diag.range)?;
    push_member(line, ",\"snippet\":", diag.snippet)?;
    line.extend_from_slice(DIAGNOSTIC_END.as_bytes())
}

/// Appends a member whose value is JSON text. Nothing for `None`.
fn push_member(line: &mut Vec<u8>, name: &str, text: Option<&str>) -> Result<(), AllocError>
    ensures { OnOk result (line.new.items ≡ line.old.items ++ verbatim_member name.now (option_copied text.entry)) }
{
    match text {
        Some(text) => {
            line.extend_from_slice(name.as_bytes())?;
            line.extend_from_slice(text.as_bytes())
        }
        None => Ok(()),
    }
}
