//! Fits texts to columns.

ghost use Rattle.std.specs.Prelude.{◌≡◌, IfOk};
ghost use Rattle.term_text.specs.Fitting.{fitted};
ghost use Rattle.term_text.specs.Fitted.{shown_characters};

use std::alloc::{AllocError, Global};
use term_text::{ShownText, fitted};

/// The bytes as they are shown, fitted to `columns` columns. `Err` means that memory was refused.
pub fn shown_within(alloc: Global, bytes: &[u8], columns: usize) -> Result<ShownText, AllocError>
    ensures { IfOk result (λ text. text ≡ fitted columns (shown_characters bytes.now)) }
{
    let text = ShownText::of(alloc, bytes)?;
    fitted(alloc, &text, columns)
}
