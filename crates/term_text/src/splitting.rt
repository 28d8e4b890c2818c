//! Texts of several lines. Each `Err` means that memory was refused.

ghost use Rattle.std.specs.Prelude.{◌≡◌, IfOk, OnOk, map, string_bytes};
ghost use Rattle.term_text.specs.LineTexts.{text_lines, with_line, without_empty_end};

use crate::line::line_text;
use std::alloc::{AllocError, Global};

/// Returns the lines of a text that a program wrote for a terminal, cut at line feeds (see
/// [`line_text`](crate::line_text)). Empty lines before the first that is not empty, and after the
/// last one, are left out.
pub fn text_lines(alloc: Global, bytes: &[u8]) -> Result<Vec<String>, AllocError>
    ensures { IfOk result (λ lines. map string_bytes lines.items ≡ text_lines bytes.now) }
{
    let mut lines = Vec::new(alloc);
    for line in bytes.split(|byte| *byte == b'\n') {
        push_line(&mut lines, line_text(alloc, line)?)?;
    }
    drop_empty_end(&mut lines);
    Ok(lines)
}

/// Adds a line, unless it is empty and would be the first.
fn push_line(lines: &mut Vec<String>, line: String) -> Result<(), AllocError>
    ensures { OnOk result (map string_bytes lines.new.items ≡ with_line (map string_bytes lines.old.items) (string_bytes line)) }
{
    if lines.is_empty() && line.is_empty() {
        return Ok(());
    }
    lines.push(line)?;
    Ok(())
}

/// Drops the empty lines after the last that is not empty.
fn drop_empty_end(lines: &mut Vec<String>)
    ensures { map string_bytes lines.new.items ≡ without_empty_end (map string_bytes lines.old.items) }
{
    let mut len = lines.len();
    'back: while len > 0 && lines[len - 1].is_empty() {
        len -= 1;
    }
    lines.truncate(len);
}
