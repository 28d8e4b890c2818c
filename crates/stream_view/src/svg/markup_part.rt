//! The parts that the SVG is made of.

ghost use Rattle.std.specs.Prelude.{◌≡◌, ◌++◌, OnOk, string_bytes};
ghost use Rattle.stream_view.specs.Markup.{markup_part_bytes, tenths};

use crate::svg::fragment::Fragment;
use std::alloc::AllocError;
use term_text::push_markup_escaped;

/// A part of the SVG.
#[derive(Clone, Copy)]
pub enum MarkupPart {
    /// A fixed text.
    Fixed(Fragment),
    /// A whole number.
    Number(u64),
    /// A number of tenths, written with at most one decimal.
    Tenths(u64),
    /// A character of a text, which is escaped.
    Character(char),
}

impl MarkupPart {
    /// Adds the part to a text. `Err` means that memory was refused.
    pub fn push_to(self, text: &mut String) -> Result<(), AllocError>
        ensures { OnOk result (string_bytes text.new ≡ string_bytes text.old ++ markup_part_bytes self) }
    {
        match self {
            MarkupPart::Fixed(fragment) => text.push_str(fragment.text()),
            MarkupPart::Number(number) => {
                write!(text, "{number}")?;
                Ok(())
            }
            MarkupPart::Tenths(tenths) => push_tenths(text, tenths),
            MarkupPart::Character(character) => push_markup_escaped(text, character),
        }
    }
}

/// Adds a number of tenths, without a fraction of 0. `Err` means that memory was refused.
fn push_tenths(text: &mut String, count: u64) -> Result<(), AllocError>
    ensures { OnOk result (string_bytes text.new ≡ string_bytes text.old ++ tenths count) }
{
    let whole = count / 10;
    let rest = count % 10;
    if rest == 0 {
        write!(text, "{whole}")?;
    } else {
        write!(text, "{whole}.{rest}")?;
    }
    Ok(())
}
