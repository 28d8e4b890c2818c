//! The pieces of a line of the text.

ghost use Rattle.std.specs.Prelude.{◌≡◌, ◌++◌, OnOk, string_bytes};
ghost use Rattle.stream_view.specs.Lines.{line_piece_bytes};

use crate::text::rendition::Rendition;
use std::alloc::AllocError;

/// The sequence that ends a stretch (ECMA-48, section 8.3.117).
const PLAIN: &str = "\u{1b}[0m";

/// A piece of a line of the text.
#[derive(Clone, Copy, Debug, PartialEq, Eq)]
pub enum LinePiece {
    Character(char),
    /// Begins a stretch with this rendition.
    Begin(Rendition),
    /// Ends the stretch.
    End,
}

impl LinePiece {
    /// Adds the piece to a text; without colours, the begin and end of a stretch add nothing. `Err`
    /// means that memory was refused.
    pub fn push_to(self, text: &mut String, has_colour: bool) -> Result<(), AllocError>
        ensures { OnOk result (string_bytes text.new ≡ string_bytes text.old ++ line_piece_bytes has_colour self) }
    {
        match self {
            LinePiece::Character(character) => text.push(character),
            LinePiece::Begin(rendition) if has_colour => text.push_str(rendition.sequence()),
            LinePiece::End if has_colour => text.push_str(PLAIN),
            _ => Ok(()),
        }
    }
}
