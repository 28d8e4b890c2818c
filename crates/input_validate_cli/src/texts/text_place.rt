//! Places in a text.

ghost use Rattle.std.specs.Prelude.{◌≡◌, ◌==◌, ◌+◌, ◌^◌, ◌<◌, length, if◌then◌else◌};
ghost use Rattle.input_validate_cli.specs.Places.{IsBehind, continues_character};

/// A place in a text: its line, and its column in characters. Both are counted from 1.
#[derive(Clone, Copy)]
pub struct TextPlace {
    pub line: usize,
    pub column: usize,
}

impl TextPlace {
    /// Returns the place behind a text.
    pub fn behind(text: &[u8]) -> TextPlace
        ensures { IsBehind text.now result }
    {
        let mut line = 1usize;
        let mut column = 1usize;
        for byte in text {
            if *byte == b'\n' {
                line += 1;
            }
            column = column_behind(column, *byte);
        }
        TextPlace { line, column }
    }
}

/// Returns the column behind one more byte.
fn column_behind(column: usize, byte: u8) -> usize
    requires { column + 1 < 2 ^ 64 }
    ensures { result ≡ (if byte == 10 then 1 else if continues_character byte then column else column + 1) }
{
    if byte == b'\n' {
        1
    } else if continues_character(byte) {
        column
    } else {
        column + 1
    }
}

/// Returns whether a byte continues a character of several bytes in UTF-8.
fn continues_character(byte: u8) -> bool
    ensures { result ≡ continues_character byte }
{
    128 <= byte && byte < 192
}
