//! Splits bytes into pieces: characters, and bytes that belong to no character.

ghost use Rattle.std.specs.Prelude.{◌≡◌, ◌<◌, ◌≤◌, length};
ghost use Rattle.term_text.specs.Pieces.{first_piece as piece_in_front};

use bstr::decode_utf8;

// Returns the first character of the bytes and its length. Returns no character and 1 where the
// first byte belongs to none.
#[tactic(auto, unfolding(crate::specs::Pieces::first_piece))]
pub(crate) fn first_piece(bytes: &[u8]) -> (Option<char>, usize)
    requires { 0 < length bytes.now }
    ensures character { result.0 ≡ (piece_in_front bytes.now).char }
    ensures size { result.1 ≡ (piece_in_front bytes.now).size }
    ensures some { 0 < result.1 }
    ensures within { result.1 ≤ length bytes.now }
{
    match decode_utf8(bytes) {
        (None, _) => (None, 1),
        (Some(character), size) => (Some(character), size),
    }
}
