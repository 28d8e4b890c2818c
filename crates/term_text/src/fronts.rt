//! Fronts of bytes that cut no character.

ghost use Rattle.std.specs.Prelude.{◌≡◌, ◌≤◌, length};
ghost use Rattle.term_text.specs.Pieces.{pieces_of};
ghost use Rattle.term_text.specs.Fronts.{room_for, front_of};

use crate::piece::first_piece;

// Returns the length of the longest front of at most `limit` bytes that cuts no character.
pub(crate) fn front_size(bytes: &[u8], limit: usize) -> usize
    ensures size { result ≡ room_for limit (pieces_of bytes.now) }
    ensures within { result ≤ length bytes.now }
{
    let mut size = 0;
    while size < bytes.len() {
        let (_, more) = first_piece(&bytes[size..]);
        if limit - size < more {
            break;
        }
        size += more;
    }
    size
}

/// Returns the longest front of at most `limit` bytes that cuts no character of UTF-8 (RFC 3629,
/// section 4). A byte that belongs to no character may end the front.
pub fn front(bytes: &[u8], limit: usize) -> &[u8]
    ensures { result.now ≡ front_of limit bytes.now }
{
    &bytes[..front_size(bytes, limit)]
}
