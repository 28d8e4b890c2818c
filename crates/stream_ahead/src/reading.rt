//! What the reading thread does.

ghost use Rattle.std.specs.Prelude.{◌≡◌, vec_len};

use crate::exchange::Exchange;
use crate::handover::CHUNK_LEN;
use std::io::Read;
use std::sync::Wait;

/// Reads the input whenever a read is wanted, and hands over what the read gave. Returns after the
/// end of the input, or where nothing more will be taken.
pub(crate) fn read_on<T: Wait, R: Read + Drop>(
    rt: &T,
    exchange: &Exchange,
    mut input: R,
    mut bytes: Vec<u8>,
)
    requires { vec_len bytes ≡ CHUNK_LEN }
{
    for _ in rt.forever() {
        if !exchange.is_wanted(rt) {
            break;
        }
        // The lock is free while the input is read, so the other thread can wait for a time.
        let outcome = input.read(&mut bytes);
        exchange.give(rt, &mut bytes, outcome);
    }
}
