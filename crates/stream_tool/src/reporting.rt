//! Messages for people, on standard error.

use std::fmt::Display;
use std::io::{Cursor, Write};

/// The longest message that goes out in one write, in bytes.
const LINE_ROOM: usize = 1_024;

/// Writes `applystream: `, the message and a line feed to `faults`. A failed write is ignored,
/// since no other place is left for messages.
///
/// The line takes no heap memory and goes out in one write, so it stays whole next to other
/// writers. Only a long file name makes a line of more than 1,024 bytes, which goes out in parts.
pub fn report<E: Write, D: Display + Drop>(faults: &mut E, fault: D) {
    let mut line = Cursor::new([0u8; LINE_ROOM]);
    let _ = match writeln!(line, "applystream: {fault}") {
        Ok(()) => {
            let end = (line.position() as usize).min(LINE_ROOM);
            faults.write_all(&line.get_ref()[..end])
        }
        Err(_) => writeln!(faults, "applystream: {fault}"),
    };
}
