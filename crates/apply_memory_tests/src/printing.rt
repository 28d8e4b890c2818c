//! Prints answers, and leaks what calls need.

use std::alloc::Global;
use std::fmt::Debug;
use std::io;

/// Prints that the call comes next.
pub fn begin(rt: &impl Print) -> io::Result<()> {
    println!(rt; "call")
}

/// Prints the answer of the call.
pub fn answer(rt: &impl Print, value: &impl Debug) -> io::Result<()> {
    println!(rt; "{value:?}")
}

/// Prints lines that were written.
pub fn lines(rt: &impl Print, bytes: &[u8]) -> io::Result<()> {
    match str::from_utf8(bytes) {
        Ok(lines) => print!(rt; "{lines}"),
        Err(_) => println!(rt; "no text"),
    }
}

/// Leaks the value: a proof grows with each place at which something must be dropped. Only what a
/// call needs is leaked, since that takes memory too.
pub fn leaked<'a, T: Drop + 'a>(alloc: Global, value: T) -> io::Result<&'a mut T> {
    Ok(Box::leak(Box::new(alloc, value)?))
}
