//! The opening of a bus and of claims.

use crate::printing::begin;
use apply_bus::{Claims, open};
use std::alloc::Global;
use std::io;

/// Opens a bus for eight workers.
pub fn bus(rt: &impl Print, alloc: Global) -> io::Result<()> {
    begin(rt)?;
    match open(alloc, 8, 64) {
        Ok((senders, receiver)) => println!(rt; "Ok {} {}", senders.len(), receiver.open_left()),
        Err(error) => println!(rt; "Err({error:?})"),
    }
}

/// Opens claims on 100 numbers for eight workers.
pub fn claims(rt: &impl Print, alloc: Global) -> io::Result<()> {
    begin(rt)?;
    match Claims::open(alloc, 8, 100) {
        Ok((_claims, drawers)) => println!(rt; "Ok {}", drawers.len()),
        Err(error) => println!(rt; "Err({error:?})"),
    }
}
