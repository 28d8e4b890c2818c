//! Readers and writers that fail.

use std::alloc::Global;
use std::io::{self, ErrorKind, Read, Write};

/// A reader that gives the first byte of a plan, and then fails.
#[derive(Drop)]
pub(super) struct Broken {
    front: &'static [u8],
}

impl Broken {
    pub fn new() -> Broken {
        Broken { front: b"{" }
    }
}

impl Read for Broken {
    fn read(&mut self, buf: &mut [u8]) -> io::Result<usize> {
        let count = self.front.len().min(buf.len());
        if count == 0 {
            return Err(io::Error::from_raw_os_error(5));
        }
        buf[..count].copy_from_slice(&self.front[..count]);
        self.front = &self.front[count..];
        Ok(count)
    }
}

/// A writer that takes one byte in each write. After `room` bytes each write and flush fails with
/// this kind of error.
#[derive(Drop)]
pub(super) struct LimitedWriter {
    pub bytes: Vec<u8>,
    room: usize,
    kind: ErrorKind,
}

impl LimitedWriter {
    /// Makes a writer that has received nothing.
    pub fn new(alloc: Global, room: usize, kind: ErrorKind) -> LimitedWriter {
        LimitedWriter {
            bytes: Vec::new(alloc),
            room,
            kind,
        }
    }
}

impl Write for LimitedWriter {
    fn write(&mut self, buf: &[u8]) -> io::Result<usize> {
        let left = self.room.saturating_sub(self.bytes.len());
        let count = left.min(buf.len()).min(1);
        if count == 0 && !buf.is_empty() {
            return Err(io::Error::from(self.kind));
        }
        self.bytes.extend_from_slice(&buf[..count])?;
        Ok(count)
    }

    fn flush(&mut self) -> io::Result<()> {
        if self.bytes.len() >= self.room {
            return Err(io::Error::from(self.kind));
        }
        Ok(())
    }
}
