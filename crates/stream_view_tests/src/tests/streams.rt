//! A reader and a writer that fail.

use super::*;

/// A reader that gives these bytes, and fails at the end if it is broken.
#[derive(Drop)]
pub(super) struct Given<'a> {
    pub bytes: &'a [u8],
    pub is_broken: bool,
}

impl Read for Given<'_> {
    fn read(&mut self, buf: &mut [u8]) -> io::Result<usize> {
        if self.bytes.is_empty() && self.is_broken {
            return Err(io::Error::from_raw_os_error(5));
        }
        let count = self.bytes.len().min(buf.len());
        buf[..count].copy_from_slice(&self.bytes[..count]);
        self.bytes = &self.bytes[count..];
        Ok(count)
    }
}

/// A writer that accepts one byte at a time. After `room` bytes it fails with `kind`, in a write as
/// in a flush.
#[derive(Drop)]
pub(super) struct WrittenOutput {
    pub bytes: Vec<u8>,
    room: usize,
    kind: ErrorKind,
}

impl WrittenOutput {
    /// A writer that has accepted nothing.
    pub fn new(alloc: Global, room: usize, kind: ErrorKind) -> WrittenOutput {
        WrittenOutput {
            bytes: Vec::new(alloc),
            room,
            kind,
        }
    }
}

impl Write for WrittenOutput {
    fn write(&mut self, buf: &[u8]) -> io::Result<usize> {
        let left = self.room.saturating_sub(self.bytes.len());
        let count = left.min(buf.len()).min(1);
        if count == 0 && !buf.is_empty() {
            return Err(io::Error::from(self.kind));
        }
        self.bytes.extend_from_slice(&buf[..count])?;
        Ok(count)
    }

    fn flush(&mut self) -> io::Result<()> {
        if self.bytes.len() >= self.room {
            return Err(io::Error::from(self.kind));
        }
        Ok(())
    }
}
