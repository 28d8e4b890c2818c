//! Files that lie on no disk.

use super::*;
use std::alloc::Allocator;
use std::fs::{Metadata, OpenFile, OpenOptions};
use std::io::{Seek, SeekFrom};
use std::rt::Files;

/// Files with the same bytes. Each fails at its end if it is broken.
#[derive(Drop)]
pub(super) struct Disk<'a> {
    pub bytes: &'a [u8],
    pub is_broken: bool,
}

impl<'a> Files for Disk<'a> {
    type File = Given<'a>;

    type Dir = Given<'a>;

    fn open_file(&self, _how: &OpenOptions, _path: &str) -> io::Result<Given<'a>> {
        Ok(Given {
            bytes: self.bytes,
            is_broken: self.is_broken,
        })
    }

    fn open_dir(&self, _path: &str) -> io::Result<Given<'a>> {
        Err(no_such_call())
    }

    fn metadata(&self, _path: &str) -> io::Result<Metadata> {
        Err(no_such_call())
    }

    fn symlink_metadata(&self, _path: &str) -> io::Result<Metadata> {
        Err(no_such_call())
    }

    fn copy(&self, _from: &str, _to: &str) -> io::Result<u64> {
        Err(no_such_call())
    }

    fn rename(&self, _from: &str, _to: &str) -> io::Result<()> {
        Err(no_such_call())
    }

    fn remove_file(&self, _path: &str) -> io::Result<()> {
        Err(no_such_call())
    }

    fn create_dir(&self, _path: &str) -> io::Result<()> {
        Err(no_such_call())
    }

    fn remove_dir(&self, _path: &str) -> io::Result<()> {
        Err(no_such_call())
    }

    fn remove_dir_all<B: Allocator>(&self, _alloc: B, _path: &str) -> io::Result<()> {
        Err(no_such_call())
    }
}

/// A file is only read.
impl Write for Given<'_> {
    fn write(&mut self, _buf: &[u8]) -> io::Result<usize> {
        Err(no_such_call())
    }

    fn flush(&mut self) -> io::Result<()> {
        Err(no_such_call())
    }
}

impl Seek for Given<'_> {
    fn seek(&mut self, _to: SeekFrom) -> io::Result<u64> {
        Err(no_such_call())
    }
}

impl OpenFile for Given<'_> {
    fn metadata(&self) -> io::Result<Metadata> {
        Err(no_such_call())
    }

    fn set_len(&self, _size: u64) -> io::Result<()> {
        Err(no_such_call())
    }

    fn sync_all(&self) -> io::Result<()> {
        Err(no_such_call())
    }

    fn sync_data(&self) -> io::Result<()> {
        Err(no_such_call())
    }
}

/// The command makes no such call.
fn no_such_call() -> io::Error {
    io::Error::from(ErrorKind::Unsupported)
}
