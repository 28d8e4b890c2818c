//! What the reading thread hands over to the reader.

ghost use Rattle.std.specs.Prelude.{◌≡◌, ◌<◌, ◌≤◌, true, vec_len};
ghost use Rattle.stream_ahead.specs.Stages.{has_bytes};
ghost use Rattle.stream_ahead.specs.declared.handover.TheConstants.{CHUNK_LEN};

use crate::stage::Stage;
use std::{io, mem};

/// How many bytes one read of the input asks for.
pub(crate) const CHUNK_LEN: usize = 65_536;

/// What the reading thread hands over to the reader. `bytes[start..end]` was read and is not yet
/// taken.
#[derive(Drop)]
pub(crate) struct Handover {
    pub stage: Stage,
    pub bytes: Vec<u8>,
    pub start: usize,
    pub end: usize,
    ghost sized: { vec_len bytes ≡ CHUNK_LEN },
    ghost in_bounds: { end ≤ CHUNK_LEN },
    ghost ordered: { start ≤ end },
    ghost some: { has_bytes stage ≡ true → start < end },
}

impl Handover {
    ghost use Rattle.std.specs.Prelude.{length, take, drop, min, IfOk};
    ghost use Rattle.std.specs.Io.{ReadsAtMost};
    ghost use Rattle.stream_ahead.specs.Stages.{answer_at, asked, given, is_at_rest, is_ready, taken};
    ghost use Rattle.stream_ahead.specs.Waiting.{waiting};

    /// Makes a handover for which no read was asked yet.
    pub fn new(bytes: Vec<u8>) -> Handover
        requires { vec_len bytes ≡ CHUNK_LEN }
        ensures { result.stage ≡ Stage.Idle }
    {
        Handover {
            stage: Stage::Idle,
            bytes,
            start: 0,
            end: 0,
        }
    }

    /// Whether a read returns at once: with bytes, an error or the end.
    pub fn is_ready(&self) -> bool
        ensures { result ≡ is_ready self.now.stage }
    {
        match self.stage {
            Stage::Bytes | Stage::Failed(_) | Stage::End => true,
            Stage::Idle | Stage::Wanted | Stage::Closed => false,
        }
    }

    /// Whether the thread has to wait until something is taken or asked for.
    pub fn is_at_rest(&self) -> bool
        ensures { result ≡ is_at_rest self.now.stage }
    {
        match self.stage {
            Stage::Idle | Stage::Bytes | Stage::Failed(_) => true,
            Stage::Wanted | Stage::End | Stage::Closed => false,
        }
    }

    /// Asks for a read where none was asked for.
    pub fn ask(&mut self)
        ensures stage { self.new.stage ≡ asked self.old.stage }
        ensures bytes { waiting self.new ≡ waiting self.old }
    {
        if let Stage::Idle = self.stage {
            self.stage = Stage::Wanted;
        }
    }

    /// Takes bytes, an error or the end. After the last byte, the next read is wanted: that is the
    /// reading ahead. After an error, no read is wanted until one is asked for.
    pub fn take(&mut self, buf: &mut [u8]) -> io::Result<usize>
        requires ready { is_ready self.old.stage ≡ true }
        requires room { 0 < length buf.old }
        ensures answer { result ≡ answer_at self.old.stage (min (length buf.new) (length (waiting self.old))) }
        ensures bound { ReadsAtMost result buf.new }
        ensures bytes { IfOk result (λ count. take count buf.new ≡ take count (waiting self.old)) }
        ensures left { IfOk result (λ count. waiting self.new ≡ drop count (waiting self.old)) }
        ensures stage { self.new.stage ≡ taken self.old.stage (length (waiting self.new)) }
    {
        match self.stage {
            Stage::Bytes => Ok(self.take_bytes(buf)),
            Stage::Failed(error) => {
                self.stage = Stage::Idle;
                Err(error)
            }
            Stage::End => Ok(0),
            Stage::Idle | Stage::Wanted | Stage::Closed => unreachable!(),
        }
    }

    /// Takes as many of the bytes as there is room for.
    fn take_bytes(&mut self, buf: &mut [u8]) -> usize
        requires held { self.old.stage ≡ Stage.Bytes }
        requires room { 0 < length buf.old }
        ensures count { result ≡ min (length buf.new) (length (waiting self.old)) }
        ensures bytes { take result buf.new ≡ take result (waiting self.old) }
        ensures left { waiting self.new ≡ drop result (waiting self.old) }
        ensures stage { self.new.stage ≡ taken Stage.Bytes (length (waiting self.new)) }
    {
        let count = buf.len().min(self.end - self.start);
        let end = self.start + count;
        buf[..count].copy_from_slice(&self.bytes[self.start..end]);
        if end == self.end {
            self.stage = Stage::Wanted;
        }
        self.start = end;
        count
    }

    /// Hands over what a read into `bytes` gave, and takes the other buffer back. Nothing changes
    /// unless a read is wanted.
    pub fn give(&mut self, bytes: &mut Vec<u8>, outcome: io::Result<usize>)
        requires sized { vec_len bytes.old ≡ CHUNK_LEN }
        requires bound { IfOk outcome (λ count. count ≤ CHUNK_LEN) }
        ensures sized { vec_len bytes.new ≡ CHUNK_LEN }
        ensures stage { self.new.stage ≡ given outcome self.old.stage }
        ensures bytes { self.old.stage ≡ Stage.Wanted → IfOk outcome
            (λ count. 0 < count → waiting self.new ≡ take count bytes.old.items) }
    {
        let Stage::Wanted = self.stage else {
            return;
        };
        match outcome {
            Ok(0) => self.stage = Stage::End,
            Ok(count) => self.give_bytes(bytes, count),
            Err(error) => self.stage = Stage::Failed(error),
        }
    }

    /// Hands over the first `count` bytes, and takes the other buffer back.
    fn give_bytes(&mut self, bytes: &mut Vec<u8>, count: usize)
        requires sized { vec_len bytes.old ≡ CHUNK_LEN }
        requires bound { count ≤ CHUNK_LEN }
        requires some { 0 < count }
        ensures sized { vec_len bytes.new ≡ CHUNK_LEN }
        ensures bytes { waiting self.new ≡ take count bytes.old.items }
        ensures stage { self.new.stage ≡ Stage.Bytes }
    {
        mem::swap(&mut self.bytes, bytes);
        self.start = 0;
        self.end = count;
        self.stage = Stage::Bytes;
    }
}
