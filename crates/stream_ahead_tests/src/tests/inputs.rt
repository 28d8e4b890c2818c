//! Inputs.

use super::*;

/// A long input that gives at most `most` bytes at once.
#[derive(Clone, Copy)]
pub(super) struct Pieces {
    pub bytes: &'static [u8],
    pub most: usize,
}

impl Read for Pieces {
    fn read(&mut self, buf: &mut [u8]) -> io::Result<usize> {
        let count = self.most.min(self.bytes.len()).min(buf.len());
        buf[..count].copy_from_slice(&self.bytes[..count]);
        self.bytes = &self.bytes[count..];
        Ok(count)
    }
}

/// What one read of an input gives.
#[derive(Clone, Copy)]
pub(super) enum Step {
    Bytes(&'static [u8]),
    Fails(ErrorKind),
    End,
}

/// Where the reads of an input wait, and how many of them have begun.
#[derive(Drop)]
pub(super) struct Gate {
    is_open: AtomicU64,
    reads: AtomicU64,
}

impl Gate {
    /// An open gate.
    pub fn new() -> Gate {
        Gate {
            is_open: AtomicU64::new(1),
            reads: AtomicU64::new(0),
        }
    }

    /// A closed gate.
    pub fn closed() -> Gate {
        Gate {
            is_open: AtomicU64::new(0),
            reads: AtomicU64::new(0),
        }
    }

    /// Lets all reads go on.
    pub fn open(&self) {
        self.is_open.store(1, Ordering::SeqCst);
        self.is_open.wake_all();
    }

    /// Returns how many reads have begun.
    pub fn reads(&self) -> u64 {
        self.reads.load(Ordering::SeqCst)
    }

    /// Begins a read, and waits until the gate is open.
    fn pass<T: Wait>(&self, rt: &T) {
        self.reads.fetch_add(1, Ordering::SeqCst);
        for _ in rt.forever() {
            if self.is_open.load(Ordering::SeqCst) == 1 {
                break;
            }
            self.is_open.park(rt, 0);
        }
    }
}

/// An input whose reads give these steps, and then the end.
#[derive(Clone, Copy)]
pub(super) struct Script<'a, T: Wait> {
    pub rt: &'a T,
    pub gate: &'a Gate,
    pub steps: &'a [Step],
}

impl<'a, T: Wait> Read for Script<'a, T> {
    fn read(&mut self, buf: &mut [u8]) -> io::Result<usize> {
        self.gate.pass(self.rt);
        let Some((step, rest)) = self.steps.split_first() else {
            return Ok(0);
        };
        self.steps = rest;
        match *step {
            Step::Bytes(mut bytes) => bytes.read(buf),
            Step::Fails(kind) => Err(io::Error::from(kind)),
            Step::End => Ok(0),
        }
    }
}
