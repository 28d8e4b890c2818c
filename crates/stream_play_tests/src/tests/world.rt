//! A clock, a reader and a writer that share a state.

use super::*;

/// A clock that counts its sleeps. It also records whether sleeps and flushes come as expected.
#[derive(Drop)]
pub(super) struct World {
    /// The time of the clock, in microseconds.
    pub now: Cell<u64>,
    /// The sleeps that are still expected, in microseconds, each with a blank after it.
    sleeps: Cell<&'static str>,
    /// How many more sleeps return at once.
    pub lazy: Cell<u64>,
    /// How many more times the clock can be read.
    pub readings: Cell<u64>,
    /// How long each read of the input takes, in microseconds.
    pub read_time: Cell<u64>,
    /// Whether bytes were written and not flushed.
    is_pending: Cell<bool>,
    /// Whether a sleep or a read came before a flush, or another sleep than expected.
    is_wrong: Cell<bool>,
}

/// A clock at 0 that expects these sleeps.
pub(super) fn new_world(rt: &impl Abort, alloc: Global, sleeps: &'static str) -> &'static World {
    let world = World {
        now: Cell::new(0),
        sleeps: Cell::new(sleeps),
        lazy: Cell::new(0),
        readings: Cell::new(u64::MAX),
        read_time: Cell::new(0),
        is_pending: Cell::new(false),
        is_wrong: Cell::new(false),
    };
    &*leaked(rt, alloc, world)
}

impl World {
    /// Whether exactly the expected sleeps came, and all bytes were flushed in time.
    pub fn is_as_wanted(&self) -> bool {
        !self.is_wrong.get() && !self.is_pending.get() && self.sleeps.get().is_empty()
    }

    /// Moves the clock by that many microseconds.
    fn pass(&self, micros: u64) {
        self.now.set(self.now.get().saturating_add(micros));
    }

    /// Records that a sleep or a read may block now.
    fn waits(&self) {
        if self.is_pending.get() {
            self.is_wrong.set(true);
        }
    }

    /// Records one sleep.
    fn note(&self, micros: u64) {
        match self.sleeps.get().split_once(' ') {
            Some((next, rest)) if next.parse::<u64>().ok() == Some(micros) => self.sleeps.set(rest),
            _ => self.is_wrong.set(true),
        }
    }
}

impl Clock for World {
    fn monotonic(&self) -> io::Result<Duration> {
        let readings = self.readings.get();
        if readings == 0 {
            return Err(io::Error::from(ErrorKind::Unsupported));
        }
        self.readings.set(readings - 1);
        Ok(Duration::from_micros(self.now.get()))
    }

    fn since_1970(&self) -> io::Result<Duration> {
        Err(io::Error::from(ErrorKind::Unsupported))
    }

    fn sleep(&self, duration: Duration) {
        self.waits();
        let micros = u64::try_from(duration.as_micros()).unwrap_or(u64::MAX);
        self.note(micros);
        let lazy = self.lazy.get();
        if lazy > 0 {
            self.lazy.set(lazy - 1);
        } else {
            self.pass(micros);
        }
    }
}

/// A reader that gives at most `most` bytes at once, and never more than one line.
#[derive(Clone, Copy)]
pub(super) struct Pieces {
    pub world: &'static World,
    pub bytes: &'static [u8],
    pub most: usize,
    /// Whether a read fails at the end.
    pub is_broken: bool,
}

impl Read for Pieces {
    fn read(&mut self, buf: &mut [u8]) -> io::Result<usize> {
        self.world.waits();
        self.world.pass(self.world.read_time.get());
        if self.bytes.is_empty() && self.is_broken {
            return Err(io::Error::from_raw_os_error(5));
        }
        let mut behind = self.bytes;
        let line = behind.skip_until(b'\n')?;
        let most = line.min(self.most);
        let count = most.min(self.bytes.len()).min(buf.len());
        buf[..count].copy_from_slice(&self.bytes[..count]);
        self.bytes = &self.bytes[count..];
        Ok(count)
    }
}

/// A buffered reader that gives the text in pieces of at most `most` bytes.
pub(super) fn new_reader(
    rt: &impl Abort,
    alloc: Global,
    world: &'static World,
    text: &'static str,
    most: usize,
) -> &'static mut BufReader<Pieces> {
    let pieces = Pieces {
        world,
        bytes: text.as_bytes(),
        most,
        is_broken: false,
    };
    let reader = BufReader::new(alloc, pieces);
    leaked(rt, alloc, reader.expect(rt, "memory"))
}

/// A writer that accepts at most `most` bytes at once. Writes and flushes fail after `room` bytes.
#[derive(Clone, Copy)]
pub(super) struct Taker {
    pub world: &'static World,
    /// The bytes that are still expected.
    pub wanted: &'static [u8],
    /// Whether other bytes came.
    pub is_other: bool,
    pub most: usize,
    /// How many more bytes are accepted.
    pub room: usize,
    pub kind: ErrorKind,
}

impl Taker {
    /// Whether exactly the expected bytes came.
    pub fn has_all(&self) -> bool {
        !self.is_other && self.wanted.is_empty()
    }
}

impl Write for Taker {
    fn write(&mut self, buf: &[u8]) -> io::Result<usize> {
        let count = self.most.min(self.room).min(buf.len());
        if count == 0 && !buf.is_empty() {
            return Err(io::Error::from(self.kind));
        }
        self.room -= count;
        match self.wanted.strip_prefix(&buf[..count]) {
            Some(rest) => self.wanted = rest,
            None => self.is_other = true,
        }
        self.world.is_pending.set(true);
        Ok(count)
    }

    fn flush(&mut self) -> io::Result<()> {
        if self.room == 0 {
            return Err(io::Error::from(self.kind));
        }
        self.world.is_pending.set(false);
        Ok(())
    }
}
