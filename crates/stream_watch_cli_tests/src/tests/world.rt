//! A clock, a pace and a screen that share a state, and a writer.

use super::*;

/// A clock that stands still but for waits, and a screen whose size changes with them.
#[derive(Drop)]
pub(super) struct World {
    /// How many seconds passed.
    seconds: Cell<u64>,
    /// Whether the screen is too narrow for a panel by now, and reads do not have to wait.
    is_narrow: Cell<bool>,
}

impl World {
    /// A clock at 0.
    pub fn new() -> World {
        World {
            seconds: Cell::new(0),
            is_narrow: Cell::new(false),
        }
    }

    /// The screen becomes too narrow for a panel.
    pub fn narrow(&self) {
        self.is_narrow.set(true);
    }
}

impl Clock for World {
    fn monotonic(&self) -> io::Result<Duration> {
        Ok(Duration::from_secs(self.seconds.get()))
    }

    fn since_1970(&self) -> io::Result<Duration> {
        Err(io::Error::from(ErrorKind::Unsupported))
    }
}

/// The input comes after two seconds.
impl Pace for World {
    fn wait(&self, at_most: Duration) -> bool {
        let seconds = self.seconds.get();
        if seconds >= 2 || self.is_narrow.get() {
            return true;
        }
        self.seconds.set(seconds.saturating_add(at_most.as_secs()));
        false
    }
}

/// The screen has another size each second.
impl Screen for World {
    fn size(&self) -> Size {
        let (columns, rows) = match self.seconds.get() {
            _ if self.is_narrow.get() => (39, 16),
            0 => (80, 24),
            1 => (60, 16),
            _ => (100, 30),
        };
        Size { columns, rows }
    }
}

/// A writer that compares what comes with what is expected.
#[derive(Clone, Copy)]
pub(super) struct Taker {
    /// The bytes that are still expected.
    wanted: &'static [u8],
    /// Whether other bytes came.
    is_other: bool,
}

impl Taker {
    /// A writer that expects this text.
    pub fn new(wanted: &'static str) -> Taker {
        Taker {
            wanted: wanted.as_bytes(),
            is_other: false,
        }
    }

    /// Whether exactly the expected bytes came.
    pub fn has_all(&self) -> bool {
        !self.is_other && self.wanted.is_empty()
    }
}

impl Write for Taker {
    fn write(&mut self, buf: &[u8]) -> io::Result<usize> {
        match self.wanted.strip_prefix(buf) {
            Some(rest) => self.wanted = rest,
            None => self.is_other = true,
        }
        Ok(buf.len())
    }

    fn flush(&mut self) -> io::Result<()> {
        Ok(())
    }
}
