//! The panel at a terminal: what stands there, and when it is drawn.

use crate::screen::Screen;
use crate::watch_fault::WatchFault;
use std::alloc::Global;
use std::io::Write;
use std::time::{Clock, Duration, Instant};
use stream_ahead::Pace;
use stream_panel::{Canvas, Size, View, has_room, push_frame, push_panel};
use stream_tool::{flush, write_whole};
use stream_watch::Watcher;
use term_words::MessageText;

/// How many seconds a panel stands before it is drawn anew.
const TICK: u64 = 1;

/// The panel at a terminal. Between frames, the cursor stands at the start of the line below it.
#[derive(Drop)]
pub struct Panel<'a, C, P, S> {
    alloc: Global,
    clock: &'a C,
    /// How reads of the input are awaited. `None` where a read does not have to wait.
    pace: Option<&'a P>,
    /// Where the panel stands.
    screen: &'a S,
    /// The greatest number of columns that the arguments allow.
    width: Option<usize>,
    has_colour: bool,
    /// How many columns each of its lines has that stand on the screen.
    standing: Vec<usize>,
    /// When the last message with a timestamp was read, or the start. `None` where the clock can't
    /// be read.
    read_at: Option<Instant>,
    /// How many messages had a timestamp.
    timed: u64,
    /// Whether no line was read yet.
    is_waiting: bool,
}

impl<'a, C: Clock, P: Pace, S: Screen> Panel<'a, C, P, S> {
    /// A panel that is not drawn yet.
    pub fn new(
        alloc: Global,
        clock: &'a C,
        pace: Option<&'a P>,
        screen: &'a S,
        width: Option<usize>,
        has_colour: bool,
    ) -> Panel<'a, C, P, S> {
        Panel {
            alloc,
            clock,
            pace,
            screen,
            width,
            has_colour,
            standing: Vec::new(alloc),
            read_at: Instant::now(clock).ok(),
            timed: 0,
            is_waiting: true,
        }
    }

    /// A line was read, after which so many messages had a timestamp.
    pub fn note_line(&mut self, timed: u64) {
        self.is_waiting = false;
        if timed != self.timed {
            self.timed = timed;
            self.read_at = Instant::now(self.clock).ok();
        }
    }

    /// Draws the panel below what was told, and once more each second until a read does not have to
    /// wait. `Err` where memory was refused, or a write fails.
    pub fn wait<W: Write>(
        &mut self,
        watcher: &mut Watcher,
        output: &mut W,
    ) -> Result<(), WatchFault> {
        self.draw(watcher, output)?;
        let Some(pace) = self.pace else {
            return Ok(());
        };
        for _ in 0..u64::MAX {
            if pace.wait(Duration::from_secs(TICK)) {
                return Ok(());
            }
            self.draw(watcher, output)?;
        }
        Ok(())
    }

    /// Writes what was told, and the panel below it, where the screen has room for one now. `Err`
    /// where memory was refused, or the write fails.
    fn draw<W: Write>(&mut self, watcher: &mut Watcher, output: &mut W) -> Result<(), WatchFault> {
        let size = self.screen.size();
        let mut panel = Canvas::new(self.alloc);
        if has_room(size) {
            push_panel(&mut panel, watcher, self.view(size));
        }
        self.write(watcher, size, panel.text(), output)?;
        self.standing = panel.into_widths();
        Ok(())
    }

    /// Writes what was told in place of the panel. `Err` where memory was refused, or the write
    /// fails.
    pub fn end<W: Write>(
        &mut self,
        watcher: &mut Watcher,
        output: &mut W,
    ) -> Result<(), WatchFault> {
        let none = MessageText::new(self.alloc);
        self.write(watcher, self.screen.size(), &none, output)?;
        self.standing = Vec::new(self.alloc);
        Ok(())
    }

    /// Takes the panel away, as far as the output takes it.
    pub fn leave<W: Write>(&mut self, output: &mut W) {
        let none = MessageText::new(self.alloc);
        let mut frame = MessageText::new(self.alloc);
        let size = self.screen.size();
        push_frame(&mut frame, size.columns, &self.standing, &[], &none);
        if frame.is_whole() && write_whole(output, frame.as_bytes()).is_ok() {
            let _ = output.flush();
        }
        self.standing = Vec::new(self.alloc);
    }

    /// Writes a frame with what was told, which is then taken from the watcher. The screen has this
    /// size now. `Err` where memory was refused, or the write fails.
    fn write<W: Write>(
        &self,
        watcher: &mut Watcher,
        size: Size,
        panel: &MessageText,
        output: &mut W,
    ) -> Result<(), WatchFault> {
        let mut frame = MessageText::new(self.alloc);
        push_frame(
            &mut frame,
            size.columns,
            &self.standing,
            watcher.told(),
            panel,
        );
        if !watcher.is_whole() || !frame.is_whole() {
            return Err(WatchFault::Memory);
        }
        write_whole(output, frame.as_bytes())?;
        watcher.clear();
        Ok(flush(output)?)
    }

    /// How the panel looks now on a screen of this size.
    fn view(&self, size: Size) -> View {
        View {
            size,
            width: self.width,
            has_colour: self.has_colour,
            since: self.since(),
            is_waiting: self.is_waiting,
        }
    }

    /// How many microseconds ago the last message with a timestamp was read. It is 0 where the clock
    /// can't be read.
    fn since(&self) -> u64 {
        let Some(read_at) = self.read_at else {
            return 0;
        };
        match read_at.elapsed(self.clock) {
            Ok(gone) => u64::try_from(gone.as_micros()).unwrap_or(u64::MAX),
            Err(_) => 0,
        }
    }
}
