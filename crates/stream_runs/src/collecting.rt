//! Collects the lines of a run.

ghost use Rattle.std.specs.Prelude.{◌≡◌, ◌<◌, ◌++◌, ◌^◌, OnOk, max};
ghost use Rattle.stream_runs.specs.Collected.{place_of};

use crate::choice::RunChoice;
use std::alloc::{AllocError, Global};
use std::marker::Model;

/// Where a line stands.
#[derive(Clone, Copy)]
pub enum Place {
    /// Before the run.
    Before,
    /// In the run.
    Inside,
    /// At the start of a run that takes the place of the one before it.
    Anew,
    /// After the run.
    After,
}

/// Returns where a line stands, up to which that many runs have begun.
fn place_of(choice: RunChoice, begins: bool, begun: u64) -> Place
    ensures { result ≡ place_of choice begins begun }
{
    match choice {
        RunChoice::Last => if begins && begun > 1 {
            Place::Anew
        } else {
            Place::Inside
        },
        RunChoice::Number(number) => {
            let run = begun.max(1);
            if run == number {
                Place::Inside
            } else if run < number {
                Place::Before
            } else {
                Place::After
            }
        }
    }
}

/// The lines of a run, as far as the input was read.
#[derive(Drop)]
pub struct Collected {
    /// How many runs have begun.
    pub begun: u64,
    /// How many lines were read.
    pub lines: u64,
    /// How many of them stand before the run.
    pub before: u64,
    /// The lines of the run, each with its line feed.
    pub bytes: Vec<u8>,
}

impl Model for Collected {
    ghost use Rattle.stream_runs.specs.Collected.{Lines};

    ghost Value = { Lines };

    ghost view = { λ c. record {
      begun = c.begun;
      lines = c.lines;
      before = c.before;
      bytes = c.bytes.items;
    } };
}

impl Collected {
    ghost use Rattle.stream_runs.specs.Collected.{no_lines, piece_of, with_line, with_place};

    /// No line.
    pub fn new(alloc: Global) -> Collected
        ensures { result ≡ no_lines }
    {
        Collected {
            begun: 0,
            lines: 0,
            before: 0,
            bytes: Vec::new(alloc),
        }
    }

    /// Adds a line, if it is one of the run. `Err` where memory is refused.
    pub fn line(
        &mut self,
        choice: RunChoice,
        begins: bool,
        text: &[u8],
        has_feed: bool,
    ) -> Result<(), AllocError>
        requires lines { self.old.lines < 2 ^ 63 }
        requires begun { self.old.begun < 2 ^ 63 }
        ensures { OnOk result (self.new ≡ with_line choice begins (piece_of text.now has_feed) self.old) }
    {
        if begins {
            self.begun += 1;
        }
        let place = place_of(choice, begins, self.begun);
        self.place(place, text, has_feed)
    }

    /// Adds a line of that place. `Err` where memory is refused.
    fn place(&mut self, place: Place, text: &[u8], has_feed: bool) -> Result<(), AllocError>
        requires lines { self.old.lines < 2 ^ 63 }
        ensures { OnOk result (self.new ≡ with_place place (piece_of text.now has_feed) self.old) }
    {
        match place {
            Place::Before => self.before = self.lines + 1,
            Place::Inside => self.push(text, has_feed)?,
            Place::Anew => {
                self.bytes.clear();
                self.before = self.lines;
                self.push(text, has_feed)?;
            }
            Place::After => {}
        }
        self.lines += 1;
        Ok(())
    }

    /// Adds the bytes of a line. `Err` where memory is refused.
    fn push(&mut self, text: &[u8], has_feed: bool) -> Result<(), AllocError>
        ensures { OnOk result (self.new ≡ record self.old { bytes = self.old.bytes ++ piece_of text.now has_feed }) }
    {
        self.bytes.extend_from_slice(text)?;
        if has_feed {
            self.bytes.push(b'\n')?;
        }
        Ok(())
    }
}
