//! What a panel shows of the state of an apply.

ghost use Rattle.std.specs.Prelude.{◌≡◌, [], IsTrue, map};
ghost use Rattle.stream_watch.specs.Lengths.{lengths_of};
ghost use Rattle.stream_watch.specs.Printed.{HasPrinted};
ghost use Rattle.stream_watch.specs.State.{looks_of, state_of};
ghost use Rattle.stream_watch.specs.Steps.{changes_in, step_view};

use crate::clock::Clock;
use crate::counts::Counts;
use crate::lengths::Lengths;
use crate::steps::OpenStep;
use crate::watcher::Watcher;

impl Watcher {
    /// The time of the stream.
    pub fn clock(&self) -> Clock
        ensures { result ≡ (state_of self.now).clock }
    {
        self.clock
    }

    /// How many changes are planned, and what became of them.
    pub fn counts(&self) -> Counts
        ensures { result ≡ (state_of self.now).counts }
    {
        self.counts
    }

    /// The open steps, in the order of the lines that began them.
    pub fn steps_under_way(&self) -> &[OpenStep]
        ensures { map step_view result.now ≡ (state_of self.now).steps }
    {
        self.steps.list.as_slice()
    }

    /// How many open steps create, update or delete.
    pub fn open_changes(&self) -> u64
        ensures { result ≡ changes_in (state_of self.now).steps }
    {
        self.steps.changes()
    }

    /// How long steps took.
    pub fn lengths(&self) -> &Lengths
        ensures { lengths_of result.now ≡ (state_of self.now).lengths }
    {
        &self.lengths
    }

    /// What was told since the last `clear`.
    pub fn told(&self) -> &[u8]
        ensures { (bytes : _) → HasPrinted self.now.printer bytes → IsTrue self.now.printer.printed.is_whole → result.now ≡ bytes }
    {
        self.printer.as_bytes()
    }

    /// Whether nothing that was told was lost for want of memory.
    pub fn is_whole(&self) -> bool
        ensures { result ≡ self.now.printer.printed.is_whole }
    {
        self.printer.is_whole()
    }

    /// Takes away what was told.
    pub fn clear(&mut self)
        ensures looks { looks_of self.new ≡ looks_of self.old }
        ensures state { state_of self.new ≡ state_of self.old }
        ensures find { self.new.find ≡ self.old.find }
        ensures whole { self.new.printer.printed.is_whole ≡ self.old.printer.printed.is_whole }
        ensures empty { HasPrinted self.new.printer [] }
    {
        self.printer.clear();
    }
}
