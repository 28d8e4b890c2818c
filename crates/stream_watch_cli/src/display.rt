//! How what was told is shown: as lines, or as lines with a panel below them.

ghost use Rattle.std.specs.Prelude.{◌≡◌, OnOk};
ghost use Rattle.std.specs.Io.KnownBytes.{Keeps};
ghost use Rattle.stream_watch_cli.specs.Watched.{Sends};
ghost use Rattle.stream_watch_cli.specs.declared.display.Display.TheVariants.{Lines};

use crate::panel::Panel;
use crate::screen::Screen;
use crate::watch_fault::WatchFault;
use std::io::Write;
use std::time::Clock;
use stream_ahead::Pace;
use stream_tool::{flush, write_whole};
use stream_watch::Watcher;

/// How what was told is shown.
#[derive(Drop)]
pub enum Display<'a, C, P, S> {
    /// As lines.
    Lines,
    /// As lines with a panel below them.
    Panel(Panel<'a, C, P, S>),
}

impl<C: Clock, P: Pace, S: Screen> Display<'_, C, P, S> {
    /// Shows what was told of a line. A panel shows it with its next frame. `Err` where memory was
    /// refused for it, or a write fails.
    pub fn line<W: Write>(
        &mut self,
        watcher: &mut Watcher,
        output: &mut W,
    ) -> Result<(), WatchFault>
        ensures same { self.old ≡ Lines → self.new ≡ Lines }
        ensures sent { self.old ≡ Lines → OnOk result (Sends watcher.old watcher.new (W.contents output.old) (W.contents output.new)) }
    {
        match self {
            Display::Lines => send(watcher, output),
            Display::Panel(panel) => {
                panel.note_line(watcher.clock().count);
                Ok(())
            }
        }
    }

    /// Shows all that was told, before a read that may have to wait. A panel is drawn anew each
    /// second until the read does not have to wait. `Err` where memory was refused, or a write or
    /// the flush fails.
    pub fn before_read<W: Write>(
        &mut self,
        watcher: &mut Watcher,
        output: &mut W,
    ) -> Result<(), WatchFault>
        ensures same { self.old ≡ Lines → self.new ≡ Lines }
        ensures watcher { self.old ≡ Lines → watcher.new ≡ watcher.old }
        ensures kept { self.old ≡ Lines → Keeps (W.contents output.old) (W.contents output.new) }
    {
        match self {
            Display::Lines => Ok(flush(output)?),
            Display::Panel(panel) => panel.wait(watcher, output),
        }
    }

    /// Shows all that was told, and takes the panel away. `Err` where memory was refused, or a write
    /// or the flush fails.
    pub fn end<W: Write>(&mut self, watcher: &mut Watcher, output: &mut W) -> Result<(), WatchFault>
        ensures { self.old ≡ Lines → OnOk result (Sends watcher.old watcher.new (W.contents output.old) (W.contents output.new)) }
    {
        match self {
            Display::Lines => send_all(watcher, output),
            Display::Panel(panel) => panel.end(watcher, output),
        }
    }

    /// Takes the panel away after a fault, as far as the output takes it.
    pub fn leave<W: Write>(&mut self, output: &mut W)
        ensures { self.old ≡ Lines → Keeps (W.contents output.old) (W.contents output.new) }
    {
        if let Display::Panel(panel) = self {
            panel.leave(output);
        }
    }
}

/// Writes and flushes what was told. `Err` where memory was refused for it, or the write or the flush
/// fails.
fn send_all<W: Write>(watcher: &mut Watcher, output: &mut W) -> Result<(), WatchFault>
    ensures { OnOk result (Sends watcher.old watcher.new (W.contents output.old) (W.contents output.new)) }
{
    send(watcher, output)?;
    Ok(flush(output)?)
}

/// Writes what was told. `Err` where memory was refused for it, or the write fails.
fn send<W: Write>(watcher: &mut Watcher, output: &mut W) -> Result<(), WatchFault>
    ensures { OnOk result (Sends watcher.old watcher.new (W.contents output.old) (W.contents output.new)) }
{
    if !watcher.is_whole() {
        return Err(WatchFault::Memory);
    }
    write_whole(output, watcher.told())?;
    watcher.clear();
    Ok(())
}
