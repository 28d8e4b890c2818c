//! The tool `watch`.

ghost use Rattle.std.specs.Prelude.{◌≡◌};
ghost use Rattle.stream_watch_cli.specs.CommandLine.{HasWatched, IsQuiet, arguments, is_fault, looks_in, shows_panel, width_in};

use crate::command::arguments::{command, settings_of};
use crate::command::refusals::{refuse, send_on};
use crate::command::settings::Settings;
use crate::display::Display;
use crate::panel::Panel;
use crate::screen::Screen;
use crate::terminal::Terminal;
use crate::watch_fault::WatchFault;
use crate::watching::watch;
use clap::{ArgMatches, Command};
use std::alloc::{AllocError, Global};
use std::io::{BufReader, Read, Write};
use std::rt::Files;
use std::time::Clock;
use stream_ahead::Pace;
use stream_check::{Finding, Whole};
use stream_panel::has_room;
use stream_tool::{Report, Tool, Usage};
use stream_watch::Looks;

/// The least width of lines above a panel.
const LEAST_WIDTH: usize = 60;

/// The tool `watch`.
///
/// Its exit status is:
///
/// - 0: the stream is whole and reports no error, or help was printed.
/// - 1: the stream is whole and reports an error.
/// - 2: the arguments are refused, the file can't be opened, a read failed, or the stream has too
///   many lines.
/// - 3: memory was refused, or the output could not be written.
/// - 4: the stream is not whole.
///
/// What is told goes to the output, and so does the verdict. Only why there is no verdict goes to
/// standard error, and nothing where the reader of the output is gone.
#[derive(Clone, Copy)]
pub struct Watch<'a, C, P, S> {
    /// By this clock a panel says how long steps run.
    pub clock: &'a C,
    /// How reads of standard input are awaited.
    pub pace: &'a P,
    /// Where a panel stands. Its size is asked before each frame.
    pub screen: &'a S,
    pub terminal: Terminal,
}

impl<'a, C: Clock, P: Pace, S: Screen> Watch<'a, C, P, S> {
    ghost use Rattle.std.specs.Prelude.{◌≡◌, false};
    ghost use Rattle.stream_watch_cli.specs.CommandLine.{shows_panel};
    ghost use Rattle.stream_watch_cli.specs.declared.display.Display.TheVariants.{Lines};

    /// How what was told is shown.
    fn display(&self, alloc: Global, settings: &Settings) -> Display<'a, C, P, S>
        ensures { shows_panel self.now.terminal settings.now ≡ false → result ≡ Lines }
    {
        if has_panel(settings, self.terminal) {
            Display::Panel(self.panel(alloc, settings))
        } else {
            Display::Lines
        }
    }

    /// The panel. Reads of a named file are not awaited.
    fn panel(&self, alloc: Global, settings: &Settings) -> Panel<'a, C, P, S> {
        let pace = settings.file().is_none().then_some(self.pace);
        let has_colour = settings.colour.is_on(self.terminal.is_colour_wanted);
        Panel::new(
            alloc,
            self.clock,
            pace,
            self.screen,
            settings.width,
            has_colour,
        )
    }
}

/// Whether a panel stands below the lines.
pub fn has_panel(settings: &Settings, terminal: Terminal) -> bool
    ensures { result ≡ shows_panel terminal settings.now }
{
    settings.panel.is_on(terminal.is_panel_wanted) && has_room(terminal.size)
}

/// How the lines look. With a panel, they are no wider than the terminal, or than 60 columns if that
/// has fewer.
fn looks_of(settings: &Settings, terminal: Terminal) -> Looks
    ensures { result ≡ looks_in terminal settings.now }
{
    Looks {
        width: width_of(settings, terminal),
        has_colour: settings.colour.is_on(terminal.is_colour_wanted),
        has_panel: has_panel(settings, terminal),
    }
}

/// How wide the lines are.
fn width_of(settings: &Settings, terminal: Terminal) -> Option<usize>
    ensures { result ≡ width_in terminal settings.now }
{
    if has_panel(settings, terminal) {
        settings
            .width
            .or(Some(terminal.size.columns.max(LEAST_WIDTH)))
    } else {
        settings.width
    }
}

impl<C: Clock, P: Pace, S: Screen> Tool for Watch<'_, C, P, S> {
    type Settings = Settings;

    type Answer = Result<Result<Whole, Finding>, WatchFault>;

    ghost arguments = { arguments };

    ghost gives = { λ watch _ _. HasWatched watch.terminal };

    ghost reads_on = { is_fault };

    ghost is_quiet = { IsQuiet };

    ghost most_status = { 4 };

    fn command<'a>(alloc: Global) -> Result<Command<'a>, AllocError> {
        command(alloc)
    }

    fn conflict(_alloc: Global, _words: &[String], _matches: &ArgMatches<'_>) -> Option<Usage> {
        None
    }

    fn settings_of(alloc: Global, matches: &ArgMatches<'_>) -> Result<Settings, AllocError> {
        settings_of(alloc, matches)
    }

    fn file(settings: &Settings) -> Option<&str> {
        settings.file()
    }

    fn reads_on(answer: Result<Result<Whole, Finding>, WatchFault>) -> bool {
        answer.is_err()
    }

    fn without_memory<F: Files>(&self, _files: &F) -> Result<Result<Whole, Finding>, WatchFault> {
        Err(WatchFault::Memory)
    }

    fn run<F: Files, R: Read, W: Write, E: Write>(
        &self,
        _files: &F,
        alloc: Global,
        settings: &Settings,
        reader: &mut BufReader<R>,
        out: &mut W,
        faults: &mut E,
    ) -> Report<Result<Result<Whole, Finding>, WatchFault>> {
        let looks = looks_of(settings, self.terminal);
        let mut display = self.display(alloc, settings);
        let answer = watch(alloc, settings.mode, looks, &mut display, reader, out);
        let status = match answer {
            Ok(Ok(whole)) => if whole.has_errors { 1 } else { 0 },
            Ok(Err(_)) => 4,
            Err(fault) => {
                send_on(&mut display, out, fault);
                refuse(alloc, faults, settings.file(), fault)
            }
        };
        Report { status, answer }
    }
}
