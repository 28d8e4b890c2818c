//! The trait of a tool.

ghost use Rattle.std.specs.Prelude.{◌≡◌, ◌≤◌, ℕ, Bool, List, Option, IfOk, IfSome, true, false};
ghost use Rattle.std.specs.Io.Buffered.{reader_remaining};
ghost use Rattle.std.specs.Io.KnownBytes.{Keeps};
ghost use Rattle.std.specs.Option.{option_copied};
ghost use Rattle.clap.specs.Faults.{is_simple_and_free};
ghost use Rattle.clap.specs.Matches.{found_of};
ghost use Rattle.clap.specs.Simple.{app_of, is_simple};
ghost use Rattle.clap.specs.Walk.{rows_of};
ghost use Rattle.stream_tool.specs.Arguments.{Arguments};
ghost use Rattle.stream_tool.specs.Running.{Giving};
ghost use Rattle.stream_tool.specs.Refused.{IsConflict};

use crate::outcome::Report;
use crate::usage::Usage;
use clap::{ArgMatches, Command};
use std::alloc::{AllocError, Global};
use std::io::{BufReader, Read, Write};
use std::rt::Files;

/// A tool: its options, what it does with an input, and what it reports.
///
/// [`run_tool`](crate::run_tool) has the rules that all tools share.
pub trait Tool {
    /// What the arguments state.
    type Settings: Drop;
    /// What the tool found out, or why it ended early.
    type Answer: Copy;

    /// The options, and the settings that they state.
    ghost arguments: { Arguments Self.Settings };

    /// What the tool gives for some bytes. `File` is the type of files, `remaining` gives their
    /// bytes.
    ghost gives: { Self → (File : Type 0) → (remaining : File → Option (List ℕ)) → Giving Self.Settings Self.Answer };

    /// Whether the rest of the input has to be read after this answer.
    ghost reads_on: { Self.Answer → Bool };

    /// Whether nothing is reported on standard error where the tool ends with this answer and exit
    /// status.
    ghost is_quiet: { Self.Answer → (status : ℕ) → Type 0 };

    /// The greatest exit status.
    ghost most_status: { ℕ };

    /// Defines the options and their help. `Err` where memory is refused.
    fn command<'a>(alloc: Global) -> Result<Command<'a>, AllocError>
        ensures is { IfOk result (λ command. arguments.IsCommand (app_of command)) }
        ensures simple { IfOk result (λ command. is_simple (app_of command) ≡ true) }
        ensures free { IfOk result (λ command. is_simple_and_free (app_of command) ≡ true) };

    /// Returns why these arguments are refused although each of them is accepted: options were
    /// given that exclude each other.
    fn conflict(alloc: Global, words: &[String], matches: &ArgMatches<'_>) -> Option<Usage>
        ensures { IsConflict (arguments.are_conflicting (rows_of (found_of matches.now))) result };

    /// Returns the settings of parsed arguments. `Err` where memory is refused.
    fn settings_of(alloc: Global, matches: &ArgMatches<'_>) -> Result<Self::Settings, AllocError>
        ensures { IfOk result (arguments.AreStated (rows_of (found_of matches.now))) };

    /// The file that the settings name. Without one, the tool reads standard input.
    fn file(settings: &Self::Settings) -> Option<&str>
        ensures { option_copied result ≡ arguments.file settings.now };

    /// Whether the rest of the input has to be read after this answer, so that SIGPIPE does not
    /// stop its writer.
    fn reads_on(answer: Self::Answer) -> bool
        ensures { result ≡ reads_on answer };

    /// The answer where memory was refused before the tool ran.
    fn without_memory<F: Files>(&self, files: &F) -> Self::Answer
        ensures reported { is_quiet result 3 → ⊥ }
        ensures gives { (settings : Self.Settings) (given before after : Option (List ℕ)) → Keeps before after
            → gives self.now F.File F.File.remaining settings given before after result 3 };

    /// Runs the tool on the bytes of the reader, with these settings. What goes wrong is reported
    /// on `faults`.
    fn run<F: Files, R: Read, W: Write, E: Write>(
        &self,
        files: &F,
        alloc: Global,
        settings: &Self::Settings,
        reader: &mut BufReader<R>,
        out: &mut W,
        faults: &mut E,
    ) -> Report<Self::Answer>
        ensures gives { gives self.now F.File F.File.remaining settings.now (reader_remaining R.remaining reader.old)
            (W.contents out.old) (W.contents out.new) result.answer result.status }
        ensures quiet { is_quiet result.answer result.status → Keeps (E.contents faults.old) (E.contents faults.new) }
        ensures statuses { result.status ≤ most_status };
}
