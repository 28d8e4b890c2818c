//! Answers the arguments that ask for the version.

ghost use Rattle.std.specs.Prelude.{◌≡◌, ◌<◌, ◌-◌, ◌^◌, IsTrue, OnErr, OnOk, ◌↔◌, ◌||◌, codes, map, string_bytes, true};
ghost use Rattle.std.specs.Io.KnownBytes.{Keeps};
ghost use Rattle.std.specs.Str.{bytes_eq};
ghost use Rattle.apply_cli.specs.Command.{sink_state};
ghost use Rattle.apply_cli.specs.Version.{AskForVersion, IsWrittenInPart, IsWritten, WasAnswered, version_line};

use crate::reporting::report_unless_gone;
use crate::status::FAILED;
use apply_cli_args::VERSION;
use apply_run::{SinkFault, StdSink, Why, write_all};
use std::io::Write;

/// Whether the arguments ask only for the version: one argument, `--version` or `-V`.
pub fn ask_for_version(words: &[String]) -> bool
    ensures { IsTrue result ↔ AskForVersion (map string_bytes words.now) }
{
    match words {
        [word] => is_version(word.as_str()),
        _ => false,
    }
}

/// Whether the argument is an option of the version.
fn is_version(word: &str) -> bool
    ensures { result ≡ (bytes_eq word.now (codes "--version") || bytes_eq word.now (codes "-V")) }
{
    word == "--version" || word == "-V"
}

/// Writes the line of the version, and returns the exit status. It is 0, or 3 if the line could not
/// be written whole or flushed; that error is reported on `faults` unless the output's reader is
/// gone. Then a prefix of the line may have been written.
pub fn answer_version<W: Write + Drop, E: Write>(out: &mut StdSink<W>, faults: &mut E) -> u8
    requires { out.old.failures < 2 ^ 64 - 1 }
    ensures version_answered { WasAnswered (sink_state W.contents out.old) (sink_state W.contents out.new) result }
    ensures quiet { result ≡ 0 → Keeps (E.contents faults.old) (E.contents faults.new) }
    ensures gone { out.new.is_reader_gone ≡ true → Keeps (E.contents faults.old) (E.contents faults.new) }
{
    match write_version(out) {
        Ok(()) => 0,
        Err(_) => {
            report_unless_gone(out, faults, Why::Write);
            FAILED
        }
    }
}

/// Writes the line of the version, and flushes it. `Err` if a write or the flush fails.
fn write_version<W: Write + Drop>(out: &mut StdSink<W>) -> Result<(), SinkFault>
    requires { out.old.failures < 2 ^ 64 - 1 }
    ensures ok { OnOk result (IsWritten (sink_state W.contents out.old) (sink_state W.contents out.new) version_line) }
    ensures err { OnErr result (IsWrittenInPart (sink_state W.contents out.old) (sink_state W.contents out.new) version_line) }
{
    write_part(out, b"applystream ")?;
    write_part(out, VERSION.as_bytes())?;
    write_part(out, b"\n")?;
    out.flush()
}

/// Writes all of the bytes. `Err` if a write fails.
fn write_part<W: Write + Drop>(out: &mut StdSink<W>, part: &[u8]) -> Result<(), SinkFault>
    requires { out.old.failures < 2 ^ 64 - 1 }
    ensures ok { OnOk result (IsWritten (sink_state W.contents out.old) (sink_state W.contents out.new) part.now) }
    ensures err { OnErr result (IsWrittenInPart (sink_state W.contents out.old) (sink_state W.contents out.new) part.now) }
{
    if write_all(out, part) < part.len() {
        return Err(SinkFault);
    }
    Ok(())
}
