//! Writes verdicts to the output.

ghost use Rattle.std.specs.Prelude.{◌≡◌, ◌≢◌, ◌++◌, ◌∷◌, [], Err, IfErr, OnOk};
ghost use Rattle.std.specs.Io.KnownBytes.{Appends, Keeps};
ghost use Rattle.stream_check.specs.declared.command.unreported.Unreported.TheVariants.{Gone, Memory};

use crate::command::unreported::Unreported;
use std::io::Write;
use stream_tool::{WriteFault, flush, report, write_whole};

/// Writes the text and a line feed, then flushes.
///
/// `Err` with `Unreported::Gone` where the reader of `out` is gone, and with
/// `Unreported::Unwritten` where a write or a flush fails otherwise.
pub fn write_line<W: Write>(out: &mut W, text: &str) -> Result<(), Unreported>
    ensures written { OnOk result (Appends (W.contents out.old) (W.contents out.new) (text.now ++ 10 ∷ [])) }
    ensures unwritten { IfErr result (λ unreported. unreported ≢ Memory) }
{
    match write_text(out, text) {
        Ok(()) => Ok(()),
        Err(fault) => Err(unwritten(fault)),
    }
}

/// Writes the text and a line feed, then flushes. `Err` where a write or the flush fails.
fn write_text<W: Write>(out: &mut W, text: &str) -> Result<(), WriteFault>
    ensures { OnOk result (Appends (W.contents out.old) (W.contents out.new) (text.now ++ 10 ∷ [])) }
{
    write_whole(out, text.as_bytes())?;
    write_whole(out, b"\n")?;
    flush(out)
}

/// Returns why a verdict was not reported, after a failed write or flush.
fn unwritten(fault: WriteFault) -> Unreported
    ensures { result ≢ Memory }
{
    match fault {
        WriteFault::Gone => Unreported::Gone,
        WriteFault::Unwritten => Unreported::Unwritten,
    }
}

/// Reports on `faults` why a verdict was not reported. Nothing is reported where the reader of the
/// output is gone. Whoever ended that reader, as `head` ends, knows.
pub fn report_failure<E: Write>(faults: &mut E, reported: Result<(), Unreported>)
    ensures quiet { OnOk reported (Keeps (E.contents faults.old) (E.contents faults.new)) }
    ensures gone { reported ≡ Err Gone → Keeps (E.contents faults.old) (E.contents faults.new) }
{
    match reported {
        Ok(()) | Err(Unreported::Gone) => {}
        Err(unreported) => report(faults, unreported),
    }
}
