//! Writes a script and its warnings.

ghost use Rattle.std.specs.Prelude.{◌≡◌, ◌≤◌, ℕ, Err, OnErr, OnOk, take};
ghost use Rattle.std.specs.Io.KnownBytes.{Appends, Keeps};
ghost use Rattle.stream_record_cli.specs.Causes.{IsStatusOf};
ghost use Rattle.stream_record_cli.specs.Outcomes.{WasWritten, warned_status};
ghost use Rattle.stream_record_cli.specs.declared.record_fault.RecordFault.TheVariants.{Gone};

use crate::command::refusals::refuse;
use crate::record_fault::RecordFault;
use crate::refusal::Refusal;
use std::alloc::Global;
use std::io::Write;
use stream_tool::{Report, WriteFault, flush, write_whole};
use term_words::MessageText;

/// A script, and what it does not say, a line each.
#[derive(Drop)]
pub struct Texts {
    pub script: MessageText,
    pub warnings: MessageText,
}

/// Writes the script to `out`, and then the warnings to `faults`. Or reports on `faults` why there
/// is none. `name` is that of the stream's file, if it is one.
pub fn write_outcome<W: Write, E: Write>(
    alloc: Global,
    name: Option<&str>,
    made: Result<Texts, Refusal>,
    out: &mut W,
    faults: &mut E,
) -> Report<Result<(), RecordFault>>
    ensures came { WasWritten made (W.contents out.old) (W.contents out.new) result.status result.answer }
    ensures quiet { result.status ≡ 0 → Keeps (E.contents faults.old) (E.contents faults.new) }
    ensures gone { result.answer ≡ Err Gone → Keeps (E.contents faults.old) (E.contents faults.new) }
    ensures statuses { result.status ≤ 3 }
{
    match made {
        Ok(texts) => match write_text(out, texts.script.as_bytes()) {
            Ok(()) => Report {
                status: warn(faults, texts.warnings.as_bytes()),
                answer: Ok(()),
            },
            Err(fault) => refused(alloc, name, Refusal::from(fault), faults),
        },
        Err(refusal) => refused(alloc, name, refusal, faults),
    }
}

/// Reports the refusal.
fn refused<E: Write>(
    alloc: Global,
    name: Option<&str>,
    refusal: Refusal,
    faults: &mut E,
) -> Report<Result<(), RecordFault>>
    ensures answer { result.answer ≡ Err refusal.fault }
    ensures status { IsStatusOf refusal.fault result.status }
    ensures gone { result.answer ≡ Err Gone → Keeps (E.contents faults.old) (E.contents faults.new) }
{
    let fault = refusal.fault;
    Report {
        status: refuse(alloc, name, refusal, faults),
        answer: Err(fault),
    }
}

/// Writes the text and flushes. `Err` is as in `write_whole`.
fn write_text<W: Write>(out: &mut W, text: &[u8]) -> Result<(), WriteFault>
    ensures ok { OnOk result (Appends (W.contents out.old) (W.contents out.new) text.now) }
    ensures part { OnErr result ((n : ℕ) × Appends (W.contents out.old) (W.contents out.new) (take n text.now)) }
{
    write_whole(out, text)?;
    flush(out)
}

/// Prints the warnings, and returns the exit status: 1 if there are some. A failed write is ignored,
/// since no other place is left for them.
fn warn<E: Write>(faults: &mut E, warnings: &[u8]) -> u8
    ensures status { result ≡ warned_status warnings.now }
    ensures part { (n : ℕ) × Appends (E.contents faults.old) (E.contents faults.new) (take n warnings.now) }
    ensures quiet { result ≡ 0 → Keeps (E.contents faults.old) (E.contents faults.new) }
{
    if warnings.is_empty() {
        return 0;
    }
    let _ = write_whole(faults, warnings);
    1
}
