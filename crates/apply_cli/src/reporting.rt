//! Reports errors on standard error.

ghost use Rattle.std.specs.Prelude.{◌≡◌, true};
ghost use Rattle.std.specs.Io.KnownBytes.{Keeps};

use crate::job::Job;
use crate::shared_options::shared_words;
use crate::status::{REFUSED, refusal_status};
use apply_run::{Refusal, StdSink};
use std::alloc::Global;
use std::fmt::Display;
use std::io::Write;
use stream_tool::report;
use thiserror::Error;

/// Printed in place of an error of the plan if a saved plan file was given, which is a zip file.
const SAVED_PLAN: &str =
    "the plan is a saved plan: terraform show -json PLANFILE prints it as JSON";

/// Why a plan was not applied, and a second line: which command reports every error and its place.
/// One value, so that both lines go out in one write.
#[derive(Debug, Drop, Error)]
#[error("{refusal}\napplystream: applystream validate{words} says where and what")]
pub(crate) struct RefusalCause<'a> {
    /// Why the plan was not applied.
    pub refusal: Refusal,
    /// The options of the run that `validate` takes, with a blank before each word.
    pub words: &'a str,
}

/// Reports an error, unless the reader of the output is gone. Whoever ended that reader, as `head`
/// ends, knows about it.
pub(crate) fn report_unless_gone<W: Write + Drop, E: Write, D: Display + Drop>(
    output: &StdSink<W>,
    faults: &mut E,
    fault: D,
)
    ensures { output.now.is_reader_gone ≡ true → Keeps (E.contents faults.old) (E.contents faults.new) }
{
    if !output.is_reader_gone() {
        report(faults, fault);
    }
}

/// Reports why a plan was not applied, unless the reader of the output is gone. If `applystream
/// validate` would report the error too, a second line says what to type. If memory for its options
/// is refused, the second line has none.
pub(crate) fn report_refusal<W: Write + Drop, E: Write>(
    alloc: Global,
    output: &StdSink<W>,
    faults: &mut E,
    plan: &[u8],
    job: &Job<'_, '_>,
    parallelism: Option<u8>,
    refusal: Refusal,
)
    ensures { output.now.is_reader_gone ≡ true → Keeps (E.contents faults.old) (E.contents faults.new) }
{
    if refusal == Refusal::Size || refusal_status(refusal) != REFUSED {
        report_unless_gone(output, faults, refusal);
    } else if is_saved_plan(refusal, plan) {
        report_unless_gone(output, faults, SAVED_PLAN);
    } else {
        report_cause(alloc, output, faults, job, parallelism, refusal);
    }
}

/// Whether a plan is refused because it is a saved plan file, and not the JSON of one.
fn is_saved_plan(refusal: Refusal, plan: &[u8]) -> bool {
    match refusal {
        Refusal::Plan(_) => plan.starts_with(b"PK"),
        _ => false,
    }
}

/// Reports a refusal with its second line, unless the reader of the output is gone.
fn report_cause<W: Write + Drop, E: Write>(
    alloc: Global,
    output: &StdSink<W>,
    faults: &mut E,
    job: &Job<'_, '_>,
    parallelism: Option<u8>,
    refusal: Refusal,
)
    ensures { output.now.is_reader_gone ≡ true → Keeps (E.contents faults.old) (E.contents faults.new) }
{
    match shared_words(alloc, job, parallelism) {
        Ok(words) => {
            let words = words.as_str();
            report_unless_gone(output, faults, RefusalCause { refusal, words });
        }
        Err(_) => report_unless_gone(output, faults, RefusalCause { refusal, words: "" }),
    }
}
