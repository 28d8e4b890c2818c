//! Reports the prefixes of `--halt-in` that no address of the plan begins with.

ghost use Rattle.std.specs.Prelude.{◌≡◌, ◌++◌, IfOk, OnOk, map, nat_eq, not, string_bytes, true};
ghost use Rattle.std.specs.List.{filter, filter_map, starts_with};
ghost use Rattle.std.specs.Io.KnownBytes.{Keeps};
ghost use Rattle.apply_cli.specs.Unmatched.{AreReported, begins_an_address, distinct, prefix_of, unmatched_line, unmatched_lines, unmatched_of, with_new};

use apply_cli_args::Halt;
use apply_plan::{Change, Plan, PlanError, read_plan};
use apply_run::StdSink;
use std::alloc::{AllocError, Global};
use std::io::Write;
use stream_tool::write_whole;
use term_text::push_controls_escaped;

/// Reports each prefix of the halts that no address of the plan begins with, in a line of its own.
/// `plan` is the bytes of the plan. All lines go out in one write.
///
/// Nothing is reported if memory is refused, or if the reader of the output is gone. A failed write
/// is ignored; a front of the lines may be written then.
pub(crate) fn report_unmatched<W: Write + Drop, E: Write>(
    alloc: Global,
    output: &StdSink<W>,
    faults: &mut E,
    halts: &[Halt],
    plan: &[u8],
)
    ensures reported { AreReported (unmatched_of plan.now halts.now) (E.contents faults.old) (E.contents faults.new) }
    ensures gone { output.now.is_reader_gone ≡ true → Keeps (E.contents faults.old) (E.contents faults.new) }
{
    if output.is_reader_gone() {
        return;
    }
    if let Ok(lines) = lines_of(alloc, halts, plan) {
        let _ = write_whole(faults, lines.as_str().as_bytes());
    }
}

/// Returns a line for each prefix of the halts that no address of the plan begins with. The plan is
/// read only if there is a prefix. `Err` if memory is refused.
fn lines_of(alloc: Global, halts: &[Halt], plan: &[u8]) -> Result<String, AllocError>
    ensures { IfOk result (λ lines. string_bytes lines ≡ unmatched_lines (unmatched_of plan.now halts.now)) }
{
    let prefixes = distinct_prefixes(alloc, halts)?;
    if prefixes.is_empty() {
        return Ok(String::new(alloc));
    }
    match read_plan(alloc, plan) {
        Ok(plan) => lines_in(alloc, &prefixes, &plan),
        Err(PlanError::Memory) => Err(AllocError),
        Err(_) => Ok(String::new(alloc)),
    }
}

/// Returns the prefixes of the halts in their order, each once. `Err` if memory is refused.
fn distinct_prefixes(alloc: Global, halts: &[Halt]) -> Result<Vec<&str>, AllocError>
    ensures { IfOk result (λ prefixes. map (λ prefix. prefix.now) prefixes.items ≡ distinct (filter_map prefix_of halts.now)) }
{
    let mut prefixes = Vec::new(alloc);
    for halt in halts {
        if let Halt::Inside(prefix) = halt {
            push_new(&mut prefixes, prefix.as_str())?;
        }
    }
    Ok(prefixes)
}

/// Adds the prefix, unless it is among the prefixes. `Err` if memory is refused.
fn push_new<'a>(prefixes: &mut Vec<&'a str>, prefix: &'a str) -> Result<(), AllocError>
    ensures { OnOk result (map (λ one. one.now) prefixes.new.items ≡ with_new (map (λ one. one.now) prefixes.old.items) prefix.entry.now) }
{
    if !prefixes.contains(&prefix) {
        prefixes.push(prefix)?;
    }
    Ok(())
}

/// Returns a line for each of the prefixes that no address of the plan begins with. `Err` if memory
/// is refused.
fn lines_in(alloc: Global, prefixes: &[&str], plan: &Plan) -> Result<String, AllocError>
    ensures { IfOk result (λ lines. string_bytes lines
        ≡ unmatched_lines (filter (λ prefix. not (begins_an_address plan.now.changes prefix)) (map (λ prefix. prefix.now) prefixes.now))) }
{
    let mut lines = String::new(alloc);
    for prefix in prefixes {
        if !begins_an_address(plan, prefix) {
            push_line(&mut lines, prefix)?;
        }
    }
    Ok(lines)
}

/// Whether the address of some change of the plan begins with the prefix.
fn begins_an_address(plan: &Plan, prefix: &str) -> bool
    ensures { result ≡ begins_an_address plan.now.changes prefix.now }
{
    for number in 0..plan.len() {
        if address_begins(plan.change(number), prefix) {
            return true;
        }
    }
    false
}

/// Whether the address of the change begins with the prefix.
#[tactic(auto, using(std::proofs::lemmas::Str::Pattern::starts_text))]
fn address_begins(change: &Change, prefix: &str) -> bool
    ensures { result ≡ starts_with nat_eq change.now.address prefix.now }
{
    change.address().starts_with(prefix)
}

/// Adds the line that reports a prefix, with control characters escaped. `Err` if memory is
/// refused.
fn push_line(lines: &mut String, prefix: &str) -> Result<(), AllocError>
    ensures { OnOk result (string_bytes lines.new ≡ string_bytes lines.old ++ unmatched_line prefix.now) }
{
    lines.push_str("applystream: --halt-in ")?;
    push_controls_escaped(lines, prefix.as_bytes())?;
    lines.push_str(": no address of the plan begins with it\n")
}
