//! Writes the script of a plan alone.

ghost use Rattle.std.specs.Prelude.{◌≡◌, ◌≤◌, ◌≢◌, Err, IfErr, IfOk, Ok, length, sum_by};
ghost use Rattle.apply_model.specs.Script.Limits.{max_waits};
ghost use Rattle.std.specs.Option.{option_copied};
ghost use Rattle.std.specs.Io.KnownBytes.{Keeps};
ghost use Rattle.input_graph.specs.AllWaits.{lists_in};
ghost use Rattle.stream_record_cli.specs.Alone.{IsRefused, IsScript, IsScriptOf, plan_script};
ghost use Rattle.stream_record_cli.specs.Outcomes.{HasOutcome};
ghost use Rattle.stream_record_cli.specs.declared.record_fault.RecordFault.TheVariants.{Gone};
ghost use Rattle.term_words.specs.MessageTexts.{text_bytes};

use crate::command::planning::plan_in;
use crate::command::waits::graph_waits;
use crate::command::writing::{Texts, write_outcome};
use crate::record_fault::RecordFault;
use crate::refusal::Refusal;
use apply_plan::Plan;
use std::alloc::Global;
use std::io::Write;
use stream_record::{ScriptFault, even_script, script_text};
use stream_tool::Report;
use term_words::MessageText;

/// Writes the script of a plan in which each step takes a second, with the waits that the graph
/// states.
///
/// `plan` and `graph` hold whole inputs, or as many bytes as show that an input is too large.
///
/// The exit status is:
/// - 0 if the script was written.
/// - 2 if a run refuses the plan, if the graph is refused, or if the script would be too large.
/// - 3 if memory was refused, or if `out` could not be written.
///
/// Nothing is written before a refusal. An error is printed to `faults`, unless the reader of `out`
/// is gone.
pub fn record_plan<W: Write, E: Write>(
    alloc: Global,
    plan: &[u8],
    graph: Option<&[u8]>,
    out: &mut W,
    faults: &mut E,
) -> Report<Result<(), RecordFault>>
    ensures came { HasOutcome (IsScript plan.now (option_copied graph.entry)) (IsRefused plan.now (option_copied graph.entry))
        (W.contents out.old) (W.contents out.new) result.status result.answer }
    ensures quiet { result.status ≡ 0 → Keeps (E.contents faults.old) (E.contents faults.new) }
    ensures gone { result.answer ≡ Err Gone → Keeps (E.contents faults.old) (E.contents faults.new) }
    ensures statuses { result.status ≤ 3 }
{
    let made = texts_of(alloc, plan, graph);
    write_outcome(alloc, None, made, out, faults)
}

/// Makes the script, and no warnings. `Err` has `RecordFault::Plan` if a run refuses the plan,
/// `RecordFault::Graph` if the graph is refused, `RecordFault::TooLarge` if the script would be too
/// large, and `RecordFault::Memory` if memory was refused.
fn texts_of(alloc: Global, plan: &[u8], graph: Option<&[u8]>) -> Result<Texts, Refusal>
    ensures ok { IfOk result (λ texts. IsScript plan.now (option_copied graph.entry) (text_bytes texts.script) (text_bytes texts.warnings)) }
    ensures err { IfErr result (λ refusal. IsRefused plan.now (option_copied graph.entry) refusal.fault) }
{
    let script = script_of(alloc, plan, graph)?;
    let warnings = MessageText::new(alloc);
    if !warnings.is_whole() {
        return Err(Refusal::of(RecordFault::Memory));
    }
    Ok(Texts { script, warnings })
}

/// Makes the script. `Err` is as in `texts_of`.
fn script_of(alloc: Global, plan: &[u8], graph: Option<&[u8]>) -> Result<MessageText, Refusal>
    ensures ok { IfOk result (λ text. IsScriptOf plan.now (option_copied graph.entry) (text_bytes text)) }
    ensures err { IfErr result (λ refusal. IsRefused plan.now (option_copied graph.entry) refusal.fault) }
{
    let plan = match plan_in(alloc, plan) {
        Ok(plan) => plan,
        Err(fault) => return Err(Refusal::of(fault)),
    };
    match graph {
        Some(graph) => {
            let waits = graph_waits(alloc, &plan, graph)?;
            Ok(script_with(alloc, &plan, &waits)?)
        }
        None => Ok(script_with(alloc, &plan, &[])?),
    }
}

/// The script of the plan with these waits. `Err` is as in `script_text`.
fn script_with(alloc: Global, plan: &Plan, waits: &[Vec<usize>]) -> Result<MessageText, ScriptFault>
    requires { sum_by length (lists_in waits.now) ≤ max_waits }
    ensures ok { IfOk result (λ text. plan_script plan.now.changes (lists_in waits.now) ≡ Ok (text_bytes text)) }
    ensures err { IfErr result (λ fault. fault ≢ ScriptFault.Memory → plan_script plan.now.changes (lists_in waits.now) ≡ Err fault) }
{
    let script = even_script(alloc, plan, waits)?;
    script_text(alloc, plan, &script, &[], &[])
}
