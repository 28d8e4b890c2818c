//! The waits of a recorded script.

ghost use Rattle.std.specs.Prelude.{◌≡◌, ◌≢◌, ◌+◌, ◌<◌, ◌≤◌, ◌↔◌, ◌^◌, IfErr, IfOk, IsTrue, MatchOption, None, Some, length};
ghost use Rattle.std.specs.List.{sum_by};
ghost use Rattle.std.specs.Option.{ForSome};
ghost use Rattle.stream_record_waits.specs.declared.waits_fault.WaitsFault.TheVariants.{Memory};
ghost use Rattle.stream_record_waits.specs.Behind.{AreBehind};
ghost use Rattle.stream_record_waits.specs.Basis.{IsSound, basis_of};
ghost use Rattle.stream_record_waits.specs.Course.{pinned_waits};
ghost use Rattle.stream_record_waits.specs.Graph.{AreWaitsOf, count_of};
ghost use Rattle.stream_record_waits.specs.Recorded.{AreRecordedWaits, AreSoundWaits, HasTooMany, graph_in, max_waits};
ghost use Rattle.stream_record_waits.specs.States.{states_of};
ghost use Rattle.stream_record_waits.specs.Steps.{lists_in};

use crate::basis::StepBasis;
use crate::behind::steps_behind;
use crate::choices::Choices;
use crate::found_waits::FoundWaits;
use crate::graph_waits::graph_waits;
use crate::guess::waits_without_graph;
use crate::joined::{joined_by_graph, joined_by_lines};
use crate::limits::MAX_WAITS;
use crate::no_waits::no_waits;
use crate::pins::with_pins;
use crate::schedule::schedule;
use crate::states::states_of;
use crate::step_of_plan::StepOfPlan;
use crate::step_state::StepState;
use crate::waits_fault::WaitsFault;
use std::alloc::{AllocError, Global};

/// What each step of a recorded script waits for, by number.
#[derive(Debug, Drop)]
pub struct RecordedWaits {
    /// How the script states each step.
    pub states: Vec<StepState>,
    /// The numbers of the steps that each step waits for, in their order.
    pub after: Vec<Vec<usize>>,
    /// With a graph: the numbers of the steps for which each step waits in the graph, and which had
    /// begun but were not done when it began. They are in their order.
    pub early: Vec<Vec<usize>>,
}

/// What each step of a recorded script waits for, and which steps are skipped. `graph` has the waits
/// of each step by number, where there is a graph.
///
/// `Err` is one of these:
/// - `WaitsFault::TooMany`: there are more than 1,000,000 waits, with those of `early`.
/// - `WaitsFault::Memory`: memory was refused.
pub fn recorded_waits(
    alloc: Global,
    steps: &[StepOfPlan],
    graph: Option<&[Vec<usize>]>,
    choices: Choices,
) -> Result<RecordedWaits, WaitsFault>
    requires few { length steps.now ≤ 2 ^ 24 }
    requires lanes { 0 < choices.lanes }
    requires graph { ForSome (graph_in graph) (λ lists. AreWaitsOf (length steps.now) lists) }
    ensures waits { IfOk result (λ waits. AreRecordedWaits steps.now (graph_in graph.entry) choices (lists_in waits.after.items) (lists_in waits.early.items)) }
    ensures states { IfOk result (λ waits. waits.states.items ≡ states_of steps.now (lists_in waits.after.items)) }
    ensures sound { IfOk result (λ waits. AreSoundWaits steps.now (lists_in waits.after.items)) }
    ensures most { IfOk result (λ waits. count_of (lists_in waits.after.items) (lists_in waits.early.items) ≤ max_waits) }
    ensures err { IfErr result (λ fault. fault ≢ Memory → HasTooMany steps.now (graph_in graph.entry) choices) }
{
    let behind = steps_behind(alloc, steps)?;
    let waits = match graph {
        Some(graph) => by_graph(alloc, steps, graph, behind.as_slice(), choices)?,
        None => by_lines(alloc, steps, behind.as_slice(), choices)?,
    };
    if !are_few(&waits) {
        return Err(WaitsFault::TooMany);
    }
    let states = states_of(alloc, steps, waits.after.as_slice())?;
    Ok(RecordedWaits {
        states,
        after: waits.after,
        early: waits.early,
    })
}

/// The waits with a graph.
fn by_graph(
    alloc: Global,
    steps: &[StepOfPlan],
    graph: &[Vec<usize>],
    behind: &[Option<usize>],
    choices: Choices,
) -> Result<FoundWaits, WaitsFault>
    requires few { length steps.now ≤ 2 ^ 24 }
    requires lanes { 0 < choices.lanes }
    requires graph { AreWaitsOf (length steps.now) (lists_in graph.now) }
    requires behind { AreBehind steps.now behind.now }
    ensures waits { IfOk result (λ waits. AreRecordedWaits steps.now (Some (lists_in graph.now)) choices (lists_in waits.after.items) (lists_in waits.early.items)) }
    ensures sound { IfOk result (λ waits. AreSoundWaits steps.now (lists_in waits.after.items)) }
    ensures err { IfErr result (λ fault. fault ≢ Memory → HasTooMany steps.now (Some (lists_in graph.now)) choices) }
{
    let found = graph_waits(alloc, steps, graph)?;
    if !choices.begins {
        return Ok(found);
    }
    let joined = joined_by_graph(alloc, steps, found.after.as_slice())?;
    let basis = StepBasis {
        steps,
        after: found.after.as_slice(),
        joined: joined.as_slice(),
        behind,
    };
    let after = pinned_waits(alloc, &basis, choices.lanes)?;
    Ok(FoundWaits {
        after,
        early: found.early,
    })
}

/// The waits without a graph. `Err` where memory is refused.
fn by_lines(
    alloc: Global,
    steps: &[StepOfPlan],
    behind: &[Option<usize>],
    choices: Choices,
) -> Result<FoundWaits, AllocError>
    requires few { length steps.now ≤ 2 ^ 24 }
    requires lanes { 0 < choices.lanes }
    requires behind { AreBehind steps.now behind.now }
    ensures waits { IfOk result (λ waits. AreRecordedWaits steps.now None choices (lists_in waits.after.items) (lists_in waits.early.items)) }
    ensures sound { IfOk result (λ waits. AreSoundWaits steps.now (lists_in waits.after.items)) }
{
    let found = waits_without_graph(alloc, steps, behind, choices.guesses)?;
    let joined = joined_by_lines(alloc, steps)?;
    let basis = StepBasis {
        steps,
        after: found.as_slice(),
        joined: joined.as_slice(),
        behind,
    };
    let after = pinned_waits(alloc, &basis, choices.lanes)?;
    let early = no_waits(alloc, steps.len())?;
    Ok(FoundWaits { after, early })
}

/// The waits with those of the steps that the schedule puts back. `Err` where memory is refused.
fn pinned_waits(
    alloc: Global,
    basis: &StepBasis<'_>,
    lanes: u8,
) -> Result<Vec<Vec<usize>>, AllocError>
    requires sound { IsSound (basis_of basis.now) }
    requires lanes { 0 < lanes }
    ensures { IfOk result (λ waits. lists_in waits.items ≡ pinned_waits (basis_of basis.now) lanes) }
{
    let course = schedule(alloc, basis, lanes)?;
    with_pins(alloc, basis, &course)
}

/// Whether there are at most 1,000,000 waits.
fn are_few(waits: &FoundWaits) -> bool
    ensures { IsTrue result ↔ (count_of (lists_in waits.now.after.items) (lists_in waits.now.early.items) ≤ max_waits) }
{
    match room_after(waits.after.as_slice(), MAX_WAITS) {
        Some(room) => room_after(waits.early.as_slice(), room).is_some(),
        None => false,
    }
}

/// How many more waits there may be than in these lists. `None` where the lists alone have too
/// many.
fn room_after(lists: &[Vec<usize>], limit: usize) -> Option<usize>
    ensures { MatchOption result (limit < sum_by length (lists_in lists.now)) (λ room. room + sum_by length (lists_in lists.now) ≡ limit) }
{
    let mut room = limit;
    for list in lists {
        let len = list.len();
        if len > room {
            return None;
        }
        room -= len;
    }
    Some(room)
}
