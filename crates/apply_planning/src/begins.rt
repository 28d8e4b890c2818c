//! Which told object begins when, and in which lane.
//!
//! Every `Err` means that memory was refused.

ghost use Rattle.std.specs.Prelude.{◌≡◌, ◌+◌, ◌*◌, ◌<◌, ◌≤◌, ◌^◌, ℕ, IfOk, List, Option, length, reverse};
ghost use Rattle.apply_events.specs.Waits.LaneTime.{later_by};
ghost use Rattle.apply_events.specs.Waits.Queue.{IsQueue};
ghost use Rattle.apply_events.specs.Waits.Schedule.{schedule};
ghost use Rattle.apply_events.specs.Waits.Turn.{single};
ghost use Rattle.apply_events.specs.declared.lanes.lane_time.LaneTime.{LaneTime};
ghost use Rattle.apply_model.specs.declared.script.wait.Wait.{Wait};
ghost use Rattle.apply_planning.specs.PendingNames.{ArePending, IsPlanned, done_with, max_told, named_done};
ghost use Rattle.apply_planning.specs.PlanningWork.{max_seconds_in_all, planning_work, seconds_in_all};
ghost use Rattle.apply_planning.specs.declared.told.Told.{Told};

use crate::names::Names;
use crate::pending_names::PendingNames;
use crate::queue::queue_of;
use crate::told::Told;
use apply_events::{LaneTime, Queue, StartedTurn, Turn, first_earliest};
use std::alloc::{AllocError, Global};

/// The most told objects.
pub const MAX_TOLD: usize = 67_108_864;

/// The told objects that begin in so many lanes, in the order in which they begin.
pub(crate) fn begins(
    alloc: Global,
    told: &[Told],
    lanes: u8,
) -> Result<Vec<StartedTurn>, AllocError>
    requires some { 0 < lanes }
    requires few { length told.now ≤ max_told }
    requires short { seconds_in_all told.now ≤ max_seconds_in_all }
    ensures { IfOk result (λ started. reverse started.items ≡ schedule (planning_work told.now) lanes) }
{
    let names = Names::new(alloc, told)?;
    let mut queue = queue_of(alloc, told, &names)?;
    let mut pending = PendingNames::new(alloc, told, &names)?;
    let mut free = vec![in alloc; LaneTime::first(); lanes as usize]?;
    let mut all = Vec::with_capacity(alloc, told.len())?;
    while all.len() < told.len() {
        let Some(ready) = queue.take() else {
            return Ok(all);
        };
        let lane = first_earliest(&free);
        let begin = ready.at.later_of(free[lane]);
        all.push(started(ready.number, lane as u8, begin))?;
        free[lane] = run(
            &told[ready.number as usize],
            ready.number,
            begin,
            &mut pending,
            &mut queue,
        )?;
    }
    Ok(all)
}

/// The only turn of a told object, with its begin in a lane.
fn started(number: u32, lane: u8, begin: LaneTime) -> StartedTurn
    ensures { result ≡ record { turn = single number 0; lane = lane; begin = begin } }
{
    let turn = Turn {
        change: number,
        first: 0,
        count: 1,
    };
    StartedTurn { turn, lane, begin }
}

/// Runs a told object, and returns when it ends. Unless it fails, it is done then.
fn run(
    one: &Told,
    number: u32,
    begin: LaneTime,
    pending: &mut PendingNames,
    queue: &mut Queue,
) -> Result<LaneTime, AllocError>
    requires second { begin.second + one.now.seconds < 2 ^ 64 }
    requires round { begin.round ≤ max_told }
    requires known { (told : List Told) × (done : Wait → Option LaneTime) × (names : List (List Wait)) × (numbers : List ℕ)
        × IsPlanned told done names numbers number pending.old queue.old }
    ensures end { IfOk result (λ end. end ≡ later_by one.now.seconds begin) }
    ensures planned { IfOk result (λ end. (told : List Told) (done : Wait → Option LaneTime) (names : List (List Wait)) (numbers : List ℕ)
        → IsPlanned told done names numbers number pending.old queue.old
        → ArePending told (done_with one.now.failure number end done) pending.new × IsQueue (2 * length told) names (named_done pending.new) numbers queue.new) }
{
    let end = begin.later_by(one.seconds);
    if one.fails() {
        return Ok(end);
    }
    if let Some((name, at)) = pending.close(number, end) {
        queue.complete(name, at)?;
    }
    Ok(end)
}
