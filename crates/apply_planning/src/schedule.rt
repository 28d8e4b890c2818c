//! The schedule of a planning: which told object begins when, and in which lane.
//!
//! Every `Err` means that memory was refused.

ghost use Rattle.std.specs.Prelude.{◌≡◌, ◌⊎◌, ◌<◌, ◌≤◌, ℕ, All, IfOk, List, get_or, length, slice_index_or, true};
ghost use Rattle.std.specs.List.{Contains};
ghost use Rattle.apply_events.specs.Waits.Done.{end_of_turn};
ghost use Rattle.apply_events.specs.declared.lanes.turn.StartedTurn.{StartedTurn};
ghost use Rattle.apply_planning.specs.Begun.{HasBegun};
ghost use Rattle.apply_planning.specs.PlanningWork.{max_seconds_in_all, planning_work};
ghost use Rattle.apply_planning.specs.Schedule.{is_lost_of};

use crate::begins::begins;
use crate::planning_events::PlanningEvents;
use crate::told::Told;
use apply_events::StartedTurn;
use std::alloc::{AllocError, Global};

/// The schedule of a planning.
#[derive(Drop)]
pub struct Schedule {
    /// The objects that the lanes begin, in the order in which they begin.
    started: Vec<StartedTurn>,
    /// For each told object, whether it fails with an error, or never begins.
    lost: Vec<bool>,
    /// The greatest second of an event.
    ends_at: u64,
    lanes: u8,
}

impl Schedule {
    ghost use Rattle.apply_events.specs.Waits.Merging.{time_line};
    ghost use Rattle.apply_planning.specs.PendingNames.{max_told};
    ghost use Rattle.apply_planning.specs.PlanningWork.{seconds_in_all};
    ghost use Rattle.apply_planning.specs.Schedule.{IsScheduleOf, is_lost, last_second};
    ghost use Rattle.apply_planning.specs.ToCome.{to_come, told_of};
    ghost use Rattle.apply_planning.specs.declared.told.Told.{Told};

    /// The schedule of these objects in so many lanes. They are at most 67,108,864, and take at
    /// most 864,000,000 seconds together.
    pub fn new(alloc: Global, told: &[Told], lanes: u8) -> Result<Schedule, AllocError>
        requires some { 0 < lanes }
        requires few { length told.now ≤ max_told }
        requires short { seconds_in_all told.now ≤ max_seconds_in_all }
        ensures planned { IfOk result (λ schedule. IsScheduleOf told.now schedule) }
        ensures lanes { IfOk result (λ schedule. schedule.lanes ≡ lanes) }
    {
        let started = begins(alloc, told, lanes)?;
        let lost = lost_of(alloc, told, &started)?;
        let ends_at = end_of(told, &started);
        Ok(Schedule {
            started,
            lost,
            ends_at,
            lanes,
        })
    }

    /// The events of the objects in the order of time. The objects are those of the schedule.
    pub fn events<'a>(
        &'a self,
        alloc: Global,
        told: &'a [Told],
    ) -> Result<PlanningEvents<'a>, AllocError>
        requires { IsScheduleOf told.now self.now }
        ensures events { IfOk result (λ events. to_come events ≡ time_line (planning_work told.now) self.now.lanes) }
        ensures told { IfOk result (λ events. told_of events ≡ told.now) }
    {
        PlanningEvents::new(alloc, told, &self.started, self.lanes)
    }

    /// The greatest second of an event. It is 0 where there is none, and at most 864,000,000.
    pub fn ends_at(&self) -> u64
        ensures end { (told : List Told) → IsScheduleOf told self.now → result ≡ last_second (time_line (planning_work told) self.now.lanes) }
        ensures in_time { (told : List Told) → IsScheduleOf told self.now → result ≤ max_seconds_in_all }
    {
        self.ends_at
    }

    /// Whether the object of that number fails with an error, or never begins because it waits for
    /// one that fails. Objects in a circle never begin either.
    pub fn is_lost(&self, number: u32) -> bool
        ensures { (told : List Told) → IsScheduleOf told self.now → number < length told
            → result ≡ is_lost told self.now.lanes number }
    {
        match self.lost.get(number as usize) {
            Some(lost) => *lost,
            None => true,
        }
    }
}

/// For each told object, whether it fails with an error, or did not begin.
fn lost_of(alloc: Global, told: &[Told], started: &[StartedTurn]) -> Result<Vec<bool>, AllocError>
    requires { All (HasBegun told.now) started.now }
    ensures size { IfOk result (λ lost. length lost.items ≡ length told.now) }
    ensures lost { IfOk result (λ lost. (number : ℕ) → number < length told.now → slice_index_or lost.items number true ≡ is_lost_of told.now started.now number) }
{
    let mut lost = vec![in alloc; true; told.len()]?;
    for place in 0..started.len() {
        let number = started[place].turn.change as usize;
        lost[number] = told[number].fails();
    }
    Ok(lost)
}

/// The last second at which one of these objects ends, or 0 where there is none.
fn end_of(told: &[Told], started: &[StartedTurn]) -> u64
    requires { All (HasBegun told.now) started.now }
    ensures low { (place : ℕ) (default : StartedTurn) → place < length started.now → (end_of_turn (planning_work told.now) (get_or started.now place default)).second ≤ result }
    ensures in_time { result ≤ max_seconds_in_all }
    ensures met { (result ≡ 0) ⊎ ((one : StartedTurn) × Contains started.now one × ((end_of_turn (planning_work told.now) one).second ≡ result)) }
{
    let mut ends = 0;
    for place in 0..started.len() {
        let turn = started[place];
        let end = turn.begin.second + told[turn.turn.change as usize].seconds as u64;
        ends = ends.max(end);
    }
    ends
}
