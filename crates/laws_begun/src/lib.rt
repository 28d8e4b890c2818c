//! Laws of how `record` follows steps: of the events of a run, it knows each step by its own.
//!
//! Each function does nothing, or calls the laws that its own law follows from: its contract is the
//! law. No program links this crate.
#![tactic(auto)]

ghost use Rattle.std.specs.Prelude.{◌≡◌, ◌<◌, [], All, List, Option, ℕ, ℤ};
ghost use Rattle.std.specs.List.{Contains};
ghost use Rattle.apply_events.specs.declared.event.Event.{Event};
ghost use Rattle.apply_events.specs.Step.{Work};
ghost use Rattle.apply_events.specs.Waits.TimeLine.{IsTimeLine};
ghost use Rattle.apply_run.specs.Bytes.{Inputs, IsRead};
ghost use Rattle.apply_text.specs.Order.{hook_messages_of};
ghost use Rattle.laws_run.specs.WaitingSteps.{has_events};
ghost use Rattle.stream_record_steps.specs.Begun.{Begun, begun_at, none_begun};
ghost use Rattle.stream_record_steps.specs.Steps.{PlannedStep, planned_steps};
ghost use Rattle.laws_begun.specs.Followed.{AreFollowed, AreWhole, HasAddressesApart};
ghost use Rattle.laws_begun.specs.Runs.{HasEnd, IsFollowable};
ghost use Rattle.laws_begun.specs.Telling.{Telling, after_events};
ghost use Rattle.laws_begun.specs.Went.{IsKnownAsItWent};

use laws_run::{
    a_step_begins_exactly_where_its_waits_are_done, a_step_comes_after_what_it_waits_for,
    steps_are_whole,
};

/// The events of whole steps, told line by line from the line `first` on, are followed: of each step
/// `record` knows its own lines, when it began and how it ended.
///
/// No start is of no step of the plan, and no line is of no step that is under way.
pub fn each_step_is_known_by_its_own_lines()
    ensures { (telling : Telling) (first : ℕ) (start : ℤ) (events : List Event) (begun : Begun)
        → AreWhole telling.plan events
        → begun ≡ after_events telling start first events (none_begun (planned_steps telling.plan.changes))
        → AreFollowed telling start first events begun }
{}

/// The hook messages of a run in lanes are those of whole steps: the run has no hooks, no address
/// stands twice among changes with steps, and each step that begins has its end.
pub fn hook_messages_of_a_run_are_of_whole_steps()
    ensures { (work : Work) (lanes : ℕ) (events : List Event) → 0 < lanes → IsFollowable work events
        → IsTimeLine work lanes events → AreWhole work.plan (hook_messages_of events) }
{
    steps_are_whole();
    a_step_comes_after_what_it_waits_for();
    a_step_begins_exactly_where_its_waits_are_done();
}

/// A run without hooks of a plan and a script that were read can be followed, if no address stands
/// twice among changes with steps, and each step that begins has its end.
pub fn a_run_of_what_was_read_can_be_followed()
    ensures { (given : Inputs) (work : Work) (events : List Event) → IsRead given work.plan work.script
        → work.hooks ≡ [] → HasAddressesApart work.plan
        → All (λ event. HasEnd work event.change event.step) events → IsFollowable work events }
{}

/// By the hook messages of such a run, `record` knows each step as it went: what it did with the
/// outcome of the script, and after how many seconds. Of a step without events it knows nothing.
pub fn each_step_of_a_run_is_known_as_it_went()
    ensures { (work : Work) (lanes : ℕ) (events : List Event) (id : (change step : ℕ) → Option (List ℕ)) (first : ℕ)
        (start : ℤ) (begun : Begun) → 0 < lanes → IsFollowable work events → IsTimeLine work lanes events
        → begun ≡ after_events (record { plan = work.plan; script = work.script; id = id }) start first
        (hook_messages_of events) (none_begun (planned_steps work.plan.changes))
        → (step : PlannedStep) → Contains (planned_steps work.plan.changes) step
        → IsKnownAsItWent (record { plan = work.plan; script = work.script; id = id }) step
        (has_events events (record { change = step.change_number; step = step.number })) (begun_at begun.by_step step.place) }
{
    each_step_is_known_by_its_own_lines();
    hook_messages_of_a_run_are_of_whole_steps();
    steps_are_whole();
}
