//! Laws of time lines: what decides which steps begin, when, and in which lane.
//!
//! Each function does nothing: its contract is the law. No program links this crate.
#![tactic(auto)]

ghost use Rattle.std.specs.Prelude.{◌≡◌, ◌<◌, ◌==◌, ◌&&◌, ◌⊎◌, ℕ, List, None, false, true};
ghost use Rattle.std.specs.List.{list_any};
ghost use Rattle.apply_model.specs.Script.Outcome.{fails};
ghost use Rattle.apply_model.specs.Script.OutcomeMap.{outcome_of};
ghost use Rattle.apply_events.specs.Step.{Work};
ghost use Rattle.apply_events.specs.Waits.Done.{done_at};
ghost use Rattle.apply_events.specs.Waits.Schedule.{schedule};
ghost use Rattle.apply_events.specs.Waits.TimeLine.{IsTimeLine};
ghost use Rattle.apply_events.specs.declared.event.Event.{Event};
ghost use Rattle.laws_lanes.specs.Alike.{GoesAlike, hooks_of, is_begun};

/// Two works of one plan, without hooks, have the same messages but for diagnostics, at the same
/// times and in the same lanes, where each step that begins in the first goes alike in the second,
/// and no other step can begin there.
pub fn works_that_go_alike_have_the_same_hook_messages()
    ensures { (work other : Work) (lanes : ℕ) (events : List Event) → GoesAlike work other lanes
        → IsTimeLine work lanes events
        → (others : List Event) × IsTimeLine other lanes others
        × (hooks_of others ≡ hooks_of events) }
{}

/// The steps that begin are those with events.
pub fn steps_with_events_are_those_that_begin()
    ensures { (work : Work) (lanes : ℕ) (events : List Event) (c k : ℕ) → 0 < lanes
        → IsTimeLine work lanes events
        → is_begun work (schedule work lanes) c k
        ≡ list_any (λ event. event.change == c && event.step == k) events }
{}

/// A step that does not begin, or fails, is never done.
pub fn a_step_that_fails_is_never_done()
    ensures { (work : Work) (lanes c k : ℕ)
        → (is_begun work (schedule work lanes) c k ≡ false)
        ⊎ (fails (outcome_of work.script c k) ≡ true)
        → done_at work (schedule work lanes) (record { change = c; step = k }) ≡ None }
{}
