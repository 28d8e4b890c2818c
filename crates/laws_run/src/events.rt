//! Laws of the events of a change, of a worker and of a time line.
//!
//! Each function does nothing, or calls the laws that its own law follows from: its contract is the
//! law.

ghost use Rattle.std.specs.Prelude.{All, IfSome, List, Some, [], count_by, length, slice_get, slice_index_or, ℕ, ◌++◌, ◌+◌, ◌<◌, ◌≡◌, ◌≢◌, ◌≤◌, None, map};
ghost use Rattle.std.specs.List.Sorted.{IsNonDecreasingBy};
ghost use Rattle.apply_model.specs.Script.OutcomeMap.{first_skipped, outcome_of};
ghost use Rattle.apply_hooks.specs.Hooks.{max_hooks};
ghost use Rattle.apply_events.specs.declared.event.Event.{Event};
ghost use Rattle.apply_events.specs.ChangeEvents.{change_events, span_of};
ghost use Rattle.apply_events.specs.Fits.{HasStep, IsApplied, latest_second, max_span};
ghost use Rattle.apply_events.specs.Interleaving.{IsInterleaving};
ghost use Rattle.apply_events.specs.Laws.{AllFit, IsWithinLimits, NamesEachOnce, ends_step};
ghost use Rattle.apply_events.specs.OfWorker.{of_worker};
ghost use Rattle.apply_events.specs.Step.{Work, kinds_of, step_of, steps_of};
ghost use Rattle.apply_events.specs.Waits.TimeLine.{IsTimeLine};
ghost use Rattle.apply_events.specs.WorkerEvents.{worker_events};
ghost use Rattle.std.specs.List.{enumerate_from};
ghost use Rattle.apply_model.specs.declared.plan.step_kind.StepKind.{StepKind};
ghost use Rattle.apply_events.specs.StepEvents.{step_events};
ghost use Rattle.laws_run.specs.PlainSteps.{IsPlain, plain_events};

use crate::{
    a_step_begins_exactly_where_its_waits_are_done, a_time_line_has_few_events, steps_are_whole,
};

/// The times of a change's events never fall.
pub fn times_of_a_change_never_fall()
    ensures { (work : Work) (worker c at : ℕ)
        → IsNonDecreasingBy (λ (event : Event). event.at) (change_events work worker c at) }
{}

/// No event of a change comes after the end of the change's span.
pub fn a_change_ends_with_its_span()
    ensures { (work : Work) (worker c at : ℕ)
        → All (λ (event : Event). event.at ≤ at + span_of work c) (change_events work worker c at) }
{}

/// The first event of a change is at the start of the change.
pub fn a_change_starts_with_its_first_event()
    ensures { (work : Work) (worker c at : ℕ)
        → IfSome (slice_get (change_events work worker c at) 0) (λ event. event.at ≡ at) }
{}

/// A step completes or fails at most once.
pub fn a_step_ends_at_most_once()
    ensures { (work : Work) (worker c at k : ℕ) → count_by (ends_step k) (change_events work worker c at) ≤ 1 }
{}

/// After an event of a step comes no event of an earlier step of the same change.
pub fn steps_of_a_change_come_in_order()
    ensures { (work : Work) (worker c at : ℕ)
        → IsNonDecreasingBy (λ (event : Event). event.step) (change_events work worker c at) }
{}

/// A worker's events in two lists joined are its events in the first, then its events in the
/// second.
pub fn events_of_a_worker_concatenate()
    ensures { (worker : ℕ) (first second : List Event)
        → of_worker worker (first ++ second) ≡ of_worker worker first ++ of_worker worker second }
{}

/// Each event of a worker names that worker.
pub fn each_event_of_a_worker_names_it()
    ensures { (work : Work) (worker : ℕ) (changes : List ℕ)
        → of_worker worker (worker_events work worker changes) ≡ worker_events work worker changes }
{}

/// No event comes after `LATEST`, if the plan and the script were read and no change is named
/// twice.
pub fn no_event_comes_after_latest()
    ensures { (work : Work) (worker : ℕ) (changes : List ℕ) → IsWithinLimits work → NamesEachOnce work changes
        → All (λ (event : Event). event.at ≤ latest_second) (worker_events work worker changes) }
{}

/// Each event of a worker is of a step of the plan, even if the worker's list names changes that
/// the plan lacks.
pub fn every_event_is_of_a_step_of_the_plan()
    ensures { (work : Work) (worker : ℕ) (changes : List ℕ)
        → All (λ (event : Event). HasStep work.plan event.change event.step) (worker_events work worker changes) }
{}

/// Each event can happen, if the plan and the script were read and there are at most 32 hooks.
///
/// `of_change`: the change starts at least two days before `LATEST`. `of_worker`: no change is
/// named twice.
pub fn every_event_can_happen()
    ensures of_change { (work : Work) (worker c at : ℕ) → IsWithinLimits work → length work.hooks ≤ max_hooks
        → at + max_span ≤ latest_second → AllFit work (change_events work worker c at) }
    ensures of_worker { (work : Work) (worker : ℕ) (changes : List ℕ) → IsWithinLimits work → length work.hooks ≤ max_hooks
        → NamesEachOnce work changes → AllFit work (worker_events work worker changes) }
{}

/// Each event of a time line can happen, whether steps wait for others or not. The plan and the
/// script were read, and there are at most 32 hooks.
pub fn every_event_of_a_time_line_can_happen()
    ensures { (work : Work) (n : ℕ) (events : List Event) → 0 < n → IsWithinLimits work → length work.hooks ≤ max_hooks
        → IsTimeLine work n events → AllFit work events }
{
    steps_are_whole();
    a_time_line_has_few_events();
}

/// No event is of a step that is skipped, or of a step after a skipped step in the same change.
///
/// `by_workers`: in any interleaving of workers. `in_lanes`: in a time line. `of_the_change`: a
/// change has no events if its first step is skipped.
pub fn skipped_steps_have_no_events()
    ensures by_workers { (work : Work) (workers : ℕ) (lists : List (List ℕ)) (events : List Event)
        → IsInterleaving workers (λ worker. worker_events work worker (slice_index_or lists worker [])) events
        → All (λ event. IsApplied work.plan work.script event.change event.step) events }
    ensures in_lanes { (work : Work) (n : ℕ) (events : List Event) → IsTimeLine work n events
        → All (λ event. IsApplied work.plan work.script event.change event.step) events }
    ensures of_the_change { (work : Work) (c : ℕ) (events : List Event) → first_skipped work.script c ≡ Some 0
        → All (λ event. IsApplied work.plan work.script event.change event.step) events
        → All (λ event. event.change ≢ c) events }
{
    a_step_begins_exactly_where_its_waits_are_done();
}

/// The span of a change is at most two days, if the plan and the script were read.
pub fn a_change_takes_at_most_two_days()
    ensures { (work : Work) (c : ℕ) → IsWithinLimits work → span_of work c ≤ max_span }
{}

/// A step without the newer members of a script has the events of a definition that knows none of
/// these members.
///
/// `steps`: without `skipped`, all steps of a change are applied. `events`: the newer members are
/// `on_failure`, `severity`, outputs with `after`, and provisioners of a delete.
pub fn a_step_without_newer_members_has_plain_events()
    ensures steps { (work : Work) (c : ℕ) → first_skipped work.script c ≡ None
        → steps_of work c ≡ map (λ p. step_of work c p.0 p.1) (enumerate_from 0 (kinds_of work.plan c)) }
    ensures events { (work : Work) (c k worker at : ℕ) (kind : StepKind) → IsPlain kind (outcome_of work.script c k)
        → step_events worker (step_of work c k kind) at ≡ plain_events worker (step_of work c k kind) (outcome_of work.script c k) at }
{}
