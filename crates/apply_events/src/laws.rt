//! Laws of lists of events. Each function does nothing; its contract is the law.

ghost use Rattle.std.specs.Prelude.{◌≡◌, ◌+◌, ◌<◌, ◌++◌, ◌∷◌, [], ℕ, All, List, None, Some, map, sum_by, true};
ghost use Rattle.std.specs.List.{enumerate_from};
ghost use Rattle.apply_model.specs.declared.script.provisioner.Provisioner.{Provisioner};
ghost use Rattle.apply_model.specs.Plan.SavedPlan.{SavedPlan};
ghost use Rattle.apply_model.specs.Script.Outcome.{are_in_time};
ghost use Rattle.apply_model.specs.Script.OutcomeMap.{first_skipped};
ghost use Rattle.apply_events.specs.declared.event.Event.{Event};
ghost use Rattle.apply_events.specs.ChangeEvents.{change_events, span_of};
ghost use Rattle.apply_events.specs.Fits.{IsApplied};
ghost use Rattle.apply_events.specs.Interleaving.{IsInterleaving};
ghost use Rattle.apply_events.specs.Laws.{emitted_in_time};
ghost use Rattle.apply_events.specs.Provisions.{provision_end, emitted_by};
ghost use Rattle.apply_events.specs.Step.{Work, kinds_of, step_of, steps_of};
ghost use Rattle.apply_events.specs.Totals.{plus, totals_of};
ghost use Rattle.apply_events.specs.Waits.Merging.{time_line};
ghost use Rattle.apply_events.specs.Waits.TimeLine.{IsTimeLine};
ghost use Rattle.apply_events.specs.WorkerEvents.{worker_events};

/// The totals of two joined lists are the sums of their totals.
pub fn totals_of_joined_lists_add_up()
    ensures { (plan : SavedPlan) (first second : List Event)
        → totals_of plan (first ++ second) ≡ plus (totals_of plan first) (totals_of plan second) }
{}

/// A further change adds its events after the others, from the end of the other changes on.
pub fn a_further_change_comes_after()
    ensures { (work : Work) (worker c : ℕ) (changes : List ℕ)
        → worker_events work worker (changes ++ c ∷ []) ≡ worker_events work worker changes
        ++ change_events work worker c (sum_by (span_of work) changes) }
{}

/// No event of a worker is of a skipped step, or of a step after one.
pub fn no_event_is_of_a_skipped_step()
    ensures { (work : Work) (worker : ℕ) (changes : List ℕ)
        → All (λ event. IsApplied work.plan work.script event.change event.step) (worker_events work worker changes) }
{}

/// A change whose first step is skipped has no event.
pub fn a_change_whose_first_step_is_skipped_has_no_event()
    ensures { (work : Work) (worker c at : ℕ) → first_skipped work.script c ≡ Some 0 → change_events work worker c at ≡ [] }
{}

/// If no step of a change is skipped, all steps that the plan has are applied.
pub fn where_no_step_is_skipped_all_are_applied()
    ensures { (work : Work) (c : ℕ) → first_skipped work.script c ≡ None
        → steps_of work c ≡ map (λ p. step_of work c p.0 p.1) (enumerate_from 0 (kinds_of work.plan c)) }
{}

/// Outputs of a provisioner that come in time come at their own seconds. Progress of the same
/// second comes before them.
pub fn outputs_in_time_come_at_their_seconds()
    ensures { (d i since : ℕ) (p : Provisioner) → are_in_time 0 p.seconds p.output ≡ true
        → emitted_by d since i 0 since (since + p.seconds) (provision_end i p) p.output
        ≡ emitted_in_time d since i 0 since (since + p.seconds) (provision_end i p) p.output }
{}

/// The interleaving of one worker's list is that list.
pub fn an_interleaving_of_one_worker_is_its_list()
    ensures { (list : ℕ → List Event) (events : List Event) → IsInterleaving 1 list events → events ≡ list 0 }
{}

/// Every work has a time line, for example `time_line`.
pub fn there_is_a_time_line()
    ensures { (work : Work) (n : ℕ) → 0 < n → IsTimeLine work n (time_line work n) }
{}
