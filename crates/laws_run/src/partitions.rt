//! Laws of partitions of a plan's changes, and of the events of the workers that apply them.
//!
//! Each function does nothing: its contract is the law.

ghost use Rattle.std.specs.Prelude.{All, List, [], length, nat_eq, slice_index_or, sum_by, ℕ, ◌<◌, ◌≡◌, ◌≤◌};
ghost use Rattle.std.specs.List.{IsDistinct};
ghost use Rattle.apply_model.specs.Plan.SavedPlan.{SavedPlan};
ghost use Rattle.apply_events.specs.declared.event.Event.{Event};
ghost use Rattle.apply_events.specs.Interleaving.{IsInterleaving, lists_of, sum_of_totals};
ghost use Rattle.apply_events.specs.Lanes.ToCome.{max_events};
ghost use Rattle.apply_events.specs.Laws.{IsWithinLimits};
ghost use Rattle.apply_events.specs.Partition.{IsPartition};
ghost use Rattle.apply_events.specs.Step.{Work};
ghost use Rattle.apply_events.specs.Totals.{totals_of};
ghost use Rattle.apply_events.specs.WorkerEvents.{worker_events};

/// An interleaving is as long as the lists of all workers together.
pub fn an_interleaving_has_the_summed_length()
    ensures { (workers : ℕ) (list : ℕ → List Event) (events : List Event) → IsInterleaving workers list events
        → length events ≡ sum_by length (lists_of workers list) }
{}

/// The totals of an interleaving are the sums of the workers' totals.
pub fn totals_of_an_interleaving_add_up()
    ensures { (plan : SavedPlan) (workers : ℕ) (list : ℕ → List Event) (events : List Event)
        → IsInterleaving workers list events → totals_of plan events ≡ sum_of_totals plan (lists_of workers list) }
{}

/// A run of a plan and a script that were read has at most 189,180,000 events. The hooks do not
/// matter.
pub fn changes_that_are_dealt_out_have_few_events()
    ensures { (work : Work) (workers : ℕ) (lists : List (List ℕ)) (events : List Event) → IsWithinLimits work
        → IsPartition workers (length work.plan.changes) lists
        → IsInterleaving workers (λ worker. worker_events work worker (slice_index_or lists worker [])) events
        → length events ≤ max_events }
{}

/// The list of a worker in a partition names numbers below the limit, and each number once.
pub fn a_list_of_a_partition_names_each_number_once()
    ensures { (workers limit worker : ℕ) (lists : List (List ℕ)) → IsPartition workers limit lists → worker < workers
        → All (λ number. number < limit) (slice_index_or lists worker [])
        × IsDistinct nat_eq (slice_index_or lists worker []) }
{}

/// For any limit there is a partition, if there is at least one worker.
pub fn numbers_can_be_dealt_out()
    ensures { (workers limit : ℕ) → 0 < workers → (lists : List (List ℕ)) × IsPartition workers limit lists }
{}
