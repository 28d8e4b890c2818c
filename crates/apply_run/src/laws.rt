//! Laws of runs. Each function does nothing; its contract is the law.

ghost use Rattle.std.specs.Prelude.{◌≡◌, ℕ, List, length};
ghost use Rattle.std.specs.List.{range_with_len};
ghost use Rattle.apply_events.specs.declared.event.Event.{Event};
ghost use Rattle.apply_events.specs.Step.{Work};
ghost use Rattle.apply_events.specs.WorkerEvents.{worker_events};
ghost use Rattle.apply_run.specs.Applied.{IsApplied};

use apply_events::{
    a_partition_for_one_worker_is_all_numbers_in_order, an_interleaving_of_one_worker_is_its_list,
};

/// One worker applies all changes in the plan's order, so that its run has one stream.
pub fn one_worker_applies_all_changes_in_order()
    ensures { (work : Work) (lists : List (List ℕ)) (events : List Event) → IsApplied work 1 lists events
        → events ≡ worker_events work 0 (range_with_len 0 (length work.plan.changes)) }
{
    a_partition_for_one_worker_is_all_numbers_in_order();
    an_interleaving_of_one_worker_is_its_list();
}
