//! Laws of numbers that are dealt out. Each function does nothing; its contract is the law.

ghost use Rattle.std.specs.Prelude.{◌≡◌, ◌<◌, ◌≤◌, ◌++◌, ◌∷◌, [], ℕ, All, List, length};
ghost use Rattle.std.specs.List.{range_with_len};
ghost use Rattle.std.specs.List.Sorted.{IsStrictlyIncreasing};
ghost use Rattle.apply_events.specs.Partition.{IsPartition, NamesEachWorkerOnce};

/// A partition for one worker is one list: all numbers below the limit, in order.
pub fn a_partition_for_one_worker_is_all_numbers_in_order()
    ensures { (limit : ℕ) (lists : List (List ℕ)) → IsPartition 1 limit lists
        → lists ≡ range_with_len 0 limit ∷ [] }
{}

/// The workers in their order name each worker once.
pub fn workers_in_order_stand_once()
    ensures { (workers : ℕ) → NamesEachWorkerOnce workers (range_with_len 0 workers) }
{}

/// A rising list of numbers below a limit is no longer than the limit.
pub fn a_rising_list_fits_below_its_limit()
    ensures { (limit : ℕ) (list : List ℕ) → IsStrictlyIncreasing list → All (λ number. number < limit) list
        → length list ≤ limit }
{}

/// A rising list still rises with a greater number at its end.
pub fn a_rising_list_rises_on()
    ensures { (list : List ℕ) (number : ℕ) → IsStrictlyIncreasing list → All (λ earlier. earlier < number) list
        → IsStrictlyIncreasing (list ++ number ∷ []) }
{}
