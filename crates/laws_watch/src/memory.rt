//! Laws of what is remembered. Each function does nothing; its contract is the law.

ghost use Rattle.std.specs.Prelude.{◌≤◌, Bool, List, count_by, length, ℕ};
ghost use Rattle.stream_watch.specs.State.{beginning};
ghost use Rattle.stream_watch.specs.Stream.{lines_told};
ghost use Rattle.stream_watch.specs.declared.looks.Looks.{Looks};
ghost use Rattle.laws_watch.specs.Memory.{begins};

/// What does `watch` remember of a long apply? At most one step for each line that begins a step or
/// a refresh. It remembers how long steps took for at most 1,000 pairs of an action and a type.
pub fn what_is_remembered_is_bounded()
    ensures steps { (looks : Looks) (find : Bool) (lines : List (List ℕ))
        → length (lines_told looks find lines beginning).state.steps ≤ count_by (begins find) lines }
    ensures lengths { (looks : Looks) (find : Bool) (lines : List (List ℕ))
        → length (lines_told looks find lines beginning).state.lengths ≤ 1000 }
{}
