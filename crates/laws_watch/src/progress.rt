//! Laws of progress and of what is under way. Each function does nothing; its contract is the law.

ghost use Rattle.std.specs.Prelude.{◌≡◌, ◌≤◌, ◌+◌, ◌/◌, Bool, List, count_by, true, ℕ};
ghost use Rattle.stream_watch.specs.Clock.{elapsed};
ghost use Rattle.stream_watch.specs.Progress.{marks_at};
ghost use Rattle.stream_watch.specs.State.{State, beginning};
ghost use Rattle.stream_watch.specs.Stream.{lines_told};
ghost use Rattle.stream_watch.specs.Telling.{text_told};
ghost use Rattle.stream_watch.specs.declared.looks.Looks.{Looks};
ghost use Rattle.laws_watch.specs.Asked.{is_progress};
ghost use Rattle.laws_watch.specs.Rows.{rows_bytes, timed_marks};
ghost use Rattle.laws_watch.specs.Told.{AreToldInRows, DifferInTime, is_under_way, rows_after, tells_under_way, under_way_rows};

/// How many rows does a long apply print while nothing ends? At most one for each mark of the time
/// that has passed: 10 s, 20 s, and each multiple of 30 s. So a stream of T seconds has at most
/// T / 30 + 2 rows of what is under way, however many messages of progress it has.
pub fn progress_is_thinned()
    ensures few { (looks : Looks) (find : Bool) (lines : List (List ℕ))
        → under_way_rows looks find lines beginning ≤ marks_at (elapsed (lines_told looks find lines beginning).state.clock) }
    ensures rows { (looks : Looks) (find : Bool) (lines : List (List ℕ))
        → (told : AreToldInRows looks find lines beginning (lines_told looks find lines beginning))
        → count_by is_under_way (timed_marks told.rows)
        ≤ elapsed (lines_told looks find lines beginning).state.clock / 1000000 / 30 + 2 }
    ensures seldom { (time : ℕ) → marks_at time ≤ time / 1000000 / 30 + 2 }
{}

/// What does a message of progress do? It prints nothing but what is under way. It changes no step,
/// no count and no refresh, so ten thousand of them leave no more to remember than one.
pub fn progress_changes_no_step()
    ensures bytes { (looks : Looks) (state : State) (find : Bool) (line : List ℕ) → is_progress find line ≡ true
        → (text_told looks state find line).bytes
        ≡ rows_bytes looks (rows_after (tells_under_way looks state find line) (text_told looks state find line).state) }
    ensures state { (looks : Looks) (state : State) (find : Bool) (line : List ℕ) → is_progress find line ≡ true
        → DifferInTime state (text_told looks state find line).state }
{}
