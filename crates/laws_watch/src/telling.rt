//! Laws of what is told of lines. Each function does nothing; its contract is the law.

ghost use Rattle.std.specs.Prelude.{◌≡◌, ◌++◌, ◌∷◌, [], Bool, List, Some, codes, is_some, true, ℕ};
ghost use Rattle.serde_json.specs.Data.{Data};
ghost use Rattle.apply_json.specs.Tree.{text_of};
ghost use Rattle.stream_check.specs.declared.verdict.judge.Verdict.{Verdict};
ghost use Rattle.stream_watch.specs.Hooks.{hook_of};
ghost use Rattle.stream_watch.specs.Reading.{message_of};
ghost use Rattle.stream_watch.specs.State.{State, beginning};
ghost use Rattle.stream_watch.specs.StepRows.{step_of};
ghost use Rattle.stream_watch.specs.Stream.{lines_told, stream_told};
ghost use Rattle.stream_watch.specs.Telling.{text_told};
ghost use Rattle.stream_watch.specs.declared.looks.Looks.{Looks};
ghost use Rattle.stream_watch.specs.declared.mark.Mark.TheVariants.{Failed};
ghost use Rattle.laws_watch.specs.Asked.{asked_by, only, reporting};
ghost use Rattle.laws_watch.specs.Diagnostics.{HasDiagnostic, IsToldAs, diagnostic_rows};
ghost use Rattle.laws_watch.specs.Told.{AreToldInRows, IsToldInRows, tells_under_way};

/// Can a later line change what was printed already? No: what is printed of the front of a stream
/// is the front of what is printed of the whole stream, whatever the rest is.
pub fn what_was_told_stays_told()
    ensures bytes { (looks : Looks) (find : Bool) (front rest : List (List ℕ)) (state : State)
        → (lines_told looks find (front ++ rest) state).bytes
        ≡ (lines_told looks find front state).bytes ++ (lines_told looks find rest (lines_told looks find front state).state).bytes }
    ensures state { (looks : Looks) (find : Bool) (front rest : List (List ℕ)) (state : State)
        → (lines_told looks find (front ++ rest) state).state
        ≡ (lines_told looks find rest (lines_told looks find front state).state).state }
    ensures stream { (looks : Looks) (find : Bool) (front rest : List (List ℕ)) (verdict : Verdict)
        → (more : List ℕ) × ((stream_told looks find (front ++ rest) verdict).bytes
        ≡ (lines_told looks find front beginning).bytes ++ more) }
{}

/// Is each line told once? A line has exactly the rows that it asks for, whatever came before. They
/// have the time of the stream at this line. Only two rows may join them. Before them stands one
/// about refreshes that ended and were not reported yet. After them stands one of what is under
/// way.
pub fn each_line_is_told_once()
    ensures { (looks : Looks) (state : State) (find : Bool) (line : List ℕ)
        → IsToldInRows looks state (asked_by find line) (tells_under_way looks state find line) (text_told looks state find line) }
{}

/// Are the lines of a stream told in their order, and none of them lost or repeated? Their rows are
/// those that the lines ask for, in the order of the lines. Only rows about refreshes and rows of
/// what is under way stand between them.
pub fn lines_are_told_in_order()
    ensures { (looks : Looks) (find : Bool) (lines : List (List ℕ)) (state : State)
        → AreToldInRows looks find lines state (lines_told looks find lines state) }
{}

/// Is each error of a stream told? A diagnostic with severity `error`, a step that failed and a
/// provisioner that failed ask for one row each, with the mark of a failure.
pub fn an_error_asks_for_one_row()
    ensures diagnostic { (find : Bool) (line : List ℕ) (diagnostic : Data) → HasDiagnostic find line (codes "error") diagnostic
        → asked_by find line ≡ reporting (Failed ∷ []) }
    ensures step { (find : Bool) (line : List ℕ) (tree : Data) → message_of find line ≡ Some tree
        → text_of (codes "type") tree ≡ Some (codes "apply_errored") → is_some (step_of tree) ≡ true
        → asked_by find line ≡ only (Failed ∷ []) }
    ensures operation { (find : Bool) (line : List ℕ) (tree : Data) → message_of find line ≡ Some tree
        → text_of (codes "type") tree ≡ Some (codes "ephemeral_op_errored") → is_some (step_of tree) ≡ true
        → asked_by find line ≡ only (Failed ∷ []) }
    ensures provisioner { (find : Bool) (line : List ℕ) (tree : Data) → message_of find line ≡ Some tree
        → text_of (codes "type") tree ≡ Some (codes "provision_errored") → is_some (hook_of tree) ≡ true
        → asked_by find line ≡ only (Failed ∷ []) }
{}

/// Is a diagnostic printed whole? One row has its severity, its summary and its place. The code
/// that it is about and its detail stand in rows that belong to this one.
pub fn a_diagnostic_is_told_whole()
    ensures { (looks : Looks) (state : State) (find : Bool) (line severity : List ℕ) (diagnostic : Data)
        → HasDiagnostic find line severity diagnostic
        → IsToldAs looks state true (λ elapsed. diagnostic_rows elapsed severity diagnostic)
        (tells_under_way looks state find line) (text_told looks state find line) }
{}
