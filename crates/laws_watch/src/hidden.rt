//! Laws of the values of sensitive outputs.

ghost use Rattle.std.specs.Prelude.{◌≡◌, ℕ, Bool, List};
ghost use Rattle.std.specs.List.{AllZip};
ghost use Rattle.stream_watch.specs.OutputRows.{all_told};
ghost use Rattle.stream_watch.specs.Outputs.{OutputView};
ghost use Rattle.stream_watch.specs.Stream.{lines_told, stream_told};
ghost use Rattle.stream_watch.specs.Telling.{text_told};
ghost use Rattle.laws_watch.specs.HiddenValues.{AreAlike, AreAlikeLines, IsSameOrAlike};

/// Can the value of a sensitive output be learned from what is told? No. Let any values of
/// sensitive outputs change in any lines of a stream: each line is told as before, in the same state,
/// which is all that a panel shows. So is the end, with the same verdict. What is told shows only
/// whether such an output has a value.
pub fn sensitive_values_are_hidden()
    ensures outputs { (looks : _) (state : _) (outputs others : List OutputView) → AllZip AreAlike outputs others
        → all_told looks state outputs ≡ all_told looks state others }
    ensures line { (looks : _) (state : _) (find : Bool) (line other : List ℕ) → AreAlikeLines find line other
        → text_told looks state find line ≡ text_told looks state find other }
    ensures lines { (looks : _) (state : _) (find : Bool) (lines others : List (List ℕ)) → AllZip (IsSameOrAlike find) lines others
        → lines_told looks find lines state ≡ lines_told looks find others state }
    ensures stream { (looks : _) (find : Bool) (lines others : List (List ℕ)) (verdict : _) → AllZip (IsSameOrAlike find) lines others
        → stream_told looks find lines verdict ≡ stream_told looks find others verdict }
{}
