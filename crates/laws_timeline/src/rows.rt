//! Laws of rows and bars. Each function does nothing; its contract is the law.

ghost use Rattle.std.specs.Prelude.{◌≡◌, ◌≤◌, ◌++◌, ℕ, List, Option};
ghost use Rattle.std.specs.List.Sorted.{IsPermutation};
ghost use Rattle.stream_timeline.specs.Bars.{end_half, first_half, place_on};
ghost use Rattle.stream_timeline.specs.Rows.{chosen, left_out};
ghost use Rattle.stream_timeline.specs.declared.rows.choosing.Candidate.{Candidate as candidate};

/// The steps with a row and the steps without one are all steps.
pub fn shown_and_left_out_are_all()
    ensures { (limit : Option ℕ) (span : ℕ) (all : List candidate)
        → IsPermutation all (chosen limit span all ++ left_out limit span all) }
{}

/// A time that is no later than another has no later place on an axis, in halves of cells too.
pub fn what_comes_no_later_stands_no_further()
    ensures place { (width span sooner later : ℕ) → sooner ≤ later
        → place_on width span sooner ≤ place_on width span later }
    ensures first { (cells span sooner later : ℕ) → sooner ≤ later
        → first_half cells span sooner ≤ first_half cells span later }
    ensures end { (cells span first second sooner later : ℕ) → first ≤ second → sooner ≤ later
        → end_half cells span first sooner ≤ end_half cells span second later }
{}
