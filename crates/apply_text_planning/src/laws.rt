//! Laws of what is planned. The functions do nothing; their contracts are the laws.

ghost use Rattle.std.specs.Prelude.{All, List};
ghost use Rattle.apply_model.specs.declared.details.change_details.ChangeDetails.{ChangeDetails};
ghost use Rattle.apply_model.specs.Plan.ResourceChange.{ResourceChange};
ghost use Rattle.apply_text_planning.specs.Laws.{CountsLines, HasAction};

/// Each of a plan's sums is the number of its planned lines with that action. A line with `replace`
/// counts as added and as removed.
pub fn the_sums_of_a_plan_are_those_of_its_lines()
    ensures { (planned : List (ResourceChange × ChangeDetails)) → All HasAction planned → CountsLines planned }
{}
