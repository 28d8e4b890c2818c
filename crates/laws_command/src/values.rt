//! The law of the values that the stream of a command tells.

ghost use Rattle.std.specs.Prelude.{◌≡◌, ℕ, Bool, List, Some};
ghost use Rattle.serde_json.specs.Data.{Data};
ghost use Rattle.apply_json.specs.Tree.{tree_of};
ghost use Rattle.apply_prior.specs.Prior.{prior_in, prior_of};
ghost use Rattle.apply_text_terraform.specs.declared.command.Command.{Command};
ghost use Rattle.apply_run.specs.Bytes.{Inputs};
ghost use Rattle.apply_run.specs.Read.{IsStated};
ghost use Rattle.apply_command.specs.Reading.{AreStated, CommandInputs};
ghost use Rattle.laws_command.specs.Alike.{AreAlike};

/// Which values of a prior state and of a drift can a stream tell? None but ids, and no sensitive
/// id.
///
/// `trees`: two plans that differ only in other values say the same of the time before an apply.
/// `bytes`: the same holds of the bytes of plans. `read`: a command reads the same of two plans
/// that say the same of that time, if they state the same for the apply. So the streams are the
/// same.
pub fn of_a_prior_state_only_ids_are_told_that_are_not_sensitive()
    ensures trees { (one other : Data) → AreAlike one other → prior_in one ≡ prior_in other }
    ensures bytes { (one other : List ℕ) (tree same : Data) → tree_of one ≡ Some tree → tree_of other ≡ Some same → AreAlike tree same
        → prior_of one ≡ prior_of other }
    ensures read { (command : Command) (refresh : Bool) (one other : Inputs) (read : CommandInputs) → prior_of one.plan ≡ prior_of other.plan
        → one.script ≡ other.script → AreStated command refresh one read → IsStated other.plan other.script read.stated
        → AreStated command refresh other read }
{}
