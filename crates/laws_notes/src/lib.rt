//! Laws of recorded diagnostics: those of the steps and those of no step, told again, are the same.
//!
//! Each function does nothing: its contract is the law. No program links this crate.
#![tactic(auto)]

ghost use Rattle.std.specs.Prelude.{◌≡◌, ℕ, Bool, List, Option, Some, option_map};
ghost use Rattle.apply_model.specs.declared.details.note.Note.{Note};
ghost use Rattle.stream_record_outcomes.specs.Assignment.{assignment_of, fit_of};
ghost use Rattle.stream_record_steps.specs.Begun.{Begun};
ghost use Rattle.laws_notes.specs.Told.{AreNotesTold, AreNotesToldAgain, HasNote, severity_of_end};

/// `record` gives each failed step an error that fits it. The diagnostics of the steps, in the order
/// of their ends, and then those of no step are the list that `record` read. The premise: the steps
/// told theirs in that order, and others came after them.
pub fn diagnostics_come_again_in_their_order()
    ensures { (is_default_form : Bool) (begun : Begun) (told : List (Option Note)) (loose : List Note) (notes : List Note)
        → AreNotesTold is_default_form begun told loose notes
        → AreNotesToldAgain is_default_form begun told notes (assignment_of is_default_form begun notes) }
{}

/// The diagnostic of a step has the severity that the end of the step states, and the address of
/// those that fit the step.
pub fn a_diagnostic_has_the_severity_and_the_address_of_its_step()
    ensures severity { (is_default_form : Bool) (begun : Begun) (place : ℕ) (note : Note)
        (has : HasNote is_default_form begun place (Some note))
        → note.severity ≡ severity_of_end has.end.result }
    ensures address { (is_default_form : Bool) (begun : Begun) (place : ℕ) (note : Note)
        (has : HasNote is_default_form begun place (Some note))
        → option_map (λ fit. fit.address) (fit_of is_default_form has.step has.known) ≡ Some note.address }
{}
