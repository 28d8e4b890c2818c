//! Laws of the lines before an apply.
//!
//! Each function does nothing: its contract is the law.

ghost use Rattle.std.specs.Prelude.{List, map};
ghost use Rattle.std.specs.List.{AllByRecursion};
ghost use Rattle.apply_command.specs.declared.head_line.HeadLine.{HeadLine};
ghost use Rattle.apply_command.specs.Head.{HeadInputs, line_text};
ghost use Rattle.laws_check.specs.ReadBackInForm.{AreReadBackAs};
ghost use Rattle.laws_command_check.specs.HeadReadBack.{head_read_back};
ghost use Rattle.laws_command_check.specs.HeadTexts.{HasHeadTexts, IsSmallLine};

/// Each line before an apply is read back as one message: the version, what is refreshed and read,
/// what drifted, what is planned, the plan's summary and its outputs.
///
/// A refresh has its stage and no seconds, and a drift is a message that no rule is about. The
/// texts that the lines contain are UTF-8, and their numbers fit 64 bits.
pub fn every_line_before_an_apply_is_read_back()
    ensures { (inputs : HeadInputs) (lines : List HeadLine) → HasHeadTexts inputs → AllByRecursion IsSmallLine lines
        → AreReadBackAs (map (line_text inputs) lines) (head_read_back inputs lines) }
{}
