//! Laws of lines. The functions do nothing; their contracts are the laws.

ghost use Rattle.std.specs.Prelude.{◌≡◌, ℕ, List, false, map};
ghost use Rattle.apply_text.specs.Laws.{line_feeds};
ghost use Rattle.serde_json.specs.Data.{Data};
ghost use Rattle.apply_model.specs.declared.details.output.Output.{Output};
ghost use Rattle.apply_text_terraform.specs.Laws.{brackets, has_separator, without_secret};
ghost use Rattle.apply_text_terraform.specs.Lines.{line_of, line_of_text, outputs_text};

/// The line of the outputs does not depend on the values of sensitive outputs.
pub fn no_sensitive_value_is_told()
    ensures { (start clock : ℕ) (one other : List Output) → map without_secret one ≡ map without_secret other
        → outputs_text start clock one ≡ outputs_text start clock other }
{}

/// No line contains `<`, `>` or `&`.
pub fn a_line_has_no_bracket()
    ensures { (text : List ℕ) → brackets (line_of_text text) ≡ 0 }
{}

/// No line contains U+2028 or U+2029. Both end a line in JavaScript.
pub fn a_line_has_no_separator()
    ensures { (text : List ℕ) → has_separator (line_of_text text) ≡ false }
{}

/// A line contains one line feed, which is its last byte.
pub fn a_line_has_one_line_feed()
    ensures { (d : Data) → line_feeds (line_of d) ≡ 1 }
{}
