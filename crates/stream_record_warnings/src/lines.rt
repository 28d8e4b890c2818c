//! The parts that all warnings share.

ghost use Rattle.std.specs.Prelude.{codes};
ghost use Rattle.std.specs.Prelude.{◌++◌};
ghost use Rattle.std.specs.Fmt.{decimal};
ghost use Rattle.term_words.specs.MessageTexts.{AppendsText};

use term_words::MessageText;

/// Begins a warning.
pub fn begin(text: &mut MessageText)
    ensures { AppendsText text.old text.new (codes "applystream: warning: ") }
{
    text.text("applystream: warning: ");
}

/// Begins a warning about a line.
pub fn begin_line(text: &mut MessageText, line: u64)
    ensures { AppendsText text.old text.new (codes "applystream: warning: line " ++ decimal line) }
{
    text.text("applystream: warning: line ");
    text.number(line);
}

/// Ends a warning.
pub fn end(text: &mut MessageText)
    ensures { AppendsText text.old text.new (codes "\n") }
{
    text.text("\n");
}
