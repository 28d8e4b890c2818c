//! Laws of the lines that are printed.

ghost use Rattle.std.specs.Prelude.{◌≡◌, ◌≤◌, ℕ, Bool, false, List, Option, Some, true};
ghost use Rattle.std.specs.Str.{chars};
ghost use Rattle.term_text.specs.Columns.{columns_of};
ghost use Rattle.term_text.specs.Commands.{HoldsNoCommand};
ghost use Rattle.term_text.specs.LineTexts.{uncoloured};
ghost use Rattle.stream_watch.specs.Printed.{further_bytes, line_bytes};
ghost use Rattle.stream_watch.specs.Stream.{stream_told};
ghost use Rattle.stream_watch.specs.declared.looks.Looks.{Looks};
ghost use Rattle.laws_watch.specs.PrintedLines.{AreLines, AreTimedLines, BeginsAsTold, BeginsWithBar, with_colour};

/// Can a text of a stream steer my terminal or the runner of my job, or pose as another line? No.
/// Whatever a text holds, what is printed of it is whole lines. Nothing hidden stands in a line, as
/// an escape character does not, and no command to a runner. A line begins with a time, and each
/// further line of its text with a bar. Colours add no command.
pub fn no_text_steers()
    ensures line { (width : Option ℕ) (elapsed : ℕ) (mark : _) (text : List ℕ) → AreTimedLines (line_bytes width false elapsed mark text) }
    ensures further { (width : Option ℕ) (mark : _) (text : List ℕ) → AreLines BeginsWithBar (further_bytes width false mark text) }
    ensures coloured_line { (width : Option ℕ) (has_colour : Bool) (elapsed : ℕ) (mark : _) (text : List ℕ)
        → HoldsNoCommand (line_bytes width has_colour elapsed mark text) }
    ensures coloured_further { (width : Option ℕ) (has_colour : Bool) (mark : _) (text : List ℕ) → HoldsNoCommand (further_bytes width has_colour mark text) }
{}

/// Can a stream steer my terminal or the runner of my job? No: whatever bytes its lines have, all
/// that is told of it without colours is plain lines, and each begins with a time or a bar. With
/// colours too, it holds no command to a runner.
pub fn no_stream_steers()
    ensures plain { (looks : Looks) (find : Bool) (lines : List (List ℕ)) (verdict : _)
        → AreLines BeginsAsTold (stream_told (with_colour false looks) find lines verdict).bytes }
    ensures command { (looks : Looks) (find : Bool) (lines : List (List ℕ)) (verdict : _) → HoldsNoCommand (stream_told looks find lines verdict).bytes }
{}

/// Do colours change what is told? No: without the sequences of colours, lines with colours are the
/// lines without.
pub fn colours_can_be_taken_out()
    ensures line { (width : Option ℕ) (elapsed : ℕ) (mark : _) (text : List ℕ)
        → uncoloured (line_bytes width true elapsed mark text) ≡ line_bytes width false elapsed mark text }
    ensures further { (width : Option ℕ) (mark : _) (text : List ℕ)
        → uncoloured (further_bytes width true mark text) ≡ further_bytes width false mark text }
    ensures stream { (looks : Looks) (find : Bool) (lines : List (List ℕ)) (verdict : _)
        → uncoloured (stream_told (with_colour true looks) find lines verdict).bytes ≡ (stream_told (with_colour false looks) find lines verdict).bytes }
{}

/// Does a line fit into my terminal? Yes, colours aside: no line has more columns than a width of
/// 13 or more.
pub fn no_line_is_wider()
    ensures line { (width elapsed : ℕ) (mark : _) (text : List ℕ) → 13 ≤ width
        → AreLines (λ line. columns_of (chars line) ≤ width) (line_bytes (Some width) false elapsed mark text) }
    ensures further { (width : ℕ) (mark : _) (text : List ℕ) → 13 ≤ width
        → AreLines (λ line. columns_of (chars line) ≤ width) (further_bytes (Some width) false mark text) }
    ensures stream { (width : ℕ) (looks : Looks) (find : Bool) (lines : List (List ℕ)) (verdict : _) → 13 ≤ width → looks.width ≡ Some width
        → AreLines (λ line. columns_of (chars line) ≤ width) (stream_told (with_colour false looks) find lines verdict).bytes }
{}
