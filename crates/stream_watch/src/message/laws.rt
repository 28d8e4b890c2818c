//! Laws of reading. Each function does nothing; its contract is the law.

ghost use Rattle.std.specs.Prelude.{◌≡◌, ◌≤◌, ℕ, Bool, List, is_some, length, not};
ghost use Rattle.stream_check.specs.Lines.{line_message};
ghost use Rattle.stream_lines.specs.Limits.{max_bytes};
ghost use Rattle.stream_watch.specs.MessageLaws.{is_no_message};
ghost use Rattle.stream_watch.specs.Reading.{message_of};

/// A line has a message if and only if `check` finds one in it: a line that is no JSON, or has no
/// text `type`, has none, and so has a line of a log that `check` ignores. A message whose members
/// are faulty is one.
pub fn a_line_has_a_message_where_check_finds_one()
    ensures { (find : Bool) (line : List ℕ) → length line ≤ max_bytes
        → is_some (message_of find line) ≡ not (is_no_message (line_message find line)) }
{}
