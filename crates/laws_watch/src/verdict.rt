//! Laws of the verdict. Each function does nothing; its contract is the law.

ghost use Rattle.std.specs.Prelude.{◌≡◌, ◌++◌, Bool, Err, List, Ok, Result, codes, ℕ};
ghost use Rattle.term_text.specs.Shown.{shown_text};
ghost use Rattle.stream_check.specs.declared.verdict.finding.Finding.{Finding};
ghost use Rattle.stream_check.specs.declared.verdict.judge.Verdict.{Verdict};
ghost use Rattle.stream_check.specs.declared.verdict.whole.Whole.{Whole};
ghost use Rattle.stream_watch.specs.Printed.{line_bytes};
ghost use Rattle.stream_watch.specs.Stream.{stream_told};
ghost use Rattle.stream_watch.specs.VerdictRow.{verdict_mark, verdict_words};
ghost use Rattle.stream_watch.specs.declared.looks.Looks.{Looks};
ghost use Rattle.stream_watch.specs.declared.mark.Mark.TheVariants.{Whole as whole_mark};
ghost use Rattle.laws_watch.specs.Rows.{row_bytes, timed};
ghost use Rattle.laws_watch.specs.Verdict.{IsGood, told_before_verdict, verdict_row};

/// Where does the verdict stand? It is the last row of the output, at the time of the last line,
/// and no panel hides it. For a whole stream its text is what `check` reports. For any other stream
/// "the stream is not whole: " stands before that.
pub fn the_verdict_is_told_last()
    ensures last { (looks : Looks) (find : Bool) (lines : List (List ℕ)) (verdict : Verdict)
        → (stream_told looks find lines verdict).bytes
        ≡ (told_before_verdict looks find lines verdict).bytes ++ row_bytes looks (verdict_row looks find lines verdict) }
    ensures shown { (looks : Looks) (elapsed : ℕ) (answer : Result Whole Finding) (text : List ℕ)
        → row_bytes looks (timed elapsed (verdict_mark answer) text)
        ≡ line_bytes looks.width looks.has_colour elapsed (verdict_mark answer) text }
    ensures whole { (whole : Whole) (report : List ℕ) → verdict_words (Ok whole) report ≡ shown_text report }
    ensures not_whole { (finding : Finding) (report : List ℕ)
        → verdict_words (Err finding) report ≡ codes "the stream is not whole: " ++ shown_text report }
{}

/// When does the verdict have the mark of success? Only if `check` finds the stream whole, and no
/// diagnostic of it is an error.
pub fn a_good_verdict_is_of_a_whole_stream()
    ensures { (answer : Result Whole Finding) → verdict_mark answer ≡ whole_mark → IsGood answer }
{}
