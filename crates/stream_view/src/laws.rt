//! Laws of pictures. Each function does nothing; its contract is the law.

ghost use Rattle.std.specs.Prelude.{◌≡◌, ◌≤◌, ◌<◌, ◌⊎◌, ◌++◌, [], ℕ, List, false, true, filter, length, replicate};
ghost use Rattle.std.specs.Int.{int_gap};
ghost use Rattle.stream_timeline.specs.Intervals.{until_of};
ghost use Rattle.stream_timeline.specs.Steps.{StepRead};
ghost use Rattle.stream_timeline.specs.declared.reading.time_range.TimeRange.{TimeRange};
ghost use Rattle.stream_view.specs.Lines.{is_character, is_no_control, line_bytes};
ghost use Rattle.stream_view.specs.Markdown.{EndsLine, back_bytes, cut_text, fence_around, front_bytes, kept_text, line_count, markdown_bytes};
ghost use Rattle.stream_view.specs.Markup.{Axis, bar_left, bar_right};
ghost use Rattle.stream_view.specs.declared.text.line_piece.LinePiece.{LinePiece as line_piece};
ghost use Rattle.stream_view.specs.declared.text.line_piece.LinePiece.TheVariants.{Character};

/// A line has no control character (Unicode, category Cc). So a text has only its line feeds and
/// the sequences of colours.
pub fn no_line_has_a_control()
    ensures { (character : ℕ) → is_no_control (Character character) ≡ true
        → (32 ≤ character) × ((character < 127) ⊎ (160 ≤ character)) }
{}

/// Without the sequences of colours, a line with colours has the bytes of a line without.
pub fn colours_are_sequences_alone()
    ensures { (pieces : List line_piece) → line_bytes false pieces ≡ line_bytes true (filter is_character pieces) }
{}

/// In an SVG, the bar of a step that begins no later begins no further to the right. A bar of a
/// step that ends no later ends no further to the right, before it is widened to the least width.
pub fn what_comes_no_later_has_its_bar_no_further()
    ensures begin { (axis : Axis) (time_range : TimeRange) (sooner later : StepRead) → int_gap time_range.first sooner.begin ≤ int_gap time_range.first later.begin
        → bar_left axis time_range sooner ≤ bar_left axis time_range later }
    ensures end { (axis : Axis) (time_range : TimeRange) (sooner later : StepRead)
        → int_gap time_range.first (until_of time_range sooner) ≤ int_gap time_range.first (until_of time_range later)
        → bar_right axis time_range sooner ≤ bar_right axis time_range later }
{}

/// In Markdown, the fence is longer than each run of backticks in the text that stands in it. So no
/// line of the text closes the fence.
pub fn fence_is_longer_than_each_run()
    ensures { (headline inside before after : List ℕ) (n : ℕ) → kept_text headline inside ≡ before ++ (replicate n 96 ++ after)
        → n < fence_around headline inside }
{}

/// Markdown has at most 65,000 bytes, unless even the headline and the fence exceed them; then no
/// line of the text is kept.
pub fn markdown_has_room()
    ensures { (headline inside : List ℕ) → (length (markdown_bytes headline inside) ≤ 65000) ⊎ (kept_text headline inside ≡ []) }
{}

/// Where a text has no room in Markdown, whole lines are cut from its end, and the number of these
/// lines stands behind the others.
pub fn whole_lines_are_cut_and_counted()
    ensures whole { (headline inside : List ℕ) → EndsLine (kept_text headline inside) }
    ensures counted { (headline inside : List ℕ) → markdown_bytes headline inside
        ≡ front_bytes headline (fence_around headline inside) ++ kept_text headline inside
        ++ back_bytes (line_count (cut_text headline inside)) (fence_around headline inside) }
{}
