//! Laws of the time line that `view` draws: its totals, rows and limits, and those of `check`.
//!
//! Each function does nothing: its contract is the law. No program links this crate.
#![tactic(auto)]

ghost use Rattle.std.specs.Prelude.{◌≡◌, All, List, Ok, false, ℕ};
ghost use Rattle.stream_check.specs.Lines.{verdict_of};
ghost use Rattle.stream_check.specs.declared.rules.mode.Mode.{Mode};
ghost use Rattle.stream_check.specs.declared.verdict.whole.Whole.{Whole};
ghost use Rattle.stream_timeline.specs.TimelineRead.{timeline_of};
ghost use Rattle.laws_timeline.specs.Agreement.{AreCounted, IsTimed};

mod numbers;
mod rows;
mod timeline;

pub use numbers::{
    alone_is_at_most_busy, busy_is_at_most_the_span, busy_is_at_most_the_work,
    no_step_ends_before_it_begins, work_is_at_most_the_peak_times_busy,
    work_is_the_number_under_way_times_the_length,
};
pub use rows::{shown_and_left_out_are_all, what_comes_no_later_stands_no_further};
use stream_check::each_step_ends_once;
pub use timeline::{
    each_begin_gives_one_step, memory_holds_steps_and_few_diagnostics, no_more_steps_than_begins,
    progress_takes_no_memory, steps_are_of_their_lines,
};

/// The completed creates, updates and deletes of a time line are the totals that `check` accepts,
/// and none of these steps is without an end. The law holds for a stream that `check` accepts as
/// one of an apply:
/// - `check` doesn't search for messages in a log,
/// - each line has a timestamp,
/// - no ephemeral operation calls itself a create, an update or a delete.
pub fn a_picture_shows_what_was_counted()
    ensures { (mode : Mode) (texts : List (List ℕ)) (whole : Whole) → verdict_of mode texts ≡ Ok whole
        → mode.find ≡ false → whole.is_plan ≡ false → All IsTimed texts
        → AreCounted whole.totals (timeline_of texts).steps }
{
    each_step_ends_once();
}
