//! Laws of what is read of a stream. Each function does nothing; its contract is the law.

ghost use Rattle.std.specs.Prelude.{◌≡◌, ◌≤◌, ◌+◌, ℕ, List, All, false, length, map, true};
ghost use Rattle.std.specs.List.{sum_by};
ghost use Rattle.stream_timeline.specs.Memory.{stored_bytes};
ghost use Rattle.stream_timeline.specs.Steps.{StepRead};
ghost use Rattle.stream_timeline.specs.TimelineRead.{TimelineRead, timeline_of, with_line};
ghost use Rattle.laws_timeline.specs.Memory.{allowed_bytes, is_stored_line, is_progress_line};
ghost use Rattle.laws_timeline.specs.Messages.{IsOfItsLines, begin_lines};

/// Each line that begins a step gives one step, and no other line gives any.
pub fn each_begin_gives_one_step()
    ensures { (lines : List (List ℕ)) → map (λ (step : StepRead). step.line) (timeline_of lines).steps ≡ begin_lines lines }
{}

/// The begin and the end of a step are times of its lines.
pub fn steps_are_of_their_lines()
    ensures { (lines : List (List ℕ)) → All (IsOfItsLines lines) (timeline_of lines).steps }
{}

/// A time line has at most as many steps and provisioners as it counts as begun.
/// `stream_timeline::read` and `stream_timeline::TimelineBuilder::line` state that these are at
/// most 100,000.
pub fn no_more_steps_than_begins()
    ensures { (lines : List (List ℕ)) → length (timeline_of lines).steps
        + sum_by (λ (step : StepRead). length step.provisioners) (timeline_of lines).steps ≤ (timeline_of lines).begun }
{}

/// For any lines, the bytes that a builder may store have a bound. It counts the steps with their
/// addresses, actions and provisioners, the version, and 20 errors and 20 warnings.
/// `stream_timeline::a_builder_stores_what_is_defined` is the law about the builder itself.
pub fn memory_holds_steps_and_few_diagnostics()
    ensures { (lines : List (List ℕ)) → stored_bytes (timeline_of lines) ≤ allowed_bytes (timeline_of lines) }
{}

/// A line changes the stored bytes only if it begins a step or a provisioner, or is an error, a
/// warning or a version. So messages of progress take no memory.
pub fn progress_takes_no_memory()
    ensures lines { (line : List ℕ) (timeline : TimelineRead) → is_stored_line line ≡ false
        → stored_bytes (with_line line timeline) ≡ stored_bytes timeline }
    ensures progress { (line : List ℕ) (timeline : TimelineRead) → is_progress_line line ≡ true
        → stored_bytes (with_line line timeline) ≡ stored_bytes timeline }
{}
