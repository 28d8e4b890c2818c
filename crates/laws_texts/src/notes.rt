//! Laws of diagnostics: where they stand. Each function does nothing: its contract is the law.

ghost use Rattle.std.specs.Prelude.{◌≡◌, All, List, [], filter_map, ℕ};
ghost use Rattle.apply_events.specs.declared.event.Event.{Event};
ghost use Rattle.apply_events.specs.Step.{Work};
ghost use Rattle.apply_events.specs.Waits.TimeLine.{IsTimeLine};
ghost use Rattle.apply_text.specs.Order.{hook_messages_of, notes_of};
ghost use Rattle.laws_texts.specs.Notes.{HasAnEnd, ends_of, note_after};
ghost use Rattle.laws_texts.specs.Streams.{AreNotHalted, AreNotesInTime};

/// The diagnostics of a time line without hooks are, in order, those after the ends of its steps.
/// Each has the lane and the time of that end: the error of a step that fails, or the warning of a
/// step that succeeds. Each step that began has an end.
pub fn diagnostics_come_after_the_ends_of_their_steps()
    ensures { (work : Work) (lanes : ℕ) (events : List Event) → work.hooks ≡ [] → IsTimeLine work lanes events
        → All (HasAnEnd work.script) (hook_messages_of events)
        → notes_of events ≡ filter_map (note_after work.script) (ends_of (hook_messages_of events)) }
{}

/// In such a time line, no diagnostic comes later than the last hook message, and none is a halt.
pub fn no_diagnostic_comes_last()
    ensures in_time { (work : Work) (lanes : ℕ) (events : List Event) → work.hooks ≡ [] → IsTimeLine work lanes events
        → All (HasAnEnd work.script) (hook_messages_of events) → AreNotesInTime events }
    ensures not_halted { (work : Work) (lanes : ℕ) (events : List Event) → work.hooks ≡ [] → IsTimeLine work lanes events
        → All (HasAnEnd work.script) (hook_messages_of events) → AreNotHalted events }
{}
