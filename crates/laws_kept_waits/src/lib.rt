//! Laws of the waits of a run: its stream keeps them, and `record` knows its steps.
//!
//! Each function only calls the laws that its own law follows from: its contract is the law. No
//! program links this crate.
#![tactic(auto)]

ghost use Rattle.std.specs.Prelude.{◌≡◌, ℕ, ℤ, List, Option};
ghost use Rattle.apply_events.specs.Step.{Work};
ghost use Rattle.apply_events.specs.declared.event.Event.{Event};
ghost use Rattle.apply_text.specs.Order.{hook_messages_of};
ghost use Rattle.stream_record_cli.specs.Graphs.{AreGraphWaits};
ghost use Rattle.stream_record_outcomes.specs.declared.recorded_step.RecordedStep.{RecordedStep};
ghost use Rattle.stream_record_script.specs.Runs.{steps_of_plan};
ghost use Rattle.stream_record_steps.specs.Begun.{Begun};
ghost use Rattle.laws_begun.specs.Followed.{AreFollowed};
ghost use Rattle.laws_begun.specs.Telling.{Telling};
ghost use Rattle.laws_waits.specs.Again.{IsKnown};
ghost use Rattle.laws_waits.specs.Kept.{AreKept};
ghost use Rattle.laws_kept_waits.specs.InLines.{AreAnsweredAlike, AreInLines, ComeInTurn, IsRun, StatesWaits};

use laws_run::{
    a_step_begins_exactly_where_its_waits_are_done, a_step_comes_after_what_it_waits_for,
};

/// The stream of a run keeps the waits of its graph: each wait of a step that began was done before
/// the step began.
pub fn a_run_keeps_the_waits_of_its_graph()
    ensures { (work : Work) (lanes : ℕ) (events : List Event) (begun : Begun)
        (recorded : List (Option RecordedStep)) (bytes : List ℕ) (waits : List (List ℕ))
        → IsRun work lanes events → AreInLines work lanes events begun recorded
        → AreGraphWaits work.plan.changes bytes waits → StatesWaits work lanes waits
        → AreKept (steps_of_plan begun recorded) waits }
{
    a_step_comes_after_what_it_waits_for();
    a_step_begins_exactly_where_its_waits_are_done();
}

/// Of the stream of a run, with outcomes that are alike, `record` knows the steps that begin.
pub fn the_steps_of_a_run_are_known()
    ensures { (work : Work) (lanes : ℕ) (events : List Event) (begun : Begun)
        (recorded : List (Option RecordedStep)) (bytes : List ℕ) (waits : List (List ℕ))
        → IsRun work lanes events → AreInLines work lanes events begun recorded
        → AreGraphWaits work.plan.changes bytes waits → StatesWaits work lanes waits
        → AreAnsweredAlike work recorded → IsKnown work lanes begun recorded waits }
{
    a_step_comes_after_what_it_waits_for();
    a_step_begins_exactly_where_its_waits_are_done();
}

/// Where `record` knows each step by its own lines, the lines of steps come in the order of their
/// hook messages.
pub fn lines_come_in_the_order_of_messages()
    ensures { (work : Work) (events : List Event) (telling : Telling) (start : ℤ) (first : ℕ)
        (begun : Begun) (recorded : List (Option RecordedStep)) → telling.plan ≡ work.plan
        → AreFollowed telling start first (hook_messages_of events) begun
        → ComeInTurn work events begun recorded }
{}
