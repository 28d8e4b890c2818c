//! Laws of time lines: when their streams are the same bytes. Each function does nothing: its
//! contract is the law.

ghost use Rattle.std.specs.Prelude.{◌≡◌, All, List, [], true, ℕ};
ghost use Rattle.apply_events.specs.declared.event.Event.{Event};
ghost use Rattle.apply_events.specs.Step.{Work};
ghost use Rattle.apply_events.specs.Waits.Schedule.{schedule};
ghost use Rattle.apply_events.specs.Waits.TimeLine.{IsTimeLine};
ghost use Rattle.apply_text.specs.declared.operation.Operation.{Operation};
ghost use Rattle.apply_writer.specs.Stream.Form.{plain_form, stream_in};
ghost use Rattle.apply_writer.specs.Stream.Terraform.{StreamExtras, terraform_form};
ghost use Rattle.laws_texts.specs.Alike.{IsOfOutcome};
ghost use Rattle.laws_lanes.specs.Alike.{is_begun};
ghost use Rattle.laws_texts.specs.TimeLines.{AreSamePlain, AreSameTerraform};

/// Each event of a time line is of a step that begins. Without hooks, an end tells whether the step
/// fails, and a provisioner that the event names ran.
pub fn events_of_a_time_line_are_of_steps_that_begin()
    ensures begins { (work : Work) (lanes : ℕ) (events : List Event) → IsTimeLine work lanes events
        → All (λ event. is_begun work (schedule work lanes) event.change event.step ≡ true) events }
    ensures of_outcome { (work : Work) (lanes : ℕ) (events : List Event) → IsTimeLine work lanes events → work.hooks ≡ []
        → All (IsOfOutcome work.script) events }
{}

/// The time lines of two works without hooks have the same stream in the default form, if they have
/// the same hook messages, each step that begins ends alike, and the diagnostics after the ends are
/// the same. Each step that begins has an end.
pub fn time_lines_that_end_alike_have_the_same_stream()
    ensures { (work other : Work) (start : ℕ) (operation : Operation) (lanes other_lanes : ℕ) (events others : List Event)
        → AreSamePlain work other lanes other_lanes events others
        → stream_in (plain_form work.plan other.script start operation) others
        ≡ stream_in (plain_form work.plan work.script start operation) events }
{}

/// The same in Terraform's form. The diagnostics after the ends, then those of no step, are the
/// same list. A diagnostic may be of a step in one stream and of no step in the other.
pub fn time_lines_that_end_alike_have_the_same_stream_in_terraforms_form()
    ensures { (work other : Work) (extras other_extras : StreamExtras) (start : ℕ) (operation : Operation) (lanes other_lanes : ℕ)
        (events others : List Event) → AreSameTerraform work other extras other_extras lanes other_lanes events others
        → stream_in (terraform_form work.plan other.script other_extras start operation) others
        ≡ stream_in (terraform_form work.plan work.script extras start operation) events }
{}
