//! Laws of the streams of `plan`, `apply` and `destroy`: what they share with one another, and with
//! the stream of a saved plan.

ghost use Rattle.std.specs.Prelude.{◌≡◌, ◌+◌, ◌++◌, ◌↔◌, ℕ, Bool, List, [], true};
ghost use mathlib.Core.List.{IsPrefix};
ghost use Rattle.apply_events.specs.declared.event.Event.{Event};
ghost use Rattle.apply_text.specs.declared.operation.Operation.{Operation};
ghost use Rattle.apply_text_terraform.specs.declared.command.Command.{Command};
ghost use Rattle.apply_text_terraform.specs.declared.command.Command.TheVariants.{Apply, Destroy, Plan};
ghost use Rattle.apply_text_terraform.specs.declared.form.Form.TheVariants.{Terraform};
ghost use Rattle.apply_command.specs.Reading.{AreStated, CommandInputs, form, head_inputs, planned_reading};
ghost use Rattle.apply_run.specs.Bytes.{Inputs};
ghost use Rattle.apply_run.specs.FromBytes.{WasAppliedOf, form_for, reading_of, work_for};
ghost use Rattle.apply_run.specs.Run.{SinkState};
ghost use Rattle.apply_run.specs.Schedule.{InLanes, Schedule};
ghost use Rattle.apply_writer.specs.declared.report.Report.{Report};
ghost use Rattle.apply_writer.specs.Stream.Form.{stream_in};
ghost use Rattle.laws_command.specs.Streams.{AppliesWholePlan, before_diagnostics, beginning, after_head, diagnostics};

use laws_check::a_run_is_of_whole_steps;
use laws_run::time_lines_are_unique;

/// Does an apply begin as its plan did? Yes, byte for byte: the stream of a plan is a beginning and
/// then diagnostics, and the streams of the apply and of the destroy have the same beginning.
///
/// A command that does not print the plan has the beginning up to the plan. `inputs`: what bytes
/// state for `plan` they state for `apply`. `refreshed`: with a refresh they state it for
/// `destroy`. `no_step`: no step of a plan runs, whatever the script, the hooks and the workers
/// are.
pub fn the_stream_of_a_plan_begins_those_of_its_apply_and_destroy()
    ensures inputs { (refresh : Bool) (given : Inputs) (read : CommandInputs)
        → (AreStated Plan refresh given read ↔ AreStated Apply refresh given read) }
    ensures refreshed { (given : Inputs) (read : CommandInputs) → (AreStated Plan true given read ↔ AreStated Destroy true given read) }
    ensures no_step { (schedule : Schedule) (refresh : Bool) (lanes : ℕ) (given : Inputs) (start : ℕ) (operation : Operation) (report : Report)
        (before after : SinkState) (run : WasAppliedOf schedule (planned_reading Plan refresh lanes) given start operation report before after)
        → run.streamed.events ≡ [] }
    ensures plan { (lanes : ℕ) (read : CommandInputs) (start : ℕ) (operation : Operation)
        → stream_in (form Plan lanes read start operation) [] ≡ before_diagnostics lanes read start ++ diagnostics lanes read start }
    ensures others { (command : Command) (lanes : ℕ) (read : CommandInputs) (start : ℕ) (operation : Operation) (events : List Event)
        → IsPrefix (beginning command lanes read start) (stream_in (form command lanes read start operation) events) }
{
    a_run_is_of_whole_steps();
}

/// Does an apply without a saved plan do the same as one with it? Yes: after the beginning it
/// prints what the apply of the saved plan prints, if that starts when the planning has ended.
///
/// The plan is applied, is not partial (`-target`), and forgets no object. `inputs`: the bytes
/// state the same for the saved plan. `work`: the same steps run, with the same hooks, so the
/// events are the same. `stream`: for the same events both streams are the same after their heads.
pub fn an_apply_prints_what_that_of_a_saved_plan_prints()
    ensures inputs { (command : Command) (refresh : Bool) (given : Inputs) (read : CommandInputs)
        → AreStated command refresh given read → (reading_of Terraform).IsRead given read.stated }
    ensures work { (command : Command) (refresh : Bool) (lanes : ℕ) (given : Inputs) (read : CommandInputs) → AppliesWholePlan command lanes read
        → (planned_reading command refresh lanes).work given read ≡ work_for Terraform given read.stated }
    ensures stream { (command : Command) (lanes : ℕ) (read : CommandInputs) (start : ℕ) (operation : Operation) (events : List Event)
        → AppliesWholePlan command lanes read
        → (stream_in (form command lanes read start operation) events
        ≡ (form command lanes read start operation).head ++ after_head (form_for Terraform read.stated (start + (head_inputs command lanes read start).took) operation) events)
        × (stream_in (form_for Terraform read.stated (start + (head_inputs command lanes read start).took) operation) events
        ≡ (form_for Terraform read.stated (start + (head_inputs command lanes read start).took) operation).head
        ++ after_head (form_for Terraform read.stated (start + (head_inputs command lanes read start).took) operation) events) }
{}

/// Do the same bytes give the same stream each time? Yes: what a plan and a script state decides
/// the work and the stream of a command, and in lanes its events too.
///
/// `work` and `stream`: two values that the same bytes state give the same steps and, for the same
/// events, the same stream. `in_lanes`: two runs in as many lanes write the same stream. `applied`
/// and `destroyed`: an apply begins as the plan that ran before it with the same bytes and start,
/// and so does a destroy with a refresh.
pub fn the_same_bytes_give_the_same_stream()
    ensures work { (command : Command) (refresh : Bool) (lanes : ℕ) (given : Inputs) (read other : CommandInputs)
        → AreStated command refresh given read → AreStated command refresh given other
        → (planned_reading command refresh lanes).work given read ≡ (planned_reading command refresh lanes).work given other }
    ensures stream { (command : Command) (refresh : Bool) (lanes : ℕ) (given : Inputs) (read other : CommandInputs) (start : ℕ) (operation : Operation)
        (events : List Event) → AreStated command refresh given read → AreStated command refresh given other
        → stream_in (form command lanes read start operation) events ≡ stream_in (form command lanes other start operation) events }
    ensures in_lanes { (command : Command) (refresh : Bool) (lanes : ℕ) (given : Inputs) (start : ℕ) (operation : Operation) (report again : Report)
        (before after before_again after_again : SinkState)
        (run : WasAppliedOf (InLanes lanes) (planned_reading command refresh lanes) given start operation report before after)
        (other : WasAppliedOf (InLanes lanes) (planned_reading command refresh lanes) given start operation again before_again after_again)
        → stream_in (form command lanes run.read start operation) run.streamed.events
        ≡ stream_in (form command lanes other.read start operation) other.streamed.events }
    ensures applied { (refresh : Bool) (lanes : ℕ) (given : Inputs) (planned read : CommandInputs) (start : ℕ) (operation : Operation)
        (events : List Event) → AreStated Plan refresh given planned → AreStated Apply refresh given read
        → IsPrefix (beginning Apply lanes planned start) (stream_in (form Apply lanes read start operation) events) }
    ensures destroyed { (lanes : ℕ) (given : Inputs) (planned read : CommandInputs) (start : ℕ) (operation : Operation)
        (events : List Event) → AreStated Plan true given planned → AreStated Destroy true given read
        → IsPrefix (beginning Destroy lanes planned start) (stream_in (form Destroy lanes read start operation) events) }
{
    time_lines_are_unique();
}
