//! Laws of scripts that were read for a plan that was read: the premises of the laws of waits hold
//! of them.
//!
//! Each function does nothing, or calls the laws that its own law follows from: its contract is the
//! law.

ghost use Rattle.std.specs.Prelude.{List, Ok, ℕ, ◌<◌, ◌≡◌, ◌↔◌, true, length};
ghost use Rattle.apply_plan.specs.Plan.SavedPlan.{plan_of};
ghost use Rattle.apply_plan.specs.Script.OutcomeMap.{script_of};
ghost use Rattle.apply_events.specs.declared.event.Event.{Event};
ghost use Rattle.apply_events.specs.Laws.{IsWithinLimits};
ghost use Rattle.apply_events.specs.Step.{Work};
ghost use Rattle.apply_events.specs.Waits.TimeLine.{IsTimeLine};
ghost use Rattle.laws_run.specs.WaitingSteps.{HasFewSteps, NamesSteps};
ghost use Rattle.apply_run.specs.Bytes.{Inputs, IsRead};
ghost use Rattle.apply_run.specs.FromBytes.{WasAppliedBy, work_for};
ghost use Rattle.apply_run.specs.Run.{SinkState};
ghost use Rattle.apply_run.specs.Schedule.{InLanes};
ghost use Rattle.apply_text.specs.declared.operation.Operation.{Operation};
ghost use Rattle.apply_text_terraform.specs.declared.form.Form.{Form};
ghost use Rattle.apply_writer.specs.declared.report.Report.{Report};
ghost use Rattle.laws_run.specs.Scripts.{CanAllBegin, LeaveOutJustWhatWaitsInVain, LeaveOutNone};
ghost use Rattle.apply_model.specs.Script.OutcomeMap.{OutcomeMap};
ghost use Rattle.apply_model.specs.Script.Waits.{could_begin};
ghost use Rattle.laws_run.specs.Scripts.{CouldBegin, WaitsWithin};

use crate::a_step_begins_exactly_where_its_waits_are_done;

/// A plan and a script that were read meet the premises of the laws of waits.
///
/// `few_steps`: each change has at most two steps. `names`: the script names steps of its plan
/// alone. `could_begin`: each step of the plan could begin, whether the script mentions the step or
/// not.
pub fn steps_that_were_read_could_begin()
    ensures few_steps { (work : Work) (bytes : List ℕ) → plan_of bytes ≡ Ok work.plan → HasFewSteps work }
    ensures names { (work : Work) (bytes : List ℕ) → script_of work.plan bytes ≡ Ok work.script → NamesSteps work }
    ensures could_begin { (work : Work) (bytes : List ℕ) → HasFewSteps work → script_of work.plan bytes ≡ Ok work.script
        → CanAllBegin work }
{}

/// A plan that was read is within the limits, with a script that was read or without a script.
///
/// The plan has at most 10,000 changes of at most two steps. Each step and each provisioner is
/// within the limits of a script.
pub fn what_was_read_is_within_limits()
    ensures { (given : Inputs) (work : Work) → IsRead given work.plan work.script → IsWithinLimits work }
{
    steps_that_were_read_could_begin();
}

/// A step has no event in a time line if and only if the step is skipped or waits in vain. The plan
/// and the script were read, or there is no script.
///
/// A step waits in vain for a step that failed, was halted or is skipped, directly or through other
/// steps. `without_need`: if no step failed, was halted or is skipped, each step of the plan has
/// events.
pub fn a_read_script_leaves_out_what_waits_in_vain()
    ensures in_vain { (given : Inputs) (work : Work) (n : ℕ) (events : List Event) → 0 < n
        → IsRead given work.plan work.script → IsTimeLine work n events → LeaveOutJustWhatWaitsInVain work events }
    ensures without_need { (given : Inputs) (work : Work) (n : ℕ) (events : List Event) → 0 < n
        → IsRead given work.plan work.script → IsTimeLine work n events → LeaveOutNone work events }
{
    a_step_begins_exactly_where_its_waits_are_done();
    steps_that_were_read_could_begin();
}

/// In a stream that lanes wrote, a step has no event if and only if the step is skipped or waits in
/// vain. The law holds in either form.
pub fn lanes_leave_out_what_waits_in_vain()
    ensures { (form : Form) (given : Inputs) (lanes start : ℕ) (operation : Operation) (report : Report) (before after : SinkState)
        (applied : WasAppliedBy (InLanes lanes) form given start operation report before after)
        → LeaveOutJustWhatWaitsInVain (work_for form given applied.read) applied.streamed.events }
{
    a_read_script_leaves_out_what_waits_in_vain();
}

/// The steps that could begin are the least set with this rule: a step is in the set if all steps
/// that it waits for are.
///
/// The script names steps of the plan alone.
pub fn steps_that_could_begin_are_the_least_set()
    ensures { (script : OutcomeMap) → WaitsWithin script → (c k : ℕ) → c < length script → k < 2
        → ((could_begin script c k ≡ true) ↔ CouldBegin script c k) }
{}
