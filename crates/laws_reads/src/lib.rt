//! Laws of what `record` makes of a whole stream of our own.
//!
//! The function does nothing: its contract is the law. No program links this crate.
#![tactic(auto)]

ghost use Rattle.std.specs.Prelude.{ℕ, List, Bool, Option};
ghost use Rattle.apply_model.specs.declared.details.note.Note.{Note};
ghost use Rattle.apply_events.specs.declared.event.Event.{Event};
ghost use Rattle.apply_text.specs.declared.operation.Operation.{Operation};
ghost use Rattle.stream_record_lines.specs.declared.outputs.output.Output.{Output};
ghost use Rattle.stream_record_outcomes.specs.Assignment.{considered};
ghost use Rattle.stream_record_script.specs.Recordings.{PlanRead, circumstances_of, notes_in, steps_in};
ghost use Rattle.stream_record_stream.specs.Streams.{StreamRead};
ghost use Rattle.laws_reads.specs.Outcomes.{AreRecorded};
ghost use Rattle.laws_reads.specs.Runs.{IsOfRun};
ghost use Rattle.laws_begun.specs.Telling.{Telling};

/// What is recorded of the steps of a run, and the diagnostics of no step. `record` does not
/// consider the diagnostic that each apply of such a plan has. The stream was not cut off, so each
/// outcome goes by the lines of its step.
pub fn the_steps_of_a_run_are_recorded()
    ensures { (plan : PlanRead) (telling : Telling) (start line : ℕ) (events : List Event) (notes : List Note)
        (outputs : List Output) (summary : Option Operation) (is_default_form : Bool) (read : StreamRead)
        → IsOfRun telling start line events notes outputs summary is_default_form read
        → AreRecorded telling.plan.changes read.begun (considered (circumstances_of plan.note read) read.notes) is_default_form
        (steps_in plan read) (notes_in plan read) }
{}
