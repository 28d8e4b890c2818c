//! A run accepts each script that `record` writes.

ghost use Rattle.std.specs.Prelude.{◌≡◌, ℕ, List, Ok, Option};
ghost use Rattle.apply_plan.specs.Script.OutcomeMap.{script_of};
ghost use Rattle.laws_record.specs.Writable.{written};
ghost use Rattle.laws_recorded.specs.Accepted.{IsAccepted};
ghost use Rattle.laws_recorded.specs.Scripts.{script_behind, script_of_plan};
ghost use Rattle.stream_record_cli.specs.Alone.{IsScriptOf};
ghost use Rattle.stream_record_cli.specs.Recorded.{IsScriptOfBytes};
ghost use Rattle.stream_record_cli.specs.declared.command.recording.StreamChoice.{StreamChoice};

use laws_record::{
    a_run_in_form_reads_back_outputs_and_diagnostics, a_run_reads_back_what_record_writes,
};
use laws_run::each_object_is_named_once;

/// A run accepts each script that `record` writes of a stream, in both forms. The bytes of the
/// stream and of the graph may be any: also those of a stream that was cut off, or is of another
/// plan. `same`: what the run reads is the script that was written.
///
/// `IsScriptOfBytes` is what `stream_record_cli::record_stream` ensures of the text that it writes.
pub fn a_run_accepts_each_script_that_record_writes()
    ensures accepted { (plan : List ℕ) (graph : Option (List ℕ)) (choice : StreamChoice)
        (stream text warnings : List ℕ) → IsScriptOfBytes plan graph choice stream text warnings
        → IsAccepted plan text }
    ensures same { (plan : List ℕ) (graph : Option (List ℕ)) (choice : StreamChoice)
        (stream text warnings : List ℕ) (is : IsScriptOfBytes plan graph choice stream text warnings)
        → script_of is.saved text ≡ Ok (written is.saved.changes (script_behind is)) }
{
    each_object_is_named_once();
    a_run_reads_back_what_record_writes();
    a_run_in_form_reads_back_outputs_and_diagnostics();
}

/// A run accepts each script that `record --only-plan` writes, in both forms. The bytes of the plan
/// and of the graph may be any. `same`: what the run reads is the script that was written.
///
/// `IsScriptOf` is what `stream_record_cli::record_plan` ensures of the text that it writes.
pub fn a_run_accepts_each_script_of_a_plan_alone()
    ensures accepted { (plan : List ℕ) (graph : Option (List ℕ)) (text : List ℕ)
        → IsScriptOf plan graph text → IsAccepted plan text }
    ensures same { (plan : List ℕ) (graph : Option (List ℕ)) (text : List ℕ)
        (is : IsScriptOf plan graph text)
        → script_of is.saved text ≡ Ok (written is.saved.changes (script_of_plan is)) }
{
    each_object_is_named_once();
    a_run_reads_back_what_record_writes();
    a_run_in_form_reads_back_outputs_and_diagnostics();
}
