//! Laws of single lines.

ghost use Rattle.std.specs.Prelude.{◌≡◌, ◌<◌, ◌≤◌, ◌+◌, ◌^◌, ℕ, pos, List, [], codes, false, true, Option, Some, None, IfSome, IsUtf8, map, option_map, slice_get};
ghost use Rattle.std.specs.List.{AllByRecursion, filter_map};
ghost use Rattle.apply_model.specs.declared.details.change_details.ChangeDetails.{ChangeDetails};
ghost use Rattle.apply_model.specs.declared.details.note.Note.{Note};
ghost use Rattle.apply_model.specs.declared.details.output.Output.{Output};
ghost use Rattle.apply_model.specs.declared.plan.step_kind.StepKind.{StepKind};
ghost use Rattle.apply_model.specs.Plan.ResourceChange.{ResourceChange};
ghost use Rattle.apply_model.specs.Plan.SavedPlan.{SavedPlan};
ghost use Rattle.apply_model.specs.Script.OutcomeMap.{OutcomeMap, outcome_of};
ghost use Rattle.apply_events.specs.declared.counts.Counts.{Counts};
ghost use Rattle.apply_events.specs.declared.event.Event.{Event};
ghost use Rattle.apply_events.specs.Diagnostics.{is_note};
ghost use Rattle.apply_text.specs.declared.operation.Operation.{Operation};
ghost use Rattle.apply_text.specs.Lines as default;
ghost use Rattle.apply_text.specs.Start.{last_second};
ghost use Rattle.apply_text.specs.UtcTimestamp.{timestamp_text};
ghost use Rattle.apply_text_terraform.specs.Lines as terraform;
ghost use Rattle.apply_text_terraform.specs.Message.{is_silent, planned_message};
ghost use Rattle.apply_text_terraform.specs.UtcTimestamp.{precise_timestamp_text};
ghost use Rattle.apply_writer.specs.Stream.Terraform.{StreamExtras, planned_id_of};
ghost use Rattle.stream_message.specs.Timestamp.{instant_of};
ghost use Rattle.stream_record_lines.specs.declared.event.Event.TheVariants as event;
ghost use Rattle.stream_record_lines.specs.JsonMembers.{if_object, is_object, max_nesting};
ghost use Rattle.stream_record_lines.specs.Outputs.{output_of};
ghost use Rattle.stream_record_lines.specs.Seconds.{nearest_second};
ghost use Rattle.laws_check.specs.FormTexts.{HasFormTexts, HasOutputTexts};
ghost use Rattle.laws_check.specs.ReadBackInForm.{HasDetailTexts, HasNoteTexts};
ghost use Rattle.laws_check.specs.Texts.{AreSmall, HasChangeTexts, HasTexts, IsSmall};
ghost use Rattle.laws_lines.specs.Notes.{IsShallowText, note_in_form, plain_note, step_note_in_form};
ghost use Rattle.laws_lines.specs.Outputs.{HaveNamesApart, outputs_told, stated_output};
ghost use Rattle.laws_lines.specs.Stated.{IsNamed, IsStatedAs, stated_at, summary_of, told_by, told_in_form};
ghost use Rattle.laws_begun.specs.Telling.{stated_of};

/// The timestamp of each second that a line can show is read back as that second.
pub fn timestamps_are_read_back()
    ensures default { (seconds : ℕ) → seconds ≤ last_second
        → option_map nearest_second (instant_of (timestamp_text seconds)) ≡ Some (pos seconds) }
    ensures terraform { (seconds : ℕ) → seconds ≤ last_second
        → option_map nearest_second (instant_of (precise_timestamp_text seconds)) ≡ Some (pos seconds) }
{}

/// The line of a hook message states the event of the message, in the second of its timestamp.
///
/// The texts of the plan and of the script are UTF-8, the number of the event fits 64 bits, and the
/// name of a provisioner is not empty. `terraform`: the end of a read that failed has no line.
pub fn each_hook_message_states_its_event()
    ensures default { (plan : SavedPlan) (script : OutcomeMap) (start clock : ℕ) (one : Event)
        (change : ResourceChange) (kind : StepKind)
        → HasTexts plan script → start + clock ≤ last_second → IsSmall one.what
        → slice_get plan.changes one.change ≡ Some change → slice_get change.steps one.step ≡ Some kind
        → is_note one.what ≡ false → IsNamed (outcome_of script one.change one.step) one.what
        → IsStatedAs (default.event_text plan script start clock one)
        (stated_at (start + clock) (stated_of (told_by plan script) one)) }
    ensures terraform { (plan : SavedPlan) (script : OutcomeMap) (extras : StreamExtras) (start clock : ℕ) (one : Event)
        (change : ResourceChange) (kind : StepKind)
        → HasFormTexts plan script extras → start + clock ≤ last_second → IsSmall one.what
        → slice_get plan.changes one.change ≡ Some change → slice_get change.steps one.step ≡ Some kind
        → is_silent kind one.what ≡ false → is_note one.what ≡ false
        → IsNamed (outcome_of script one.change one.step) one.what
        → IsStatedAs (terraform.event_text plan script start clock (planned_id_of extras.details one.change) one)
        (stated_at (start + clock) (stated_of (told_in_form plan script extras.details) one)) }
{}

/// The line of a diagnostic states its severity, its texts and its address. An empty address counts
/// as none.
///
/// `default`: the address is that of the change, and there is no range or snippet. `terraform`: a
/// range or a snippet is stated if it is an object that nests at most 119 deep. `no_step`: a
/// diagnostic of no step, in Terraform's form.
pub fn each_diagnostic_is_stated()
    ensures default { (plan : SavedPlan) (script : OutcomeMap) (start clock : ℕ) (one : Event)
        (change : ResourceChange) (kind : StepKind)
        → HasTexts plan script → start + clock ≤ last_second → IsSmall one.what
        → slice_get plan.changes one.change ≡ Some change → slice_get change.steps one.step ≡ Some kind
        → is_note one.what ≡ true
        → IsStatedAs (default.event_text plan script start clock one)
        (stated_at (start + clock)
        (event.Diagnostic (plain_note change kind (outcome_of script one.change one.step) one.what))) }
    ensures terraform { (plan : SavedPlan) (script : OutcomeMap) (extras : StreamExtras) (start clock : ℕ) (one : Event)
        (change : ResourceChange) (kind : StepKind)
        → HasFormTexts plan script extras → start + clock ≤ last_second → IsSmall one.what
        → slice_get plan.changes one.change ≡ Some change → slice_get change.steps one.step ≡ Some kind
        → is_silent kind one.what ≡ false → is_note one.what ≡ true
        → IsStatedAs (terraform.event_text plan script start clock (planned_id_of extras.details one.change) one)
        (stated_at (start + clock)
        (event.Diagnostic (step_note_in_form change kind (outcome_of script one.change one.step) one.what))) }
    ensures no_step { (start clock : ℕ) (note : Note) → HasNoteTexts note → start + clock ≤ last_second
        → IsStatedAs (terraform.note_text start clock note)
        (stated_at (start + clock) (event.Diagnostic (note_in_form note))) }
{}

/// A range or a snippet that is an object and nests at most 119 deep comes back as the same text.
pub fn a_range_or_a_snippet_comes_back()
    ensures { (text : List ℕ) → IsShallowText max_nesting text → is_object text ≡ true → if_object text ≡ Some text }
{}

/// Outputs whose names are apart come back one after another, but for those whose type is `null`. A
/// sensitive output comes back without its value.
pub fn outputs_with_names_apart_come_back()
    ensures { (outputs : List Output) → HaveNamesApart outputs
        → outputs_told outputs ≡ filter_map output_of (map stated_output outputs) }
{}

/// The other lines state the version of the interface, what is summed up, and the outputs.
///
/// The line of a planned change states nothing that a script repeats.
pub fn each_other_line_states_what_it_tells()
    ensures version { (plan : SavedPlan) (start : ℕ) → IsUtf8 plan.version → start ≤ last_second
        → IsStatedAs (default.version_text plan start) (stated_at start (event.Version (Some (codes "1.0")))) }
    ensures summary { (start clock : ℕ) (operation : Operation) (counts : Counts)
        → AreSmall counts → start + clock ≤ last_second
        → IsStatedAs (default.summary_text start clock operation counts)
        (stated_at (start + clock) (event.Summary (summary_of operation))) }
    ensures version_in_form { (plan : SavedPlan) (start : ℕ) → IsUtf8 plan.version → start ≤ last_second
        → IsStatedAs (terraform.version_text plan start) (stated_at start (event.Version (Some (codes "1.2")))) }
    ensures summary_in_form { (start clock : ℕ) (operation : Operation) (counts : Counts) (imported : ℕ)
        → AreSmall counts → imported < 2 ^ 64 → start + clock ≤ last_second
        → IsStatedAs (terraform.summary_text start clock operation counts imported)
        (stated_at (start + clock) (event.Summary (summary_of operation))) }
    ensures planned { (change : ResourceChange) (word : List ℕ) (details : ChangeDetails) (start : ℕ)
        → HasChangeTexts change → HasDetailTexts details → IsUtf8 word → start ≤ last_second
        → IsStatedAs (terraform.message_line start (planned_message change word details)) (stated_at start event.Other) }
    ensures outputs { (start clock : ℕ) (outputs : List Output)
        → AllByRecursion HasOutputTexts outputs → start + clock ≤ last_second
        → IsStatedAs (terraform.outputs_text start clock outputs)
        (stated_at (start + clock) (event.Outputs (outputs_told outputs))) }
{}
