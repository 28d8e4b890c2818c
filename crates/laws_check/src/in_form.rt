//! Laws of the messages that a checker reads back from a stream in Terraform's form.
//!
//! Each function does nothing, or calls the laws that its own law follows from: its contract is the
//! law.

ghost use Rattle.std.specs.Prelude.{◌≡◌, ◌<◌, ◌^◌, ℕ, Bool, List, [], ◌∷◌, is_ok, length, true, Option, None, Ok, IfSome, IsUtf8};
ghost use Rattle.std.specs.List.{concat};
ghost use Rattle.json.specs.Json.{Json};
ghost use Rattle.json.specs.Tree.{HasNumbers};
ghost use Rattle.serde_json.specs.Data.{Data};
ghost use Rattle.apply_json.specs.Verbatim.{verbatim};
ghost use Rattle.apply_json.specs.Tree.{tree_of};
ghost use Rattle.apply_model.specs.declared.details.change_details.ChangeDetails.{ChangeDetails};
ghost use Rattle.apply_model.specs.declared.details.note.Note.{Note};
ghost use Rattle.apply_model.specs.declared.plan.step_kind.StepKind.{StepKind};
ghost use Rattle.apply_model.specs.declared.script.outcome.Outcome.{Outcome};
ghost use Rattle.apply_model.specs.Plan.ResourceChange.{ResourceChange};
ghost use Rattle.apply_model.specs.Plan.SavedPlan.{SavedPlan};
ghost use Rattle.stream_lines.specs.Cut.{cut_lines};
ghost use Rattle.stream_check.specs.Judged.{judged};
ghost use Rattle.stream_check.specs.Lines.{at_line, end_of, verdict_of};
ghost use Rattle.stream_check.specs.Message.{Message, summary, version};
ghost use Rattle.apply_events.specs.declared.counts.Counts.{Counts};
ghost use Rattle.apply_events.specs.declared.event.Event.{Event};
ghost use Rattle.apply_events.specs.declared.what.What.{What};
ghost use Rattle.apply_events.specs.Step.{Work};
ghost use Rattle.apply_text.specs.declared.operation.Operation.{Operation};
ghost use Rattle.apply_text.specs.Lines as default;
ghost use Rattle.apply_text.specs.Message.{event_message};
ghost use Rattle.apply_text.specs.UtcTimestamp.{timestamp_text};
ghost use Rattle.apply_text_terraform.specs.Escapes.{escaped};
ghost use Rattle.apply_text_terraform.specs.Lines.{event_line, note_text, planned_text, summary_text, version_text};
ghost use Rattle.apply_text_terraform.specs.UtcTimestamp.{precise_timestamp_text};
ghost use Rattle.apply_writer.specs.Stream.Terraform.{StreamExtras};
ghost use Rattle.laws_check.specs.Accepted.{totals_of_counts};
ghost use Rattle.laws_check.specs.AcceptedInForm.{IsTakenInForm};
ghost use Rattle.laws_check.specs.Applied.{HasShortLines};
ghost use Rattle.laws_check.specs.Forms.{AreVerbatim, IsParsedAs, IsSameInBothForms, message_in_form, event_diagnostic};
ghost use Rattle.laws_check.specs.Objects.{object_at};
ghost use Rattle.laws_check.specs.Passing.{plain, with_all};
ghost use Rattle.laws_check.specs.Plans.{ChangesAreWhole, IsOrdinary, ProvisionsCreates, WarnsOfReads};
ghost use Rattle.laws_check.specs.Texts.{AreSmall, HasChangeTexts, HasOutcomeTexts, IsSmall};
ghost use Rattle.laws_check.specs.ReadBackInForm.{
  AreReadBackAs,
  HasDetailTexts,
  HasNoteTexts,
  IsReadBackAs,
  read_back_in_form,
  planned_read_back,
  read_back_before_end,
  diagnostic_read_back,
};
ghost use Rattle.laws_check.specs.WholeSteps.{IsOfWholeSteps};

/// A printed JSON value is read as the same tree with its escapes: each escape stands for its
/// character.
pub fn an_escaped_text_is_read_as_the_text()
    ensures { (j : Json) → HasNumbers j → IsUtf8 (verbatim j) → tree_of (escaped (verbatim j)) ≡ tree_of (verbatim j) }
{}

/// As they are read back, the two lines of an event differ only in the text of their timestamp, but
/// for three things.
///
/// Terraform's form has the planned id at a completion for which the script states no id. It leaves
/// the address out of what a provider reports of a delete. It has the range and the snippet of a
/// diagnostic. `same`: without another id, a missing address, a range and a snippet, both lines
/// have the same message.
///
/// `applystream`: the line in the default form. `terraform`: the line in Terraform's form. The
/// escapes and the order of members do not matter.
pub fn both_forms_have_the_same_message_for_an_event()
    ensures applystream { (change : ResourceChange) (step : StepKind) (outcome : Outcome) (what : What) (seconds : ℕ)
        → HasChangeTexts change → HasOutcomeTexts outcome → IsSmall what
        → IsParsedAs (default.message_line seconds (event_message change step outcome what))
        (object_at (timestamp_text seconds) (event_message change step outcome what)) }
    ensures terraform { (change : ResourceChange) (step : StepKind) (outcome : Outcome) (planned : Option (List ℕ))
        (range snippet : Option Data) (what : What) (seconds : ℕ)
        → HasChangeTexts change → HasOutcomeTexts outcome → IsSmall what → IfSome planned IsUtf8
        → AreVerbatim (event_diagnostic outcome what) range snippet
        → IsParsedAs (event_line seconds change step outcome planned what)
        (object_at (precise_timestamp_text seconds) (message_in_form change step outcome planned range snippet what)) }
    ensures same { (change : ResourceChange) (step : StepKind) (outcome : Outcome) (planned : Option (List ℕ)) (what : What)
        → IsSameInBothForms change step outcome planned what
        → message_in_form change step outcome planned None None what ≡ event_message change step outcome what }
{}

/// The line of an event in Terraform's form is read back as the same message as in the default
/// form, but for one thing. What a provider reports of a delete has no address.
///
/// The message has the address, the action, the seconds, and the stage of a provisioner.
pub fn every_line_of_an_event_is_read_back()
    ensures { (change : ResourceChange) (step : StepKind) (outcome : Outcome) (planned : Option (List ℕ))
        (range snippet : Option Data) (what : What) (seconds : ℕ)
        → HasChangeTexts change → HasOutcomeTexts outcome → IsSmall what → IfSome planned IsUtf8
        → AreVerbatim (event_diagnostic outcome what) range snippet
        → IsReadBackAs (event_line seconds change step outcome planned what) (read_back_in_form change step outcome what) }
{
    both_forms_have_the_same_message_for_an_event();
}

/// The other lines in Terraform's form are read back, too.
///
/// `version`: the first line has the version. `planned`: the line of a planned change has what its
/// word plans. `note`: a diagnostic of no step has its severity and its address. `summary`: the
/// summary has the totals.
pub fn every_line_of_no_event_is_read_back()
    ensures version { (plan : SavedPlan) (start : ℕ) → IsUtf8 plan.version → IsReadBackAs (version_text plan start) version }
    ensures planned { (change : ResourceChange) (details : ChangeDetails) (start : ℕ) → HasChangeTexts change → HasDetailTexts details
        → AreReadBackAs (planned_text start change details ∷ []) (planned_read_back change details) }
    ensures note { (note : Note) (start latest : ℕ) → HasNoteTexts note
        → IsReadBackAs (note_text start latest note) (diagnostic_read_back note) }
    ensures summary { (start latest : ℕ) (operation : Operation) (counts : Counts) (imported : ℕ)
        → AreSmall counts → imported < 2 ^ 64
        → IsReadBackAs (summary_text start latest operation counts imported) (summary (totals_of_counts counts)) }
{}

/// The checker's verdict on lines is its verdict on their messages.
///
/// Each line is read back as one message that is accepted, and no line is longer than 64 MiB. `all`:
/// the messages, the latest first.
pub fn lines_are_judged_by_their_messages()
    ensures verdict { (plans : Bool) (lines : List (List ℕ)) (messages all : List Message) → AreReadBackAs lines messages
        → HasShortLines (concat lines) → with_all [] messages ≡ Ok all
        → verdict_of (plain plans) (cut_lines (concat lines)) ≡ at_line (plain plans) all (length all) (end_of (plain plans) all) }
    ensures messages { (plans : Bool) (lines : List (List ℕ)) (messages all : List Message) → AreReadBackAs lines messages
        → HasShortLines (concat lines) → with_all [] messages ≡ Ok all
        → judged (plain plans) (cut_lines (concat lines)) ≡ all }
{}

/// In Terraform's form the checker accepts each message of whole steps before the end of the
/// stream.
///
/// The messages are those of planned changes, then those of events in the order in which they are
/// written, then the diagnostics of no step. No more steps begin than are planned. A read that
/// failed has no end in this form, and stays open next to others. Each change of the plan does one
/// thing to its object or replaces the object.
pub fn every_message_before_the_end_is_accepted()
    ensures { (work : Work) (extras : StreamExtras) (events : List Event)
        → IsOrdinary work.plan → ChangesAreWhole work.plan → length extras.details ≡ length work.plan.changes
        → ProvisionsCreates work.plan work.script → WarnsOfReads work.plan work.script
        → IsOfWholeSteps work events
        → is_ok (with_all [] (version ∷ read_back_before_end work.plan work.script extras events)) ≡ true }
{}

/// In Terraform's form the checker accepts the messages of whole steps to the end of the stream,
/// with their totals.
///
/// The stream is not whole where it tells no error and a create of the plan never starts. The checker
/// finds just these creates. The verdict has an error if and only if a step failed, a step was halted, or a diagnostic of no
/// step is an error. The error of a failed delete may name no address. At least as many errors name
/// no address as steps failed at addresses that no error names. So each failure has an error.
pub fn whole_steps_are_accepted_in_terraforms_form()
    ensures { (plans : Bool) (work : Work) (extras : StreamExtras) (operation : Operation) (events : List Event)
        → IsOrdinary work.plan → ChangesAreWhole work.plan → length extras.details ≡ length work.plan.changes
        → ProvisionsCreates work.plan work.script → WarnsOfReads work.plan work.script → IsOfWholeSteps work events
        → IsTakenInForm plans work.plan work.script extras operation events }
{}
