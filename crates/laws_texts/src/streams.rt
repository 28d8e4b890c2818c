//! Laws of streams: when two are the same bytes. Each function does nothing: its contract is the
//! law.

ghost use Rattle.std.specs.Prelude.{◌≡◌, List, map, ℕ};
ghost use Rattle.apply_model.specs.Plan.SavedPlan.{SavedPlan};
ghost use Rattle.apply_model.specs.Script.OutcomeMap.{OutcomeMap};
ghost use Rattle.apply_events.specs.declared.event.Event.{Event};
ghost use Rattle.apply_text.specs.Lines.{stream_of};
ghost use Rattle.apply_text.specs.declared.operation.Operation.{Operation};
ghost use Rattle.apply_writer.specs.Stream.Form.{plain_form, stream_in};
ghost use Rattle.apply_writer.specs.Stream.Terraform.{StreamExtras, terraform_form};
ghost use Rattle.laws_texts.specs.Alike.{IsToldAlike};
ghost use Rattle.laws_texts.specs.Streams.{AreSame, notes_told, plain_address, without_place};
ghost use Rattle.laws_texts.specs.Terraform.{AreSameStreams};

/// Two streams in the default form are the same bytes, if they have the same hook messages, the
/// message of each shows the same, and they have the same diagnostics.
///
/// `text`: as `apply_text` states the stream. `form`: as the writer writes it.
pub fn streams_of_the_same_messages_are_the_same()
    ensures text { (plan : SavedPlan) (one other : OutcomeMap) (start : ℕ) (operation : Operation) (events others : List Event)
        → AreSame (IsToldAlike plan one other) events others
        → map without_place (notes_told plain_address plan other others)
        ≡ map without_place (notes_told plain_address plan one events)
        → stream_of plan other start operation others ≡ stream_of plan one start operation events }
    ensures form { (plan : SavedPlan) (one other : OutcomeMap) (start : ℕ) (operation : Operation) (events others : List Event)
        → AreSame (IsToldAlike plan one other) events others
        → map without_place (notes_told plain_address plan other others)
        ≡ map without_place (notes_told plain_address plan one events)
        → stream_in (plain_form plan other start operation) others ≡ stream_in (plain_form plan one start operation) events }
{}

/// Two streams in Terraform's form are the same bytes, if they have the same hook messages, the
/// message of each shows the same, and they have the same diagnostics. A diagnostic may be of a
/// step in one of them and of no step in the other.
pub fn streams_in_terraforms_form_are_the_same()
    ensures { (plan : SavedPlan) (one other : OutcomeMap) (extras other_extras : StreamExtras) (start : ℕ) (operation : Operation)
        (events others : List Event) → AreSameStreams plan one other extras other_extras events others
        → stream_in (terraform_form plan other other_extras start operation) others
        ≡ stream_in (terraform_form plan one extras start operation) events }
{}
