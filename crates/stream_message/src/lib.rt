//! Reads the members of a message that a tool selects, without building a tree.
#![tactic(auto)]

mod changes_slots;
mod diagnostic_slots;
mod hook_slots;
mod inner_slot;
mod kind;
mod line;
mod line_head;
mod line_slots;
mod located;
mod members;
mod named_slot;
mod presence;
mod range_slots;
mod selected_diagnostic;
mod selection;
mod stage;
mod stored_scratch;
mod timestamp;

pub use changes_slots::ChangesSlots;
pub use diagnostic_slots::DiagnosticSlots;
pub use hook_slots::HookSlots;
pub use inner_slot::InnerSlot;
pub use kind::Kind;
pub use line::read_line;
pub use line_head::{LineHead, read_head};
pub use line_slots::LineSlots;
pub use located::{found_message, from_mark, message_text, through_brace};
pub use presence::Presence;
pub use range_slots::RangeSlots;
pub use selection::Selection;
pub use stage::Stage;
pub use stored_scratch::take_scratch;
pub use timestamp::instant_of;
