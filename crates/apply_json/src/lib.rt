//! Reads JSON (RFC 8259) in one pass into slots of the caller, without building a tree.
#![tactic(auto)]

mod array_presence;
mod collector;
mod json_fault;
mod number;
mod parsing;
mod read_fault;
mod shallow;
mod skipping;
mod slots;
mod text;
mod value_start;
mod verbatim;

pub use array_presence::ArrayPresence;
pub use collector::{Collector, read_list};
pub use json::{Reader, Scratch};
pub use json_fault::JsonFault;
pub use parsing::{MAX_DEPTH, end, read_slots, text_of};
pub use read_fault::ReadFault;
pub use shallow::{Shallow, read_shallow, read_shallow_into};
pub use skipping::skip_value;
pub use slots::{Slots, read_object, skip_member};
pub use text::{is_text, non_empty};
pub use value_start::{ValueStart, read_start};
pub use verbatim::read_verbatim;
