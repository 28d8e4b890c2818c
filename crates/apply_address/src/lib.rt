//! Splits the address of a resource into module, type, name and instance key.
#![tactic(auto)]

mod address_parts;
mod key_text;
mod last_part;
mod laws;
mod module_names;
mod name;
mod named;
mod number;
mod pieces;
mod quoted;

pub use address_parts::{AddressParts, parts_of};
pub use laws::an_address_has_one_reading;
pub use module_names::module_prefix;
