//! Values that are stored as JSON texts.

mod beginning;
mod copying;
pub mod items;
mod outputs;
pub mod part;
mod reading;
pub mod seeking;
