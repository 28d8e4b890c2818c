//! What further lists of a script are read with: items of an array, and failures as those of steps.

pub use crate::script::list_item::ListItem;
pub use crate::script::list_items::read_items;
pub use crate::script::raw_diag::RawDiag;
pub use crate::script::raw_failure::RawFailure;
