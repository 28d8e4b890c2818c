//! The scratch that a reader of lines stores from one line to the next.

use apply_json::Scratch;
use std::alloc::{AllocError, Global};

/// Takes the stored scratch, or makes one. `Err` where memory is refused.
pub fn take_scratch(
    alloc: Global,
    stored: &mut Option<Box<Scratch>>,
) -> Result<Box<Scratch>, AllocError> {
    match stored.take() {
        Some(scratch) => Ok(scratch),
        None => Ok(Box::new(alloc, Scratch::new(alloc))?),
    }
}
