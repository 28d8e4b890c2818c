//! What a planning that failed leaves out of its plan, and the diagnostics of its failures.
#![tactic(auto)]

mod course;
mod failures;
mod kept;
mod lost_objects;
mod met;

pub use course::course_of;
pub use failures::has_error;
pub use kept::{kept_changes, kept_drifts, totals_of};
pub use lost_objects::LostObjects;
pub use met::Course;
