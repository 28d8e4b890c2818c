//! Reads a stream into a time line: which step ran when, how many at once, and which get a row.
#![tactic(auto)]

mod bars;
mod laws;
mod numbers;
mod reading;
mod rows;

pub use bars::halves::{Halves, halves_of};
pub use bars::levels::levels_of;
pub use bars::scale::place_on;
pub use laws::a_builder_stores_what_is_defined;
pub use numbers::interval::Interval;
pub use numbers::measures::{Numbers, numbers_of};
pub use numbers::stretch::Stretch;
pub use reading::builder::TimelineBuilder;
pub use reading::diagnostic::Diagnostic;
pub use reading::diagnostics::Diagnostics;
pub use reading::limits::{MAX_LINES, MAX_STEPS};
pub use reading::provisioner::Provisioner;
pub use reading::step::Step;
pub use reading::time_range::TimeRange;
pub use reading::timeline::Timeline;
pub use reading::timeline_fault::TimelineFault;
pub use reading::totals::Totals;
pub use reading::version::Version;
pub use reading::whole_stream::read;
pub use rows::by_length::rows_by_length;
pub use rows::choosing::{Rows, rows_of};
