//! Runs an apply: workers or lanes apply the changes, and a collector writes their events.
#![tactic(auto)]

mod applying;
mod bytes;
mod bytes_in_lanes;
mod collector;
mod form_report;
mod lanes;
mod laws;
mod options;
mod read_inputs;
mod refusal;
mod run;
mod stated_inputs;
mod worker;

pub use apply_events::MAX_LANES;
pub use apply_writer::{Fault, MemorySink, Report, Sink, SinkFault, StdSink, Why, write_all};
pub use applying::{apply_in_form, apply_stream};
pub use bytes::{apply_bytes, apply_bytes_in_form};
pub use bytes_in_lanes::{apply_bytes_in_form_and_lanes, apply_bytes_in_lanes};
pub use form_report::FormReport;
pub use lanes::{apply_in_lanes, apply_lanes_in_form, are_lanes};
pub use laws::one_worker_applies_all_changes_in_order;
pub use options::Options;
pub use refusal::Refusal;
pub use stated_inputs::{ReadBytes, ReadStated, read_stated};
pub use worker::gate::{Gate, NoGate};
