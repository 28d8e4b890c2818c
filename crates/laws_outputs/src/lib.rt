//! Laws of recorded outputs: a run with the recorded script prints the same outputs.
//!
//! Each function does nothing: its contract is the law. No program links this crate.
#![tactic(auto)]

mod outputs;

pub use outputs::{outputs_come_again, outputs_that_were_read_come_again};
