//! Laws of the scripts that `record` writes: a run accepts each of them.
//!
//! The functions do nothing: their contracts are the laws. No program links this crate.
#![tactic(auto)]

mod accepted;

pub use accepted::{
    a_run_accepts_each_script_of_a_plan_alone, a_run_accepts_each_script_that_record_writes,
};
