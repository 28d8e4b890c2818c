//! Tests of `stream_record_steps`.
#![tactic(auto)]

#[cfg(test)]
mod tests;
