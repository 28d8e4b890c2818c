//! Tests of `stream_record_outcomes`.
#![tactic(auto)]

#[cfg(test)]
mod tests;
