//! Tests of `stream_record_stream`.
#![tactic(auto)]

#[cfg(test)]
mod tests;
