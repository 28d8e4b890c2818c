//! Tests of `stream_record_lines`.
#![tactic(auto)]

#[cfg(test)]
mod tests;
