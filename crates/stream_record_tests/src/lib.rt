//! Tests of `stream_record`.
#![tactic(auto)]

#[cfg(test)]
mod tests;
