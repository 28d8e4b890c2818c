//! Tests of `stream_check`.
#![tactic(auto)]

#[cfg(test)]
mod tests;
