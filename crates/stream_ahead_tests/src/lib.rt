//! Tests of `stream_ahead`.
#![tactic(auto)]

#[cfg(test)]
mod tests;
