//! Tests of `stream_play`.
#![tactic(auto)]

#[cfg(test)]
mod tests;
