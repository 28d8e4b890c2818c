//! Tests of `stream_timeline`.
#![tactic(auto)]

#[cfg(test)]
mod tests;
