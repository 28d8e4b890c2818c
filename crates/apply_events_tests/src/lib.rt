//! Tests of `apply_events`.
#![tactic(auto)]

#[cfg(test)]
mod tests;
