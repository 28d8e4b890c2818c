//! Tests of `apply_planning`.
#![tactic(auto)]

#[cfg(test)]
mod tests;
