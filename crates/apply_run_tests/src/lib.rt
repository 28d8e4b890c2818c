//! Tests of `apply_run`.
#![tactic(auto)]

#[cfg(test)]
mod tests;
