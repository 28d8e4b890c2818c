//! Tests of `apply_prior`.
#![tactic(auto)]

#[cfg(test)]
mod tests;
