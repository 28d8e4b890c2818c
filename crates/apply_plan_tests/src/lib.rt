//! Tests of `apply_plan`.
#![tactic(auto)]

#[cfg(test)]
mod tests;
