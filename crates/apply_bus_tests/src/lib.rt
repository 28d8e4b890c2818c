//! Tests of `apply_bus`.
#![tactic(auto)]

#[cfg(test)]
mod tests;
