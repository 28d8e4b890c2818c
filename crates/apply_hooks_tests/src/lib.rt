//! Tests of `apply_hooks`.
#![tactic(auto)]

#[cfg(test)]
mod tests;
