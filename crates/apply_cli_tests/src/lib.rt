//! Tests of `apply_cli`.
#![tactic(auto)]

#[cfg(test)]
mod tests;
