//! Tests of `apply_address`.
#![tactic(auto)]

#[cfg(test)]
mod tests;
