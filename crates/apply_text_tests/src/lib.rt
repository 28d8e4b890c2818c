//! Tests of `apply_text`.
#![tactic(auto)]

#[cfg(test)]
mod tests;
