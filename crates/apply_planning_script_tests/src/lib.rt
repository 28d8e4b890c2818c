//! Tests of `apply_planning_script`.
#![tactic(auto)]

#[cfg(test)]
mod tests;
