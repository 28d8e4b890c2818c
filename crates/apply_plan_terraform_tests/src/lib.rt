//! Tests of `apply_plan_terraform`.
#![tactic(auto)]

#[cfg(test)]
mod tests;
