//! Tests of `apply_json_tree`.
#![tactic(auto)]

#[cfg(test)]
mod tests;
