//! Tests of `input_validate` and `input_validate_cli`.
#![tactic(auto)]

#[cfg(test)]
mod tests;
