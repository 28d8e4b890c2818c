//! Tests of `apply_text_planning`.
#![tactic(auto)]

#[cfg(test)]
mod tests;
