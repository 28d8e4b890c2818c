//! Tests of `term_text`.
#![tactic(auto)]

#[cfg(test)]
mod tests;
