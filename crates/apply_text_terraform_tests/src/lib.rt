//! Tests of `apply_text_terraform`.
#![tactic(auto)]

#[cfg(test)]
mod tests;
