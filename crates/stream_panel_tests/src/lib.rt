//! Tests of `stream_panel`.
#![tactic(auto)]

#[cfg(test)]
mod tests;
