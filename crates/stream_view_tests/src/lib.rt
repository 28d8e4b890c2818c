//! Tests of `stream_view`.
#![tactic(auto)]

#[cfg(test)]
mod tests;
