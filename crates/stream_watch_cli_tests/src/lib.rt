//! Tests of `stream_watch_cli`.
#![tactic(auto)]

#[cfg(test)]
mod tests;
