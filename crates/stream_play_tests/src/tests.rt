//! Tests of what no clause states:
//!
//! - when a line waits and when the output is flushed, by a clock that counts;
//! - readers, writers and clocks that fail;
//! - messages and exit statuses;
//! - that calls succeed with enough memory.

mod commands;
mod rows;
mod world;

use std::alloc::Global;
use std::cell::Cell;
use std::io;
use std::io::{BufRead, BufReader, ErrorKind, Read, Write};
use std::process::Abort;
use std::rt::Files;
use std::time::{Clock, Duration};
use stream_play::{Play, PlayFault, Settings, Speed, play};
use stream_tool::{run_input, run_tool};
use world::{Pieces, Taker, World, new_reader, new_world};

/// An update of 25 seconds, in six lines.
const UPDATE: &str = r#"{"@timestamp":"2024-05-01T12:00:00Z","type":"version"}
{"@timestamp":"2024-05-01T12:00:00Z","type":"apply_start"}
{"@timestamp":"2024-05-01T12:00:10Z","type":"apply_progress"}
{"@timestamp":"2024-05-01T12:00:20Z","type":"apply_progress"}
{"@timestamp":"2024-05-01T12:00:25Z","type":"apply_complete"}
{"@timestamp":"2024-05-01T12:00:25Z","type":"change_summary"}
"#;

/// Keeps the value until the process ends: a proof grows with each place that drops a value.
fn leaked<'a, T: Drop + 'a>(rt: &impl Abort, alloc: Global, value: T) -> &'a mut T {
    Box::leak(Box::new(alloc, value).expect(rt, "memory"))
}

/// Fails where the condition is false. A call adds less to a proof than an assertion.
fn holds(rt: &impl Abort, case: &str, is_so: bool) {
    assert!(rt; is_so, "{case}");
}
