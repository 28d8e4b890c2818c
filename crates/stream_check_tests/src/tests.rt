//! Tests of what neither a clause states nor `checks/verdicts` sees of the program:
//!
//! - what a checker reports of itself, and findings in given lines;
//! - readers that fail, are interrupted, or give a line in parts;
//! - that standard input stays unread where a file is named;
//! - that an object is printed whole, however long it is.

mod files;
mod given;
mod reading;

use std::alloc::Global;
use std::io;
use std::io::{BufRead, BufReader, ErrorKind, Read};
use std::process::Abort;
use std::rt::Files;
use stream_check::{
    Check, Checker, Fault, Finding, Form, Mode, ReadFault, Settings, Totals, Whole, check,
    check_lines,
};
use stream_tool::{run_input, run_tool};

/// The first line.
const VERSION: &str = r#"{"type":"version"}"#;

/// A whole stream.
const WHOLE: &str = r#"{"type":"version"}
{"type":"apply_start","hook":{"action":"create","resource":{"addr":"a"}}}
{"type":"apply_complete","hook":{"action":"create","elapsed_seconds":0,"resource":{"addr":"a"}}}
{"type":"change_summary","changes":{"operation":"apply","add":1,"change":0,"remove":0}}
"#;

/// An error that explains every failure.
const ERROR: &str = r#"{"type":"diagnostic","diagnostic":{"severity":"error"}}"#;

/// Keeps the value until the process ends: a proof grows with each place that drops a value.
fn leaked<'a, T: Drop + 'a>(rt: &impl Abort, alloc: Global, value: T) -> &'a mut T {
    Box::leak(Box::new(alloc, value).expect(rt, "memory"))
}

/// Fails where the condition is false.
fn holds(rt: &impl Abort, case: &str, is_so: bool) {
    assert!(rt; is_so, "{case}");
}

/// Fails where the text is another.
fn text_is(rt: &impl Abort, case: &str, actual: &str, wanted: &str) {
    assert!(rt; actual == wanted, "{case}: {actual}");
}
