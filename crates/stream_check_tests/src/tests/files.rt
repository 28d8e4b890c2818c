//! Checks of named files.

use super::*;
use std::{array, fs};

/// Standard input, which must stay unread.
const UNREAD: &[u8] = b"no message\n";

/// Fails where the check of the file ends with another status, or reads standard input.
fn file_alone_is_read(
    rt: &(impl Abort + Files),
    alloc: Global,
    name: &str,
    stream: &str,
    status: u8,
) {
    fs::write(rt, name, stream).expect(rt, "a file");
    let word = String::from_str(alloc, name).expect(rt, "memory");
    let word = &*leaked(rt, alloc, word);
    let mut input = UNREAD;
    let printed = leaked(rt, alloc, Vec::new(alloc));
    let faults = leaked(rt, alloc, Vec::new(alloc));
    let words = array::from_ref(word);
    let actual = run_tool(&Check, rt, alloc, words, false, &mut input, printed, faults);
    fs::remove_file(rt, name).expect(rt, "the file");
    holds(rt, name, actual.status == status);
    holds(rt, name, input == UNREAD);
}

#[test]
fn file_that_is_whole(rt: HostRuntime) {
    file_alone_is_read(&rt, rt.alloc(), "whole.jsonl", WHOLE, 0);
}

/// The rest after the fault is read from the file.
#[test]
fn file_that_is_not_whole(rt: HostRuntime) {
    let stream = "{\"type\":\"version\"}\n{\"type\":\"version\"}\nand more\n";
    file_alone_is_read(&rt, rt.alloc(), "not_whole.jsonl", stream, 4);
}
