//! The command, from its arguments to its exit status.

use super::*;
use std::{array, fs};

/// An empty vector.
fn no_bytes(rt: &impl Abort, alloc: Global) -> &'static mut Vec<u8> {
    leaked(rt, alloc, Vec::new(alloc))
}

/// The settings of a stream on standard input.
fn of_input(speed: u32) -> Settings {
    Settings {
        speed: Speed::new(speed),
        find: false,
        run: None,
        file: None,
    }
}

/// Plays `UPDATE` into a writer that fails after `room` bytes. Fails where the status, the written
/// bytes or the message differ.
fn ends_with(
    rt: &(impl Abort + Files),
    alloc: Global,
    is_broken: bool,
    room: usize,
    kind: ErrorKind,
    status: u8,
    message: &str,
) {
    let world = new_world(rt, alloc, "");
    let bytes = UPDATE.as_bytes();
    let mut input = Pieces {
        world,
        bytes,
        most: 65_536,
        is_broken,
    };
    let mut taker = Taker {
        world,
        wanted: bytes.get(..room).unwrap_or(bytes),
        is_other: false,
        most: 1,
        room,
        kind,
    };
    let faults = no_bytes(rt, alloc);
    let outcome = run_input(
        &Play { clock: world },
        rt,
        alloc,
        &of_input(86_400),
        &mut input,
        &mut taker,
        faults,
    );
    holds(rt, "status", outcome.status == status);
    holds(rt, "said", faults.as_slice() == message.as_bytes());
    holds(rt, "what came out", taker.has_all());
    holds(rt, "read to its end", input.bytes.is_empty());
}

#[test]
fn reader_that_fails(rt: HostRuntime) {
    let message = "applystream: the stream could not be read\n";
    let full = ErrorKind::StorageFull;
    ends_with(&rt, rt.alloc(), true, usize::MAX, full, 2, message);
}

/// The writer fails at each byte of the output, and at the flush after the last byte. Nothing is
/// reported where the reader of the output is gone.
#[test]
fn writer_that_fails(rt: HostRuntime) {
    let alloc = rt.alloc();
    let message = "applystream: the output could not be written\n";
    for room in 0..=UPDATE.len() {
        ends_with(&rt, alloc, false, room, ErrorKind::StorageFull, 3, message);
        ends_with(&rt, alloc, false, room, ErrorKind::BrokenPipe, 3, "");
    }
}

/// Lines before a line that is too long are played, and the input is read to its end.
#[test]
fn line_that_is_too_long(rt: HostRuntime) {
    let alloc = rt.alloc();
    let world = new_world(&rt, alloc, "");
    let front: &[u8] = b"a\nb\n";
    let mut input = front.chain(io::repeat(b' ').take(67_108_865));
    let taken = no_bytes(&rt, alloc);
    let faults = no_bytes(&rt, alloc);
    let outcome = run_input(
        &Play { clock: world },
        &rt,
        alloc,
        &of_input(1),
        &mut input,
        taken,
        faults,
    );
    holds(&rt, "status", outcome.status == 2);
    holds(&rt, "what came out", taken.as_slice() == front);
    let message = "applystream: line 3 is longer than 67108864 bytes\n";
    holds(&rt, "said", faults.as_slice() == message.as_bytes());
}

/// Where the output fails, the input is read to its end.
#[test]
fn rest_of_a_reader_with_a_buffer(rt: HostRuntime) {
    let alloc = rt.alloc();
    let world = new_world(&rt, alloc, "");
    let mut input = Pieces {
        world,
        bytes: UPDATE.as_bytes(),
        most: 7,
        is_broken: false,
    };
    let mut taker = Taker {
        world,
        wanted: UPDATE.as_bytes(),
        is_other: false,
        most: 1,
        room: 3,
        kind: ErrorKind::StorageFull,
    };
    let faults = no_bytes(&rt, alloc);
    let outcome = run_input(
        &Play { clock: world },
        &rt,
        alloc,
        &of_input(1),
        &mut input,
        &mut taker,
        faults,
    );
    holds(&rt, "status", outcome.status == 3);
    let unwritten = Some(Err(PlayFault::Unwritten));
    holds(&rt, "the fault", outcome.answer == unwritten);
    holds(&rt, "no read fails", outcome.rest.is_ok());
    holds(&rt, "all that there is", input.bytes.is_empty());
}

/// Runs `play` with one argument. Fails where the status, the start of the message, or the rest of
/// the input differs.
fn word_leaves(
    rt: &(impl Abort + Files),
    alloc: Global,
    word: &str,
    is_terminal: bool,
    status: u8,
    wanted: &str,
    left: usize,
) {
    let word = String::from_str(alloc, word).expect(rt, "memory");
    let word = &*leaked(rt, alloc, word);
    let world = new_world(rt, alloc, "");
    let mut input: &[u8] = b"a\n";
    let out = no_bytes(rt, alloc);
    let faults = no_bytes(rt, alloc);
    let result = run_tool(
        &Play { clock: world },
        rt,
        alloc,
        array::from_ref(word),
        is_terminal,
        &mut input,
        out,
        faults,
    );
    holds(rt, wanted, result.status == status);
    let message = if status == 0 {
        out.as_slice()
    } else {
        faults.as_slice()
    };
    holds(rt, wanted, message.starts_with(wanted.as_bytes()));
    holds(rt, wanted, input.len() == left);
}

/// The text before the first mark, and the text after it.
fn parted<'a>(rt: &impl Abort, row: &'a str) -> (&'a str, &'a str) {
    row.split_once('|').expect(rt, "a mark")
}

/// Runs each row. Fails where its status is not 2, or its message or the rest of the input differs.
/// A row has an argument and the start of a message, each with a mark after it.
fn words_are_refused(
    rt: &(impl Abort + Files),
    alloc: Global,
    is_terminal: bool,
    rows: &str,
    left: usize,
) {
    for row in rows.lines() {
        let (word, rest) = parted(rt, row);
        let (wanted, _) = parted(rt, rest);
        word_leaves(rt, alloc, word, is_terminal, 2, wanted, left);
    }
}

/// Refused arguments, and files that do not exist.
const REFUSED: &str = "--speed=0|error: |
--speed=86401|error: |
--fast|error: unexpected argument '--fast' found|
no such file|applystream: the file no such file could not be opened: |
 no such file |applystream: the file  no such file  could not be opened: |";

/// The input is played or read to its end, but not for help.
#[test]
fn words(rt: HostRuntime) {
    let alloc = rt.alloc();
    word_leaves(&rt, alloc, "-", false, 0, "a\n", 0);
    let fast = "--speed=86400";
    word_leaves(&rt, alloc, fast, false, 0, "a\n", 0);
    word_leaves(&rt, alloc, "--help", false, 0, "Writes a stream", 2);
    words_are_refused(&rt, alloc, false, REFUSED, 0);
}

/// Refused arguments and a file that can't be opened, at a terminal.
const AT_A_TERMINAL: &str = "--fast|error: |
no|applystream: |";

/// Such arguments leave the input as it is. So does a file that can't be read, such as a folder.
#[test]
fn input_that_is_left_alone(rt: HostRuntime) {
    let alloc = rt.alloc();
    words_are_refused(&rt, alloc, true, AT_A_TERMINAL, 2);
    let folder = "applystream: the file . could not be read: ";
    word_leaves(&rt, alloc, ".", false, 2, folder, 2);
}

/// Where a file was opened, the input stays unread.
#[test]
fn file_alone_is_read(rt: HostRuntime) {
    let alloc = rt.alloc();
    let name = "played.jsonl";
    fs::write(&rt, name, "b\nc").expect(&rt, "a file");
    word_leaves(&rt, alloc, name, false, 0, "b\nc", 2);
    fs::remove_file(&rt, name).expect(&rt, "the file");
}
