//! Checks of streams that a reader gives.

use super::*;

/// The verdict on `WHOLE`.
const EXPECTED: Whole = Whole {
    totals: Totals {
        added: 1,
        changed: 0,
        removed: 0,
    },
    has_errors: false,
    lines: 4,
    is_plan: false,
    passed: None,
};

/// Fails where the check through a buffer of that size has another verdict.
fn whole_is_reported(rt: &impl Abort, alloc: Global, capacity: usize) {
    let reader = BufReader::with_capacity(alloc, capacity, WHOLE.as_bytes());
    let reader = leaked(rt, alloc, reader.expect(rt, "memory"));
    holds(
        rt,
        "whole",
        check(alloc, Mode::PLAIN, reader) == Ok(EXPECTED),
    );
}

/// Each size of the buffer gives the same verdict, so lines are put together correctly.
#[test]
fn buffers(rt: HostRuntime) {
    for capacity in 1..40 {
        whole_is_reported(&rt, rt.alloc(), capacity);
    }
}

/// A reader that gives one byte at a time. Every second read is interrupted, and a read after the
/// last byte fails.
#[derive(Drop)]
struct Broken<'a> {
    bytes: &'a [u8],
    is_interrupted: bool,
}

impl<'a> Broken<'a> {
    /// A reader of these bytes.
    fn of(bytes: &'a [u8]) -> Broken<'a> {
        Broken {
            bytes,
            is_interrupted: false,
        }
    }
}

impl Read for Broken<'_> {
    fn read(&mut self, buf: &mut [u8]) -> io::Result<usize> {
        self.is_interrupted = !self.is_interrupted;
        if self.is_interrupted {
            return Err(io::Error::from(ErrorKind::Interrupted));
        }
        match self.bytes.split_first() {
            Some((byte, rest)) if !buf.is_empty() => {
                buf[0] = *byte;
                self.bytes = rest;
                Ok(1)
            }
            _ => Err(io::Error::from(ErrorKind::BrokenPipe)),
        }
    }
}

/// Fails where the check of the bytes, after which the reader fails, has another error.
fn broken_is_reported(rt: &impl Abort, alloc: Global, bytes: &[u8], wanted: &str) {
    let reader = BufReader::new(alloc, Broken::of(bytes));
    let reader = leaked(rt, alloc, reader.expect(rt, "memory"));
    match check(alloc, Mode::PLAIN, reader) {
        Ok(_) => rt.panic(wanted),
        Err(fault) => fault_is(rt, alloc, fault, wanted),
    }
}

/// Fails where the fault has another text.
fn fault_is(rt: &impl Abort, alloc: Global, fault: ReadFault, wanted: &str) {
    let text = leaked(rt, alloc, fault.to_string(alloc).expect(rt, "memory"));
    text_is(rt, wanted, text.as_str(), wanted);
}

#[test]
fn reader_fails(rt: HostRuntime) {
    let bytes = WHOLE.as_bytes();
    broken_is_reported(&rt, rt.alloc(), bytes, "the stream could not be read");
}

/// A fault is reported before the read after it fails.
#[test]
fn finding_comes_first(rt: HostRuntime) {
    let alloc = rt.alloc();
    let first = b"{\"type\":\"log\"}\n";
    broken_is_reported(&rt, alloc, first, "line 1 comes before the version");
    broken_is_reported(&rt, alloc, b"[\n", "line 1 is not a message");
    broken_is_reported(&rt, alloc, b"[]\n", "line 1 is not a message");
}

/// The settings of a stream on standard input.
fn of_input(form: Form) -> Settings {
    Settings {
        mode: Mode::PLAIN,
        run: None,
        write: None,
        form,
        file: None,
    }
}

/// The bytes as text.
fn text_of<'a>(rt: &impl Abort, bytes: &'a [u8]) -> &'a str {
    str::from_utf8(bytes).ok().expect(rt, "a text")
}

/// Fails where the check prints to the output, reports another message, or ends with another
/// status. Fails too where no later read fails.
fn input_is_reported<R: Read>(
    rt: &(impl Abort + Files),
    alloc: Global,
    form: Form,
    input: &mut R,
    status: u8,
    message: &str,
) {
    let printed = leaked(rt, alloc, Vec::new(alloc));
    let faults = leaked(rt, alloc, Vec::new(alloc));
    let checked = run_input(&Check, rt, alloc, &of_input(form), input, printed, faults);
    holds(rt, "printed", printed.is_empty());
    text_is(rt, "said", text_of(rt, faults.as_slice()), message);
    holds(rt, "status", checked.status == status);
    holds(rt, "not read to its end", checked.rest.is_err());
}

/// A failed read gives no verdict, and so no object.
#[test]
fn reader_fails_where_objects_are_wanted(rt: HostRuntime) {
    let mut input = Broken::of(WHOLE.as_bytes());
    let message = "applystream: the stream could not be read\n";
    input_is_reported(&rt, rt.alloc(), Form::Json, &mut input, 2, message);
    holds(&rt, "all that there is", input.bytes.is_empty());
}

/// A failed read after a fault ends the reading, and the report stays. An interrupted read does
/// not.
#[test]
fn behind_a_fault_a_read_fails(rt: HostRuntime) {
    let mut input = Broken::of(b"no message\nand more\n");
    let message = "applystream: line 1 is not a message: no message\n";
    input_is_reported(&rt, rt.alloc(), Form::Text, &mut input, 4, message);
    holds(&rt, "all that there is", input.bytes.is_empty());
}

/// After a fault, the input is read to its end.
#[test]
fn rest_of_a_reader_with_a_buffer(rt: HostRuntime) {
    let alloc = rt.alloc();
    let mut input = b"no message\nand more\n".as_slice();
    let printed = leaked(&rt, alloc, Vec::new(alloc));
    let faults = leaked(&rt, alloc, Vec::new(alloc));
    let settings = of_input(Form::Text);
    let checked = run_input(&Check, &rt, alloc, &settings, &mut input, printed, faults);
    holds(&rt, "status", checked.status == 4);
    holds(&rt, "no read fails", checked.rest.is_ok());
    holds(&rt, "all that there is", input.is_empty());
}

/// The length of the reported address: an object with it is larger than any buffer.
const LONG: usize = 70_000;

/// The bytes with that many letters between them.
fn around(rt: &impl Abort, alloc: Global, front: &str, back: &str) -> Vec<u8> {
    let mut bytes = Vec::new(alloc);
    bytes
        .extend_from_slice(front.as_bytes())
        .expect(rt, "memory");
    let letters = "a".repeat(alloc, LONG).expect(rt, "memory");
    bytes
        .extend_from_slice(letters.as_str().as_bytes())
        .expect(rt, "memory");
    bytes
        .extend_from_slice(back.as_bytes())
        .expect(rt, "memory");
    bytes
}

/// An object is printed whole, however long its texts are.
#[test]
fn object_of_a_long_address(rt: HostRuntime) {
    let alloc = rt.alloc();
    let front =
        "{\"type\":\"version\"}\n{\"type\":\"apply_start\",\"hook\":{\"action\":\"create\",\"resource\":{\"addr\":\"";
    let stream = leaked(&rt, alloc, around(&rt, alloc, front, "\"}}}\n"));
    let front = "{\"fault\":\"unended\",\"line\":2,\"open\":[{\"address\":\"";
    let back = "\",\"kind\":\"create\",\"line\":2}],\"whole\":false}\n";
    let wanted = leaked(&rt, alloc, around(&rt, alloc, front, back));
    let printed = leaked(&rt, alloc, Vec::new(alloc));
    let faults = leaked(&rt, alloc, Vec::new(alloc));
    let mut input = stream.as_slice();
    let settings = of_input(Form::Json);
    let checked = run_input(&Check, &rt, alloc, &settings, &mut input, printed, faults);
    holds(&rt, "status", checked.status == 4);
    let reported = checked.answer.expect(&rt, "a verdict").reported;
    holds(&rt, "said", reported == Ok(()));
    holds(&rt, "the object", printed.as_slice() == wanted.as_slice());
    holds(&rt, "nothing else", faults.is_empty());
}
