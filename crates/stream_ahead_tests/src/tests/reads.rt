//! What the reader gives.

use super::*;

/// Returns a text of that length. Its bytes repeat after 251, so no two chunks are alike.
fn long_text(rt: &impl Abort, alloc: Global, len: usize) -> &'static [u8] {
    let mut bytes = Vec::with_capacity(alloc, len).expect(rt, "memory");
    for place in 0..len {
        bytes.push((place % 251) as u8).ok().expect(rt, "memory");
    }
    let bytes = Box::leak(Box::new(alloc, bytes).expect(rt, "memory"));
    bytes.as_slice()
}

/// Fails unless the reader gives all bytes of a text of that length, which comes in pieces of at
/// most so many bytes.
fn comes_through<T: Threads + Wait + Clock + Sync + Abort>(
    rt: &T,
    alloc: Global,
    len: usize,
    most: usize,
) {
    let bytes = long_text(rt, alloc, len);
    let mut came = Vec::new(alloc);
    let outcome = read_ahead(
        rt,
        alloc,
        Pieces { bytes, most },
        |reader, _pace| reader.read_to_end(&mut came),
    );
    let count = outcome.expect(rt, "a thread").expect(rt, "no error");
    holds(rt, "the number of bytes", count == len);
    holds(rt, "the bytes", came.as_slice() == bytes);
}

#[test]
fn all_bytes_come_in_their_order(rt: HostRuntime) {
    let alloc = rt.alloc();
    comes_through(&rt, alloc, 0, 1);
    comes_through(&rt, alloc, 5_000, 1);
    comes_through(&rt, alloc, 150_001, 7);
    comes_through(&rt, alloc, 200_003, 65_537);
}

/// Bytes, errors of two kinds between them, the end, and bytes after the end.
const STEPS: &[Step] = &[
    Step::Bytes(b"before"),
    Step::Fails(ErrorKind::Interrupted),
    Step::Bytes(b"between"),
    Step::Fails(ErrorKind::PermissionDenied),
    Step::Bytes(b"after"),
    Step::End,
    Step::Bytes(b"never"),
];

/// Fails unless the reader gives the steps up to the first end, and then the end each time.
fn gives_steps(rt: &impl Abort, reader: &mut impl Read) {
    gives(rt, "before the errors", reader, b"before");
    fails(rt, "the first", reader, ErrorKind::Interrupted);
    gives(rt, "between the errors", reader, b"between");
    fails(rt, "the second", reader, ErrorKind::PermissionDenied);
    gives(rt, "after the errors", reader, b"after");
    gives(rt, "the end", reader, b"");
    gives(rt, "still the end", reader, b"");
}

/// Fails unless the reader gives the steps, or where the input is read after its end.
fn reads_steps<T: Threads + Wait + Clock + Sync + Abort>(rt: &T, alloc: Global) {
    let gate = Gate::new();
    let input = Script {
        rt,
        gate: &gate,
        steps: STEPS,
    };
    let outcome = read_ahead(rt, alloc, input, |reader, _pace| gives_steps(rt, reader));
    holds(rt, "a thread", outcome.is_ok());
    holds(rt, "no read after the end", gate.reads() == 6);
}

#[test]
fn errors_and_the_end_come_at_their_places(rt: HostRuntime) {
    reads_steps(&rt, rt.alloc());
}
