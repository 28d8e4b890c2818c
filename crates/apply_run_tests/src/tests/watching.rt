//! Gates and a sink that watch a run: which steps pass, which lines are written, and in what order.

ghost use Rattle.std.specs.Prelude.{◌≡◌, ◌<◌};

use super::*;

/// A plan with four creates.
pub(super) const FOUR_CREATES: &str =
    r#"{"format_version":"1.2","terraform_version":"1.9.0","resource_changes":[{"address":"null_resource.a","mode":"managed","type":"null_resource","name":"a","change":{"actions":["create"]}},{"address":"null_resource.b","mode":"managed","type":"null_resource","name":"b","change":{"actions":["create"]}},{"address":"null_resource.c","mode":"managed","type":"null_resource","name":"c","change":{"actions":["create"]}},{"address":"null_resource.d","mode":"managed","type":"null_resource","name":"d","change":{"actions":["create"]}}]}"#;

/// Waits until the word is at least so much, for so many turns at most, and returns whether that
/// happened in time.
fn comes_within(word: &AtomicU64, least: u64, turns: u32) -> bool {
    for _ in 0..turns {
        if word.load(Ordering::SeqCst) >= least {
            return true;
        }
        yield_now();
    }
    false
}

/// How many turns a worker is held for at most.
const MAX_TURNS: u32 = 10_000_000;

/// Fails if the word is another number.
pub(super) fn word_is(rt: &impl Abort, name: &str, word: &AtomicU64, wanted: u64) {
    number_is(rt, name, word.load(Ordering::SeqCst), wanted);
}

/// A byte's place in a word, for each of four changes.
fn place_of(change: u32) -> u64
    ensures { 0 < result }
{
    match change {
        0 => 1,
        1 => 256,
        2 => 65_536,
        _ => 16_777_216,
    }
}

/// Stands for each change.
pub(super) const EACH: u32 = u32::MAX;

/// A step that does not exist.
pub(super) const NO_STEP: u8 = u8::MAX;

/// Records, at the place of the change, which steps pass: 1 for its first step, 16 for its second,
/// and one more than the worker's number. One step, of one change or of each, is held until a word
/// is at least so much.
#[derive(Drop)]
pub(super) struct Watch<'a> {
    passed: &'a AtomicU64,
    pub(super) workers: AtomicU64,
    awaited: &'a AtomicU64,
    least: u64,
    change: u32,
    step: u8,
    pub(super) missed: AtomicU64,
}

impl<'a> Watch<'a> {
    pub(super) fn new(
        passed: &'a AtomicU64,
        awaited: &'a AtomicU64,
        least: u64,
        change: u32,
        step: u8,
    ) -> Watch<'a> {
        Watch {
            passed,
            workers: AtomicU64::new(0),
            awaited,
            least,
            change,
            step,
            missed: AtomicU64::new(0),
        }
    }
}

impl Gate for Watch<'_> {
    fn pass(&self, worker: u8, change: u32, step: u8) {
        let place = place_of(change);
        let note = u64::from(step).wrapping_mul(15).wrapping_add(1);
        let number = u64::from(worker).wrapping_add(1);
        self.passed
            .fetch_add(note.wrapping_mul(place), Ordering::SeqCst);
        self.workers
            .fetch_add(number.wrapping_mul(place), Ordering::SeqCst);
        let is_held = step == self.step && (self.change == EACH || change == self.change);
        if is_held && !comes_within(self.awaited, self.least, MAX_TURNS) {
            self.missed.store(1, Ordering::SeqCst);
        }
    }
}

/// One more than the number of the worker that passed the gate of the change.
pub(super) fn worker_of(passed: u64, change: u32) -> u64 {
    passed / place_of(change) % 256
}

/// Records in one number which steps of one worker have passed: a hexadecimal digit for each, the
/// last pass last. It may hold each step for so many turns, and records whether the step's start
/// was written meanwhile.
#[derive(Drop)]
pub(super) struct Passes<'a> {
    passes: AtomicU64,
    pub(super) count: AtomicU64,
    starts: &'a AtomicU64,
    turns: u32,
    pub(super) early: AtomicU64,
}

impl Gate for Passes<'_> {
    fn pass(&self, _worker: u8, change: u32, step: u8) {
        let digit = u64::from(change)
            .wrapping_mul(2)
            .wrapping_add(u64::from(step))
            .wrapping_add(1);
        let before = self.passes.load(Ordering::SeqCst);
        let passes = before.wrapping_mul(16).wrapping_add(digit);
        self.passes.store(passes, Ordering::SeqCst);
        let count = self.count.fetch_add(1, Ordering::SeqCst);
        if comes_within(self.starts, count.wrapping_add(1), self.turns) {
            self.early.store(1, Ordering::SeqCst);
        }
    }
}

/// Makes the gate.
pub(super) fn passing(starts: &AtomicU64, turns: u32) -> Passes<'_> {
    Passes {
        passes: AtomicU64::new(0),
        count: AtomicU64::new(0),
        starts,
        turns,
        early: AtomicU64::new(0),
    }
}

/// What passes the gate while one worker applies the replacement and the create: 1 and 2 stand for
/// the steps of the replacement, and 3 for the create.
pub(super) fn passes_of<R: Threads + Wait + Sync + Abort>(
    rt: &R,
    alloc: Global,
    registry: &Registry,
) -> u64 {
    let starts = AtomicU64::new(0);
    let gate = passing(&starts, 0);
    let (plan, options) = (REPLACEMENT_AND_CREATE, options(1, 64));
    let (_sink, end) = apply_into_memory(rt, alloc, plan, NO_SCRIPT, registry, options, &gate);
    holds(rt, "an end that is well", end.is_ok());
    gate.passes.load(Ordering::SeqCst)
}

/// A sink that counts the lines of one type. It delays the first such line until so many changes
/// have begun and for a while more, and then records how many have begun.
#[derive(Drop)]
pub(super) struct Watching<'a, S: Drop> {
    inner: S,
    line: &'static str,
    taken: &'a AtomicU64,
    pub(super) held: bool,
    begun: &'a AtomicU64,
    least: u64,
    pub(super) begun_meanwhile: u64,
}

impl<S: Sink + Drop> Sink for Watching<'_, S> {
    ghost bytes = { λ sink. S.bytes sink.inner };

    ghost failed = { λ sink. S.failed sink.inner };

    fn write(&mut self, slice: &[u8]) -> Result<usize, SinkFault> {
        let is_watched = is_of_type(slice, self.line);
        if is_watched && !self.held {
            self.held = true;
            self.begun_meanwhile = begun_meanwhile(self.begun, self.least);
        }
        let taken = self.inner.write(slice);
        if is_watched {
            self.taken.fetch_add(1, Ordering::SeqCst);
        }
        taken
    }

    fn failures(&self) -> u64 {
        self.inner.failures()
    }
}

/// Whether the bytes are of a line of that type.
fn is_of_type(bytes: &[u8], wanted: &str) -> bool {
    match str::from_utf8(bytes) {
        Ok(line) => line.contains(wanted),
        Err(_) => false,
    }
}

/// For how many turns a slow sink holds a line, once as many changes as possible have begun.
const SLOW_TURNS: u32 = 1_000_000;

/// Waits until so many changes have begun, and for a while more. How many have begun then.
fn begun_meanwhile(begun: &AtomicU64, least: u64) -> u64 {
    let _all_may = comes_within(begun, least, MAX_TURNS);
    let _more_may_not = comes_within(begun, u64::MAX, SLOW_TURNS);
    begun.load(Ordering::SeqCst)
}

/// Makes the sink, in memory.
pub(super) fn watched<'a>(
    alloc: Global,
    line: &'static str,
    taken: &'a AtomicU64,
    held: bool,
    begun: &'a AtomicU64,
    least: u64,
) -> Watching<'a, MemorySink>
    ensures { result.inner.failures ≡ 0 }
{
    Watching {
        inner: memory(alloc),
        line,
        taken,
        held,
        begun,
        least,
        begun_meanwhile: 0,
    }
}
