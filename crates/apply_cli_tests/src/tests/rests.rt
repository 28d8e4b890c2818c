//! The rest of an input whose plan was refused: it is read to its end and dropped, after the error
//! was reported.

use super::lanes::{lanes_fail, run_lanes};
use super::*;
use stream_lines::drain;

/// The most bytes that a plan may have.
const MOST: usize = 67_108_864;

/// How many bytes follow them here: much more than a pipe holds.
const BEHIND: usize = 1_048_576;

/// Gives blanks, and counts how many are left and how often the end was met. One read fails, when
/// just so many are left.
#[derive(Drop)]
struct Blanks {
    left: usize,
    ends: usize,
    fails_at: Option<usize>,
    fault: ErrorKind,
}

impl Read for Blanks {
    fn read(&mut self, buffer: &mut [u8]) -> io::Result<usize> {
        if self.fails_at == Some(self.left) {
            self.fails_at = None;
            return Err(io::Error::from(self.fault));
        }
        let count = buffer.len().min(self.left);
        if count == 0 {
            self.ends = self.ends.saturating_add(1);
        }
        buffer[..count].fill(b' ');
        self.left -= count;
        Ok(count)
    }
}

/// So many blanks, of which all can be read.
fn all_of(count: usize) -> Blanks {
    failing(count, None, ErrorKind::Other)
}

/// So many blanks, and one read that fails.
fn failing(count: usize, fails_at: Option<usize>, fault: ErrorKind) -> Blanks {
    Blanks {
        left: count,
        ends: 0,
        fails_at,
        fault,
    }
}

/// Fails if another number is left, or the end was met another number of times.
fn left_are(rt: &impl Abort, case: &str, input: &Blanks, left: usize, ends: usize) {
    number_is(rt, case, input.left, left);
    number_is(rt, case, input.ends, ends);
}

/// The error of a plan that is too large.
const TOO_LARGE: &str = "the plan is larger than 67108864 bytes";

/// Fails unless one worker refuses the blanks with this error, so many are left, and the end was
/// met so often.
fn blanks_fail<T: Threads + Wait + Sync + Abort>(
    rt: &T,
    alloc: Global,
    mut input: Blanks,
    fault: &str,
    left: usize,
    ends: usize,
) {
    let outcome = run(rt, alloc, &mut input);
    outcome_fails(rt, "a worker", outcome, 2, fault);
    left_are(rt, "a worker", &input, left, ends);
}

#[test]
fn a_plan_that_is_too_large_is_read_to_its_end(rt: HostRuntime) {
    let alloc = rt.alloc();
    blanks_fail(&rt, alloc, all_of(MOST + BEHIND), TOO_LARGE, 0, 1);
    let mut input = all_of(MOST + BEHIND);
    let outcome = run_lanes(&rt, alloc, 2, NO_SCRIPT, &mut input);
    lanes_fail(&rt, alloc, "lanes", outcome, 2, TOO_LARGE);
    left_are(&rt, "lanes", &input, 0, 1);
}

#[test]
fn an_interrupted_read_behind_a_plan_is_tried_again(rt: HostRuntime) {
    let input = failing(MOST + BEHIND, Some(BEHIND - 1), ErrorKind::Interrupted);
    blanks_fail(&rt, rt.alloc(), input, TOO_LARGE, 0, 1);
}

#[test]
fn a_read_that_fails_behind_a_plan_ends_it(rt: HostRuntime) {
    let input = failing(MOST + BEHIND, Some(BEHIND - 1), ErrorKind::Other);
    blanks_fail(&rt, rt.alloc(), input, TOO_LARGE, BEHIND - 1, 0);
}

#[test]
fn the_rest_is_read_where_a_read_of_the_plan_failed(rt: HostRuntime) {
    let input = failing(BEHIND, Some(BEHIND), ErrorKind::Interrupted);
    let fault = "the plan could not be read";
    blanks_fail(&rt, rt.alloc(), input, fault, 0, 1);
}

/// The end is met once: a person at a terminal would have to signal it twice.
#[test]
fn a_plan_that_was_read_whole_is_not_read_on(rt: HostRuntime) {
    let fault = "the plan is not JSON";
    blanks_fail(&rt, rt.alloc(), all_of(BEHIND), fault, 0, 1);
}

#[test]
fn a_rest_is_dropped(rt: HostRuntime) {
    let mut input = all_of(BEHIND);
    holds(&rt, "a rest", drain(&mut input).is_ok());
    left_are(&rt, "a rest", &input, 0, 1);
    holds(&rt, "no rest", drain(&mut input).is_ok());
    let mut input = failing(BEHIND, Some(BEHIND), ErrorKind::WouldBlock);
    holds(&rt, "a rest that would wait", drain(&mut input).is_err());
    left_are(&rt, "a rest that would wait", &input, BEHIND, 0);
}
