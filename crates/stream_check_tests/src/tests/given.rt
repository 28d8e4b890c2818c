//! Checks of given lines.

use super::*;

/// Locates messages in the lines of a log.
const FIND: Mode = Mode {
    find: true,
    plan: false,
    lines_before: 0,
};

/// Accepts the stream of a plan.
const PLAN: Mode = Mode {
    find: false,
    plan: true,
    lines_before: 0,
};

/// A line whose type is no text.
const NO_TYPE: &str = r#"{"type":7}"#;

/// Appends a line.
fn add_line(rt: &impl Abort, alloc: Global, lines: &mut Vec<Vec<u8>>, text: &str) {
    let mut line = Vec::new(alloc);
    line.extend_from_slice(text.as_bytes()).expect(rt, "memory");
    lines.push(line).expect(rt, "memory");
}

/// Fails where the check of the lines has another result than the finding.
fn finding_is(rt: &impl Abort, alloc: Global, lines: &[Vec<u8>], mode: Mode, finding: Finding) {
    assert!(rt; lines.len() < 1 << 32);
    let actual = check_lines(alloc, mode, lines);
    holds(rt, "finding", actual == Err(finding));
}

/// A finding in a stream where no line may be ignored.
fn at_line(line: u64, fault: Fault) -> Finding {
    Finding {
        line,
        fault,
        passed: None,
    }
}

#[test]
fn nothing_is_no_stream(rt: HostRuntime) {
    let none: [Vec<u8>; 0] = [];
    let finding = at_line(0, Fault::NoMessage(0));
    finding_is(&rt, rt.alloc(), &none, Mode::PLAIN, finding);
}

/// Lines are counted from 1. A missing end is a fault of the last line. In a log, a line that
/// starts no message of Terraform is ignored, and without other lines there is no message.
#[test]
fn lines_have_numbers(rt: HostRuntime) {
    let alloc = rt.alloc();
    let lines = leaked(&rt, alloc, Vec::new(alloc));
    add_line(&rt, alloc, lines, VERSION);
    finding_is(&rt, alloc, lines, Mode::PLAIN, at_line(1, Fault::NoEnd));
    add_line(&rt, alloc, lines, NO_TYPE);
    finding_is(&rt, alloc, lines, PLAN, at_line(2, Fault::NoType));
    let passed = Finding {
        line: 2,
        fault: Fault::NoMessage(2),
        passed: Some(2),
    };
    finding_is(&rt, alloc, lines, FIND, passed);
}

/// Fails where the checker answers otherwise, or has accepted another number of lines.
fn line_gives(
    rt: &impl Abort,
    alloc: Global,
    checker: &mut Checker,
    line: &str,
    wanted: Result<(), Fault>,
    count: u64,
) {
    assert!(rt; !checker.is_full());
    let actual = checker.line(alloc, Mode::PLAIN, line.as_bytes());
    holds(rt, line, actual == wanted);
    holds(rt, line, checker.count() == count);
}

/// The verdict on a stream without steps.
fn of_lines(lines: u64, has_errors: bool) -> Whole {
    Whole {
        totals: Totals::NONE,
        has_errors,
        lines,
        is_plan: false,
        passed: None,
    }
}

/// A faulty line leaves the checker unchanged. Its getters agree with its verdict.
#[test]
fn a_checker_reports_what_it_has_read(rt: HostRuntime) {
    let alloc = rt.alloc();
    let checker = leaked(&rt, alloc, Checker::new(alloc));
    line_gives(&rt, alloc, checker, NO_TYPE, Err(Fault::NoType), 0);
    line_gives(&rt, alloc, checker, "[", Err(Fault::NotJson), 0);
    line_gives(&rt, alloc, checker, VERSION, Ok(()), 1);
    holds(&rt, "no error", !checker.has_failed());
    line_gives(&rt, alloc, checker, VERSION, Err(Fault::VersionAgain(1)), 1);
    line_gives(&rt, alloc, checker, ERROR, Ok(()), 2);
    holds(&rt, "an error", checker.has_failed());
    holds(
        &rt,
        "whole",
        checker.end(Mode::PLAIN) == Ok(of_lines(2, true)),
    );
    holds(&rt, "passed", checker.passed(Mode::PLAIN).is_none());
    holds(&rt, "passed in a log", checker.passed(FIND) == Some(0));
}
