//! Tables as texts: one row per line, cells separated by ` => `, the wanted result last.
//!
//! A test is proved before it runs. The prover reads one text at once, but takes minutes for an
//! array of as many rows. It is also slow if many values are dropped at many places. So these
//! functions are short, store little, and end the test at once if memory is refused.

use super::plain::reads_as_plainly;
use super::*;
use std::str::Lines;

/// The rows of a table. A table must have a row.
pub fn rows<'a>(rt: &impl Abort, table: &'a str) -> Lines<'a> {
    let table = table.trim();
    holds(rt, "a table has a row", !table.is_empty());
    table.lines()
}

/// Splits a row at its first mark.
pub fn cells<'a>(rt: &impl Abort, row: &'a str) -> (&'a str, &'a str) {
    row.split_once(" => ").expect(rt, row)
}

/// The first line of a block, and the lines after it.
pub fn first_line<'a>(rt: &impl Abort, block: &'a str) -> (&'a str, &'a str) {
    block.split_once("\n").expect(rt, block)
}

/// Adds `more` to a text.
pub fn push(rt: &impl Abort, text: &mut String, more: &str) {
    text.push_str(more).expect(rt, "memory");
}

/// The text with `other` in place of each mark.
pub fn put(rt: &impl Abort, alloc: Global, text: &str, mark: &str, other: &str) -> &'static str {
    leaked_text(
        rt,
        alloc,
        text.replace(alloc, mark, other).expect(rt, "memory"),
    )
}

/// Adds the text to a list, with the number in place of `NUMBER`.
fn push_numbered(rt: &impl Abort, alloc: Global, list: &mut String, text: &str, number: u32) {
    if !list.is_empty() {
        push(rt, list, ",");
    }
    let digits = shown(rt, alloc, &number);
    push(rt, list, put(rt, alloc, text, "NUMBER", digits));
}

/// `count` texts with commas between them, each with its number in place of `NUMBER`.
///
/// Numbers count from 0. `is_reversed` puts the last text first.
pub fn listed(
    rt: &impl Abort,
    alloc: Global,
    count: u32,
    is_reversed: bool,
    text: &str,
) -> &'static str {
    let mut list = String::new(alloc);
    for number in 0..count {
        let left = count.saturating_sub(number).saturating_sub(1);
        let number = if is_reversed { left } else { number };
        push_numbered(rt, alloc, &mut list, text, number);
    }
    leaked_text(rt, alloc, list)
}

/// Fails if the text for the row of this cell is not the wanted one.
pub fn compare(rt: &impl Abort, cell: &str, actual: &str, wanted: &str) {
    assert!(rt; actual == wanted, "at {cell}: {actual}");
}

/// For each row, reads the plan with the first cell in place of `CELL`, and compares the result.
/// The plain reader must agree.
pub fn plans_are_answered(rt: &impl Abort, alloc: Global, plan: &str, table: &str) {
    for row in rows(rt, table) {
        let (cell, wanted) = cells(rt, row);
        let text = put(rt, alloc, plan, "CELL", cell);
        compare(rt, cell, reads_as_plainly(rt, alloc, text), wanted);
    }
}
