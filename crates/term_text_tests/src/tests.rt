//! Tests of what no clause states: that the definitions are the intended ones, and that calls
//! succeed with enough memory.
//!
//! A test is proved before it runs. A proof grows with each literal and with each place that drops
//! a value. So rows are texts, and their bytes live until the process ends.

use std::alloc::{AllocError, Global};
use std::process::Abort;
use term_text::{
    ShownText, broken, escape_controls, escape_controls_within, front, line_text,
    push_controls_escaped, readable, text_lines,
};

/// The text before the first mark of a row, and the text after it.
fn parted<'a>(rt: &impl Abort, row: &'a str) -> (&'a str, &'a str) {
    row.split_once(" => ").expect(rt, row)
}

/// Appends bytes.
fn push(rt: &impl Abort, bytes: &mut Vec<u8>, more: &[u8]) {
    bytes.extend_from_slice(more).expect(rt, "memory");
}

/// Appends the byte of the first two hexadecimal digits, and returns the text after them.
fn push_byte<'a>(rt: &impl Abort, bytes: &mut Vec<u8>, part: &'a str) -> &'a str {
    let (digits, rest) = part.split_at_checked(2).expect(rt, part);
    let byte = u8::from_str_radix(digits, 16).ok().expect(rt, part);
    push(rt, bytes, &[byte]);
    rest
}

/// Appends the bytes of a part of a cell. A part after a mark starts with the number of a byte.
fn push_part(rt: &impl Abort, bytes: &mut Vec<u8>, part: &str, is_marked: bool) {
    let plain = if is_marked {
        push_byte(rt, bytes, part)
    } else {
        part
    };
    push(rt, bytes, plain.as_bytes());
}

/// The bytes of a cell: `\xHH` is the byte of that number, and all else stands for itself.
fn bytes_of(rt: &impl Abort, alloc: Global, cell: &str) -> &'static [u8] {
    let mut bytes = Vec::new(alloc);
    let mut is_marked = false;
    for part in cell.split("\\x") {
        push_part(rt, &mut bytes, part, is_marked);
        is_marked = true;
    }
    &*bytes.leak()
}

/// The input bytes of a row, and the expected bytes.
fn cells(rt: &impl Abort, alloc: Global, row: &str) -> (&'static [u8], &'static [u8]) {
    let (bytes, wanted) = parted(rt, row);
    (bytes_of(rt, alloc, bytes), bytes_of(rt, alloc, wanted))
}

/// The limit as a number; `max` is the greatest one.
fn limit_of(rt: &impl Abort, limit: &str) -> usize {
    match limit {
        "max" => usize::MAX,
        _ => limit.parse::<usize>().ok().expect(rt, limit),
    }
}

/// The limit of a row, its input bytes, and the expected bytes.
fn limited(rt: &impl Abort, alloc: Global, row: &str) -> (usize, &'static [u8], &'static [u8]) {
    let (limit, rest) = parted(rt, row);
    let (bytes, wanted) = cells(rt, alloc, rest);
    (limit_of(rt, limit), bytes, wanted)
}

/// The bytes of a text; fails where memory was refused.
fn made(rt: &impl Abort, text: Result<String, AllocError>) -> &'static [u8] {
    &*text.expect(rt, "memory").into_bytes().leak()
}

/// Fails where the bytes differ from the expected ones.
fn compare(rt: &impl Abort, row: &str, actual: &[u8], wanted: &[u8]) {
    assert!(rt; actual == wanted, "at {row}");
}

/// Bytes, and their escaped text: plain text, controls, invisible characters, codes that are no
/// character, bytes of no character, and commands to runners of jobs. One text has characters of
/// one, two, three and four bytes.
const SHOWN: &str = r#"
a \n "b" ~ => a \n "b" ~
 => 
a\xC3\xA9\xE2\x82\xAC\xF0\x9F\x98\x80bcdef => a\xC3\xA9\xE2\x82\xAC\xF0\x9F\x98\x80bcdef
\x0A\x09\x0D\x00 => \n\t\u000d\u0000
\x08|\x0B|\x1F|\x20|\x7E|\x7F => \u0008|\u000b|\u001f| |~|\u007f
\xC2\x80|\xC2\x9F|\xC2\xA0 => \u0080|\u009f|\xC2\xA0
\xD8\x9B|\xD8\x9C|\xD8\x9D => \xD8\x9B|\u061c|\xD8\x9D
\xE2\x80\x8A|\xE2\x80\x8B|\xE2\x80\x8F|\xE2\x80\x90 => \xE2\x80\x8A|\u200b|\u200f|\xE2\x80\x90
\xE2\x80\xA7|\xE2\x80\xA8|\xE2\x80\xAE|\xE2\x80\xAF => \xE2\x80\xA7|\u2028|\u202e|\xE2\x80\xAF
\xE2\x81\x9F|\xE2\x81\xA0|\xE2\x81\xAF|\xE2\x81\xB0 => \xE2\x81\x9F|\u2060|\u206f|\xE2\x81\xB0
\xEF\xBB\xBE|\xEF\xBB\xBF|\xEF\xBC\x80 => \xEF\xBB\xBE|\ufeff|\xEF\xBC\x80
\xEF\xBF\xBD|\xEF\xBF\xBE|\xEF\xBF\xBF => \xEF\xBF\xBD|\ufffe|\uffff
\xF0\x90\x80\x80|\xF4\x8F\xBF\xBF => \xF0\x90\x80\x80|\xF4\x8F\xBF\xBF
a\x80b\xFF => a\ufffdb\ufffd
\xC0\x80 => \ufffd\ufffd
\xED\xA0\x80 => \ufffd\ufffd\ufffd
\xF4\x90\x80\x80 => \ufffd\ufffd\ufffd\ufffd
\xE2\x82 => \ufffd\ufffd
\xF0\x9F\x98a\xC2 => \ufffd\ufffd\ufffda\ufffd
##[error]x => ##\u005berror]x
a ##vso[task.complete]|##teamcity[b => a ##vso\u005btask.complete]|##teamcity\u005bb
[#[####|##1[|##ab#[|##a-[|## [|##ab => [#[####|##1[|##ab#[|##a-[|## [|##ab
###[|##ab##c[|##ab[[|##ab#[##[ => ###\u005b|##ab##c\u005b|##ab\u005b[|##ab#[##\u005b
##@[|##A[|##Z[|##[[|##`[|##a[|##z[|##{[ => ##@[|##A\u005b|##Z\u005b|##\u005b[|##`[|##a\u005b|##z\u005b|##{[
##\x0A[|##a\x80[|##\xC3\xA9[|#\x0D#[ => ##\n[|##a\ufffd[|##\xC3\xA9[|#\u000d#[
"#;

#[test]
fn bytes_are_shown(rt: HostRuntime) {
    let alloc = rt.alloc();
    for row in SHOWN.trim().lines() {
        let (bytes, wanted) = cells(&rt, alloc, row);
        compare(&rt, row, made(&rt, escape_controls(alloc, bytes)), wanted);
    }
}

/// Bytes, and their readable text.
const READABLE: &str = r#"
a\x0A\x1B[2J => a\x0A\x1B[2J
 => 
a\xC3\xA9\xE2\x82\xAC\xF0\x9F\x98\x80bcdef => a\xC3\xA9\xE2\x82\xAC\xF0\x9F\x98\x80bcdef
a\x80b => a\xEF\xBF\xBDb
\xC0\x80 => \xEF\xBF\xBD\xEF\xBF\xBD
\xE2\x82 => \xEF\xBF\xBD\xEF\xBF\xBD
\xED\xA0\x80 => \xEF\xBF\xBD\xEF\xBF\xBD\xEF\xBF\xBD
"#;

#[test]
fn each_byte_of_no_character_reads_as_one(rt: HostRuntime) {
    let alloc = rt.alloc();
    for row in READABLE.trim().lines() {
        let (bytes, wanted) = cells(&rt, alloc, row);
        compare(&rt, row, made(&rt, readable(alloc, bytes)), wanted);
    }
}

/// A limit, bytes, and their escaped text within the limit. In the last rows, the dots hardly fit.
const WITHIN: &str = r#"
max => a\xC3\xA9\xE2\x82\xAC\xF0\x9F\x98\x80bcdef => a\xC3\xA9\xE2\x82\xAC\xF0\x9F\x98\x80bcdef
15 => a\xC3\xA9\xE2\x82\xAC\xF0\x9F\x98\x80bcdef => a\xC3\xA9\xE2\x82\xAC\xF0\x9F\x98\x80bcdef
14 => a\xC3\xA9\xE2\x82\xAC\xF0\x9F\x98\x80bcdef => a\xC3\xA9\xE2\x82\xAC\xF0\x9F\x98\x80b...
13 => a\xC3\xA9\xE2\x82\xAC\xF0\x9F\x98\x80bcdef => a\xC3\xA9\xE2\x82\xAC\xF0\x9F\x98\x80...
12 => a\xC3\xA9\xE2\x82\xAC\xF0\x9F\x98\x80bcdef => a\xC3\xA9\xE2\x82\xAC...
9 => a\xC3\xA9\xE2\x82\xAC\xF0\x9F\x98\x80bcdef => a\xC3\xA9\xE2\x82\xAC...
8 => a\xC3\xA9\xE2\x82\xAC\xF0\x9F\x98\x80bcdef => a\xC3\xA9...
6 => a\xC3\xA9\xE2\x82\xAC\xF0\x9F\x98\x80bcdef => a\xC3\xA9...
5 => a\xC3\xA9\xE2\x82\xAC\xF0\x9F\x98\x80bcdef => a...
4 => a\xC3\xA9\xE2\x82\xAC\xF0\x9F\x98\x80bcdef => a...
3 => a\xC3\xA9\xE2\x82\xAC\xF0\x9F\x98\x80bcdef => ...
2 => a\xC3\xA9\xE2\x82\xAC\xF0\x9F\x98\x80bcdef => ..
1 => a\xC3\xA9\xE2\x82\xAC\xF0\x9F\x98\x80bcdef => .
0 => a\xC3\xA9\xE2\x82\xAC\xF0\x9F\x98\x80bcdef => 
0 =>  => 
6 => \x1B => \u001b
6 => \x1B\x80 => \u0...
9 => ##[a => ##\u005ba
8 => ##[a => ##\u0...
"#;

#[test]
fn long_texts_are_cut_between_characters(rt: HostRuntime) {
    let alloc = rt.alloc();
    for row in WITHIN.trim().lines() {
        let (limit, bytes, wanted) = limited(&rt, alloc, row);
        let actual = made(&rt, escape_controls_within(alloc, limit, bytes));
        compare(&rt, row, actual, wanted);
    }
}

/// A limit, bytes, and their front.
const FRONTS: &str = r#"
0 => a\xC3\xA9\xE2\x82\xAC\xF0\x9F\x98\x80bcdef => 
2 => a\xC3\xA9\xE2\x82\xAC\xF0\x9F\x98\x80bcdef => a
3 => a\xC3\xA9\xE2\x82\xAC\xF0\x9F\x98\x80bcdef => a\xC3\xA9
9 => a\xC3\xA9\xE2\x82\xAC\xF0\x9F\x98\x80bcdef => a\xC3\xA9\xE2\x82\xAC
10 => a\xC3\xA9\xE2\x82\xAC\xF0\x9F\x98\x80bcdef => a\xC3\xA9\xE2\x82\xAC\xF0\x9F\x98\x80
16 => a\xC3\xA9\xE2\x82\xAC\xF0\x9F\x98\x80bcdef => a\xC3\xA9\xE2\x82\xAC\xF0\x9F\x98\x80bcdef
5 =>  => 
1 => \xE2\x82 => \xE2
"#;

#[test]
fn fronts_cut_no_character(rt: HostRuntime) {
    for row in FRONTS.trim().lines() {
        let (limit, bytes, wanted) = limited(&rt, rt.alloc(), row);
        compare(&rt, row, front(bytes, limit), wanted);
    }
}

/// Appends the bytes with control characters escaped.
fn push_bytes(rt: &impl Abort, text: &mut String, bytes: &[u8]) {
    push_controls_escaped(text, bytes).expect(rt, "memory");
}

#[test]
fn what_is_shown_stands_behind_the_text(rt: HostRuntime) {
    let mut text = String::from_str(rt.alloc(), "in ").expect(&rt, "memory");
    push_bytes(&rt, &mut text, b"\x1B[2J");
    push_bytes(&rt, &mut text, b"");
    compare(&rt, "behind", text.as_bytes(), b"in \\u001b[2J");
}

/// Bytes of a line that a program wrote, and its text. Blanks that hardly show are `\x20`.
const LINES: &str = r#"
\x1B[0;32mok: [host]\x1B[0m => ok: [host]
\x1B[38:5:1;4mx\x1B[my => xy
\x1B[2Kx\x1B[1 => \u001b[2Kx\u001b[1
\x1B[1\x1B[1mm => \u001b[1m
#\x1B[1m#[group]x => ##\u005bgroup]x
\x20x \x09\x0D\x1B[0m\x20 => \x20x
\x20\x09\x0D => 
 => 
a\x0Db => a\u000db
\x09x => \x20       x
a\x09b\x09c => a       b       c
1234567\x09x => 1234567 x
12345678\x09x => 12345678        x
\xC3\xA9\x09x => \xC3\xA9       x
\xE4\xB8\xAD\x09x => \xE4\xB8\xAD      x
\x07\x09x => \u0007  x
\xFF\x09x => \ufffd  x
##\x09[x => ##      [x
"#;

#[test]
fn a_line_is_shown_without_colours_and_tabs(rt: HostRuntime) {
    let alloc = rt.alloc();
    for row in LINES.trim().lines() {
        let (bytes, wanted) = cells(&rt, alloc, row);
        compare(&rt, row, made(&rt, line_text(alloc, bytes)), wanted);
    }
}

/// Bytes of a text, and its lines, each with a mark after it.
const TEXTS: &str = r#"
a => a|
 => 
\x0A \x0D\x0A => 
\x0A\x20\x0Aa\x0A\x0A b\x0A\x1B[0m\x0A => a|| b|
a\x09b\x0D\x0A##[x => a       b|##\u005bx|
"#;

/// The lines, each with a mark after it.
fn marked(rt: &impl Abort, alloc: Global, lines: &[String]) -> String {
    let mut marked = String::new(alloc);
    for line in lines {
        push_marked(rt, &mut marked, line.as_str());
    }
    marked
}

/// Appends a text and a mark.
fn push_marked(rt: &impl Abort, marked: &mut String, text: &str) {
    marked.push_str(text).expect(rt, "memory");
    marked.push('|').expect(rt, "memory");
}

#[test]
fn a_text_has_no_empty_line_at_its_ends(rt: HostRuntime) {
    let alloc = rt.alloc();
    for row in TEXTS.trim().lines() {
        let (bytes, wanted) = cells(&rt, alloc, row);
        let lines = text_lines(alloc, bytes).expect(&rt, "memory");
        compare(&rt, row, marked(&rt, alloc, &lines).as_bytes(), wanted);
    }
}

/// A number of columns, a text, and its pieces, each with a mark after it. Of ten characters that
/// fit, a blank counts from the fourth on.
const PIECES: &str = r#"
10 => abcdefghij => abcdefghij|
10 => abcd fghijk => abcd|fghijk|
10 => abc efghijk => abc efghij|k|
10 => abcdefghi jk => abcdefghi|jk|
10 => abcdefghij k => abcdefghij|k|
10 => abc     ijkl => abc|ijkl|
10 => ab              => ab|
10 =>  => |
10 =>              x => |x|
3 => ab cdef => ab|cde|f|
2 => \xE4\xB8\xAD\xE4\xB8\xAD => \xE4\xB8\xAD|\xE4\xB8\xAD|
0 => ab => a|b|
"#;

/// The pieces of a text, each with a mark after it.
fn pieces_of(rt: &impl Abort, alloc: Global, columns: usize, bytes: &[u8]) -> String {
    let text = ShownText::of(alloc, bytes).expect(rt, "memory");
    let mut marked = String::new(alloc);
    for piece in &broken(alloc, &text, columns).expect(rt, "memory") {
        push_marked(rt, &mut marked, piece_text(rt, alloc, piece).as_str());
    }
    marked
}

/// The characters of a piece as a text.
fn piece_text(rt: &impl Abort, alloc: Global, piece: &ShownText) -> String {
    piece
        .characters()
        .iter()
        .copied()
        .collect(alloc)
        .expect(rt, "memory")
}

#[test]
fn texts_are_broken_at_late_blanks(rt: HostRuntime) {
    let alloc = rt.alloc();
    for row in PIECES.trim().lines() {
        let (columns, bytes, wanted) = limited(&rt, alloc, row);
        compare(
            &rt,
            row,
            pieces_of(&rt, alloc, columns, bytes).as_bytes(),
            wanted,
        );
    }
}
