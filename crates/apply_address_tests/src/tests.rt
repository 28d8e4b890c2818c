//! Checks what no contract states: the definitions mean what they should, and calls succeed with
//! enough memory.
//!
//! Rows stand in texts, one in a line. A test is proved before it runs, and a row of a text costs
//! the proof nothing.

use apply_address::{AddressParts, an_address_has_one_reading, parts_of};
use apply_model::Key;
use std::alloc::Global;
use std::process::Abort;

/// An expected key.
#[derive(Clone, Copy)]
enum Awaited<'a> {
    None,
    Number(i64),
    Name(&'a str),
}

fn is_key(key: &Key, awaited: Awaited<'_>) -> bool {
    match (key, awaited) {
        (Key::None, Awaited::None) => true,
        (Key::Number(number), Awaited::Number(awaited)) => *number == awaited,
        (Key::Name(name), Awaited::Name(awaited)) => name.as_str() == awaited,
        _ => false,
    }
}

/// Fails if the condition is false.
fn holds(rt: &impl Abort, case: &str, is_so: bool) {
    assert!(rt; is_so, "{case}");
}

/// The parts of the text, which is an address.
fn parts<'a>(rt: &impl Abort, alloc: Global, address: &'a str) -> AddressParts<'a> {
    match parts_of(alloc, address) {
        Ok(Some(parts)) => parts,
        Ok(None) => panic!(rt; "no address: {address}"),
        Err(_) => panic!(rt; "memory"),
    }
}

/// Whether the first cell is an address with the parts in the other cells, and no key.
fn has_parts(rt: &impl Abort, alloc: Global, row: &str) -> bool {
    let mut cells = row.split(" | ");
    let parts = parts(rt, alloc, cells.next().unwrap_or(""));
    cells.next() == Some(parts.module_address)
        && cells.next() == Some(parts.resource)
        && cells.next() == Some(parts.kind_name)
        && cells.next() == Some(parts.name)
        && is_key(&parts.key, Awaited::None)
}

/// Fails if a row does not hold. A row has an address, and its module, last part, type and name.
fn have_parts(rt: &impl Abort, alloc: Global, table: &str) {
    for row in table.trim().lines() {
        holds(rt, row, has_parts(rt, alloc, row));
    }
}

/// Whether the address has that key.
fn has_key(rt: &impl Abort, alloc: Global, address: &str, key: Awaited<'_>) -> bool {
    is_key(&parts(rt, alloc, address).key, key)
}

/// Fails if the address has another key than that number.
fn has_number(rt: &impl Abort, alloc: Global, address: &str, number: i64) {
    holds(
        rt,
        address,
        has_key(rt, alloc, address, Awaited::Number(number)),
    );
}

/// Fails if the address has another key than that text.
fn has_name(rt: &impl Abort, alloc: Global, address: &str, name: &str) {
    holds(
        rt,
        address,
        has_key(rt, alloc, address, Awaited::Name(name)),
    );
}

/// Fails if a row does not hold. A row has an address, and the text that is its key.
fn have_names(rt: &impl Abort, alloc: Global, table: &str) {
    for row in table.trim().lines() {
        let (address, name) = row.split_once(" => ").expect(rt, row);
        has_name(rt, alloc, address, name);
    }
}

/// Whether the text is no address.
fn is_none(rt: &impl Abort, alloc: Global, text: &str) -> bool {
    match parts_of(alloc, text) {
        Ok(matched) => matched.is_none(),
        Err(_) => panic!(rt; "memory"),
    }
}

/// Fails if a row is an address.
fn are_none(rt: &impl Abort, alloc: Global, table: &str) {
    for row in table.trim().lines() {
        holds(rt, row, is_none(rt, alloc, row));
    }
}

/// Whether the type of the address implies that provider.
fn has_provider(rt: &impl Abort, alloc: Global, address: &str, provider: &str) -> bool {
    parts(rt, alloc, address).provider() == provider
}

/// A resource in two modules, whose key has escapes.
const MOVED: &str = r#"module.old["x.y"].module.in[0].aws_instance.web["k\"1$${z}"]"#;

#[test]
fn a_moved_resource(rt: HostRuntime) {
    let parts = parts(&rt, rt.alloc(), MOVED);
    let matched = parts.module_address == r#"module.old["x.y"].module.in[0]"#
        && parts.resource == r#"aws_instance.web["k\"1$${z}"]"#
        && parts.provider() == "aws"
        && parts.kind_name == "aws_instance"
        && parts.name == "web"
        && is_key(&parts.key, Awaited::Name(r#"k"1${z}"#));
    holds(&rt, MOVED, matched);
}

const MODULES_AND_LAST_PARTS: &str = r#"
a.b |  | a.b | a | b
data.a.b |  | data.a.b | a | b
module.m.a.b | module.m | a.b | a | b
module.m.data.a.b | module.m | data.a.b | a | b
module.m["].a.b[0]"].module.n[-1].é-1.b:2 | module.m["].a.b[0]"].module.n[-1] | é-1.b:2 | é-1 | b:2
"#;

#[test]
fn modules_and_last_parts(rt: HostRuntime) {
    have_parts(&rt, rt.alloc(), MODULES_AND_LAST_PARTS);
}

const WORDS_OF_THE_FORM: &str = r#"
module.x |  | module.x | module | x
data.a |  | data.a | data | a
data.data.a |  | data.data.a | data | a
data.module.a |  | data.module.a | module | a
module.m.data.a | module.m | data.a | data | a
module.data.a.b | module.data | a.b | a | b
module.a.module.b | module.a | module.b | module | b
module.module.a.b | module.module | a.b | a | b
"#;

#[test]
fn words_of_the_form_as_types_and_names(rt: HostRuntime) {
    have_parts(&rt, rt.alloc(), WORDS_OF_THE_FORM);
}

#[test]
fn providers(rt: HostRuntime) {
    let alloc = rt.alloc();
    holds(&rt, "null.a", has_provider(&rt, alloc, "null.a", "null"));
    holds(&rt, "a_b_c.a", has_provider(&rt, alloc, "a_b_c.a", "a"));
    holds(&rt, "_a.a", has_provider(&rt, alloc, "_a.a", ""));
}

#[test]
fn numbers(rt: HostRuntime) {
    let alloc = rt.alloc();
    has_number(&rt, alloc, "a.b[0]", 0);
    has_number(&rt, alloc, "a.b[-1]", -1);
    has_number(&rt, alloc, "a.b[10]", 10);
    has_number(&rt, alloc, "a.b[9223372036854775807]", i64::MAX);
    has_number(&rt, alloc, "a.b[-9223372036854775808]", i64::MIN);
}

const NO_NUMBERS: &str = r#"
a.b[9223372036854775808]
a.b[-9223372036854775809]
a.b[00]
a.b[01]
a.b[-0]
a.b[-01]
a.b[+1]
a.b[]
a.b[-]
a.b[1.0]
a.b[ 1]
a.b[c]
"#;

#[test]
fn no_numbers(rt: HostRuntime) {
    are_none(&rt, rt.alloc(), NO_NUMBERS);
}

#[test]
fn texts(rt: HostRuntime) {
    let alloc = rt.alloc();
    has_name(&rt, alloc, r#"a.b[""]"#, "");
    has_name(&rt, alloc, "a.b[\"\té. [0]\"]", "\té. [0]");
    has_name(&rt, alloc, r#"a.b["\"\\\n\r\t"]"#, "\"\\\n\r\t");
    has_name(
        &rt,
        alloc,
        r#"a.b["\u0000\u00e9\u20AC\uffff"]"#,
        "\0é€\u{FFFF}",
    );
    has_name(
        &rt,
        alloc,
        r#"a.b["\U0001F600\U0010ffff1"]"#,
        "😀\u{10FFFF}1",
    );
    has_name(&rt, alloc, r#"a.b["\\n\\\"]"]"#, "\\n\\\"]");
}

const DOUBLED_SIGNS: &str = r#"
a.b["$${a}%%{b}"] => ${a}%{b}
a.b["$$${$${%$${"] => $${${%${
a.b["${%{$$ $%{%${$$"] => ${%{$$ $%{%${$$
a.b["\u0024${$\u0024{$$\u007b"] => $${$${$${
"#;

#[test]
fn doubled_signs(rt: HostRuntime) {
    have_names(&rt, rt.alloc(), DOUBLED_SIGNS);
}

const NO_TEXTS: &str = r#"
a.b["\x"]
a.b["x"y"]
a.b["x\"]
a.b["x]
a.b["x"
a.b["x" ]
a.b["\N"]
a.b["\u00e"]
a.b["\u+0e9"]
a.b["\ud83d\ude00"]
a.b["\U000000e"]
a.b["\U00110000"]
module.m["\x"].a.b
module.m[00].a.b
"#;

#[test]
fn no_texts(rt: HostRuntime) {
    are_none(&rt, rt.alloc(), NO_TEXTS);
}

const NO_PARTS: &str = r#"
a
.
a.
.b
a..b
a.b.
a.b.c
module.m.a
module.m.a.b.c
data.m.a.b
module[0].m.a.b
data[0].a.b
"#;

#[test]
fn no_parts(rt: HostRuntime) {
    holds(&rt, "no text", is_none(&rt, rt.alloc(), ""));
    are_none(&rt, rt.alloc(), NO_PARTS);
}

const NO_NAMES: &str = r#"
a[0].b
a.b[0][1]
a.b[0]c
a.[0]
a.b]
a.b"
 a.b
a b.c
"#;

#[test]
fn no_names(rt: HostRuntime) {
    let alloc = rt.alloc();
    are_none(&rt, alloc, NO_NAMES);
    holds(&rt, "a line feed", is_none(&rt, alloc, "a.b\n"));
    holds(&rt, "a zero", is_none(&rt, alloc, "a.\0b"));
    let others = "a\u{A0}.b\u{7F} |  | a\u{A0}.b\u{7F} | a\u{A0} | b\u{7F}";
    holds(&rt, others, has_parts(&rt, alloc, others));
}

#[test]
fn laws_do_nothing() {
    an_address_has_one_reading();
}
