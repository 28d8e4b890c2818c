//! Tests of what no contract states: the definitions mean what was intended, and calls succeed with
//! enough memory.

use apply_json::{JsonFault, Scratch, non_empty};
use apply_json_tree::members::{
    array_or_empty, is_text, member, non_empty_text_member, text_member, text_member_or,
};
use apply_json_tree::{Shape, parse, parse_trimmed};
use serde_json::Value;
use std::alloc::Global;
use std::process::Abort;

/// A shape that selects the members `a` and `list` of an object, and two items of an array.
#[derive(Clone, Copy)]
enum TestShape {
    Object,
    List,
}

impl Shape for TestShape {
    ghost use Rattle.std.specs.Prelude.{codes, zero, Some, None, if◌then◌else◌};
    ghost use Rattle.std.specs.Str.{bytes_eq};
    ghost use Rattle.apply_json_tree_tests.specs.declared.tests.TestShape.TheVariants as shape;

    ghost selection = { record {
      member_shape = λ s name. if bytes_eq name (codes "a") then Some shape.Object
          else if bytes_eq name (codes "list") then Some shape.List else None;
      item_shape = λ s. shape.Object;
      item_limit = elim [ shape.Object ↦ Some 0 | shape.List ↦ Some 2 ];
    } };

    fn member(self, name: &str) -> Option<TestShape> {
        if name == "a" {
            Some(TestShape::Object)
        } else if name == "list" {
            Some(TestShape::List)
        } else {
            None
        }
    }

    fn item(self) -> TestShape {
        TestShape::Object
    }

    fn limit(self) -> Option<usize> {
        match self {
            TestShape::Object => Some(0),
            TestShape::List => Some(2),
        }
    }
}

/// Leaks a value until the test ends. A proof grows with each place where a value is dropped.
fn leaked<'a, T: Drop + 'a>(rt: &impl Abort, alloc: Global, value: T) -> &'a T {
    let leaked = Box::new(alloc, value).expect(rt, "memory");
    &*Box::leak(leaked)
}

/// Splits a row at its first mark.
fn parted<'a>(rt: &impl Abort, row: &'a str) -> (&'a str, &'a str) {
    row.split_once(" => ").expect(rt, row)
}

/// Fails if the text of the row or case is not the wanted one.
fn compare(rt: &impl Abort, row: &str, actual: &str, wanted: &str) {
    assert!(rt; actual == wanted, "at {row}: {actual}");
}

/// The name of the fault.
fn named(fault: JsonFault) -> &'static str {
    match fault {
        JsonFault::TooLarge => "too large",
        JsonFault::NotJson => "no JSON",
        JsonFault::Memory => "no memory",
    }
}

/// The tree of a valid text.
fn tree_of(rt: &impl Abort, alloc: Global, text: &str) -> &'static Value {
    match leaked(rt, alloc, parse(alloc, text.as_bytes(), text.len())) {
        Ok(tree) => tree,
        Err(_) => panic!(rt; "{text}"),
    }
}

/// The trimmed tree of the bytes.
fn trimmed(alloc: Global, bytes: &[u8], most: usize, shape: TestShape) -> Result<Value, JsonFault> {
    let mut scratch = Scratch::new(alloc);
    parse_trimmed(alloc, &mut scratch, bytes, most, shape)
}

/// Texts, and their trimmed trees as text.
const TEXTS: &str = r#"
{"z":1,"a":2,"b":[3]} => {"a":2}
{"a":1,"b":2,"a":3} => {"a":3}
{"a":{"b":0,"a":[1,2],"list":[1,{"b":2,"a":null},3]}} => {"a":{"a":[],"list":[1,{"a":null}]}}
{"b":[{"a":1e2}],"\u0061":"\u0062"} => {"a":"b"}
[1,[2]] => []
-0.5 => -0.5
true => true
1e400 => no JSON
{"b":1e400} => no JSON
{"b":[1,]} => no JSON
{"a":1}} => no JSON
{"a":1} 2 => no JSON
 => no JSON
"#;

/// Fails if the tree is not the wanted text.
fn is_text_of(rt: &impl Abort, alloc: Global, tree: &Value, text: &str, wanted: &str) {
    let left = tree.to_string(alloc).expect(rt, "memory");
    compare(rt, text, left.as_str(), wanted);
}

/// Fails if the trimmed tree or the fault of the text is not the wanted one.
fn is_left(rt: &impl Abort, alloc: Global, text: &str, wanted: &str) {
    let left = trimmed(alloc, text.as_bytes(), 100, TestShape::Object);
    match leaked(rt, alloc, left) {
        Ok(tree) => is_text_of(rt, alloc, tree, text, wanted),
        Err(fault) => compare(rt, text, named(*fault), wanted),
    }
}

#[test]
fn what_is_looked_at_is_left(rt: HostRuntime) {
    for row in TEXTS.trim().lines() {
        let (text, wanted) = parted(&rt, row);
        is_left(&rt, rt.alloc(), text, wanted);
    }
}

/// The fault, as text.
fn refusal(actual: Result<Value, JsonFault>) -> &'static str {
    match actual.err() {
        Some(fault) => named(fault),
        None => "a tree",
    }
}

/// Fails unless both parsers refuse the bytes with the wanted fault.
fn both_refuse(rt: &impl Abort, alloc: Global, bytes: &[u8], wanted: &str) {
    compare(rt, "a whole tree", refusal(parse(alloc, bytes, 4)), wanted);
    let actual = refusal(trimmed(alloc, bytes, 4, TestShape::List));
    compare(rt, "a trimmed tree", actual, wanted);
}

#[test]
fn bytes_are_refused(rt: HostRuntime) {
    both_refuse(&rt, rt.alloc(), b"12345", "too large");
    both_refuse(&rt, rt.alloc(), b"\"\xff\"", "no JSON");
    both_refuse(&rt, rt.alloc(), b"tru", "no JSON");
}

/// A lookup function, the name of a member, and the text that the function gives.
const LOOKUPS: &str = r#"
text_member => a => b
text_member => number => nothing
text_member_or => none => c
text_member_or => number => nothing
non_empty_text_member => a => b
non_empty_text_member => empty => nothing
non_empty => a => a
"#;

/// The text that the named lookup function gives.
fn actual<'a>(tree: &'a Value, function: &str, name: &'a str) -> Option<&'a str> {
    match function {
        "text_member" => text_member(tree, name),
        "text_member_or" => text_member_or(tree, name, "c"),
        "non_empty_text_member" => non_empty_text_member(tree, name),
        _ => non_empty(name),
    }
}

/// Fails if a lookup gives another text than the row states.
fn compare_lookup(rt: &impl Abort, tree: &Value, row: &str) {
    let (function, rest) = parted(rt, row);
    let (name, wanted) = parted(rt, rest);
    let actual = actual(tree, function, name).unwrap_or("nothing");
    compare(rt, row, actual, wanted);
}

/// Whether a text counts as a member, and `null` does not.
fn null_is_absent(tree: &Value) -> bool {
    member(tree, "a").is_some() && member(tree, "none").is_none()
}

/// Whether the member is the text `word`.
fn member_is(rt: &impl Abort, tree: &Value, name: &str, word: &str) -> bool {
    is_text(tree.get(name).expect(rt, name), word)
}

/// Fails if the condition is false.
fn holds(rt: &impl Abort, case: &str, is_so: bool) {
    assert!(rt; is_so, "{case}");
}

#[test]
fn members_are_found(rt: HostRuntime) {
    let text = r#"{"a":"b","none":null,"empty":"","number":5}"#;
    let tree = tree_of(&rt, rt.alloc(), text);
    for row in LOOKUPS.trim().lines() {
        compare_lookup(&rt, tree, row);
    }
    holds(&rt, "null", null_is_absent(tree));
    holds(&rt, "b", member_is(&rt, tree, "a", "b"));
    holds(&rt, "5", !member_is(&rt, tree, "number", "5"));
}

/// Members, and the number of their items.
const COUNTS: &str = r#"
list => 3
empty => 0
none => 0
absent => 0
number => no list
"#;

/// The number of items of the member. `None` means that it is not an array.
fn count_of(tree: &Value, name: &str) -> Option<usize> {
    let items = array_or_empty(member(tree, name))?;
    Some(items.len())
}

/// Whether the member has the wanted number of items. Without a number it must not be an array.
fn has_items(tree: &Value, name: &str, wanted: &str) -> bool {
    count_of(tree, name) == wanted.parse::<usize>().ok()
}

#[test]
fn a_list_may_be_absent(rt: HostRuntime) {
    let text = r#"{"list":[1,2,3],"none":null,"empty":[],"number":5}"#;
    let tree = tree_of(&rt, rt.alloc(), text);
    for row in COUNTS.trim().lines() {
        let (name, wanted) = parted(&rt, row);
        holds(&rt, row, has_items(tree, name, wanted));
    }
}
