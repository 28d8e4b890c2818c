//! Reads a text in one pass into a tree that has only the parts that a shape selects.
//!
//! Every `Err` is a [`ReadFault`]: the text is not JSON, or memory was refused.

ghost use Rattle.std.specs.Prelude.{◌≡◌, ◌<◌, ◌++◌, ◌∷◌, [], length, Err, IfOk, MatchResult, None, Ok, OnOk, Some};
ghost use Rattle.json.specs.Json.{items, members, value};
ghost use Rattle.serde_json.specs.Data.{Data, Items, Members, no_members, put as with_member};
ghost use Rattle.serde_json.specs.Read.{converted, of_items, of_json, of_members, read as read_text};
ghost use Rattle.serde_json.specs.View.{view, items_view, members_view};
ghost use Rattle.serde_json.specs.declared.value.Value.{Value};
ghost use Rattle.apply_json.specs.ShallowView.{IsScalar, shallow_view, shallow_of};
ghost use Rattle.apply_json_tree.specs.Trimmed.{is_within, trimmed, trimmed_items, trimmed_members};

use crate::shape::Shape;
use apply_json::{MAX_DEPTH, ReadFault, Shallow, ValueStart, end, read_start, skip_value};
use json::{Reader, Scratch};
use serde_json::{Map, Value, put};
use std::alloc::Global;

/// Reads a whole text. Parts that `shape` does not select are skipped.
pub fn read_trimmed<S: Shape>(
    alloc: Global,
    scratch: &mut Scratch,
    text: &str,
    shape: S,
) -> Result<Value, ReadFault>
    ensures ok { IfOk result
        (λ tree. (whole : Data) × (read_text text.now ≡ Some whole)
        × (view tree ≡ trimmed S.selection shape whole)) }
    ensures err { result ≡ Err ReadFault.NotJson → read_text text.now ≡ None }
{
    let mut reader = Reader::new(text, scratch)?;
    let tree = read(alloc, &mut reader, MAX_DEPTH, shape)?;
    made(end(&mut reader), tree)
}

#[cycle(read)]
#[inline(always)]
fn read<S: Shape>(
    alloc: Global,
    reader: &mut Reader<'_>,
    depth: usize,
    shape: S,
) -> Result<Value, ReadFault>
    ensures ok { IfOk result (λ v. (d : Data)
        × (converted of_json (value depth reader.old) ≡ Some (d, reader.new))
        × (view v ≡ trimmed S.selection shape d)) }
    ensures shorter { OnOk result (length reader.new < length reader.old) }
    ensures err { result ≡ Err ReadFault.NotJson
        → converted of_json (value depth reader.old) ≡ None }
{
    match read_start(reader, depth)? {
        ValueStart::Shallow(shallow) => value_of(alloc, shallow),
        ValueStart::Array => {
            let mut stored = Vec::new(alloc);
            let is_read = read_items(alloc, reader, depth - 1, shape, &mut stored);
            made(is_read, Value::Array(stored))
        }
        ValueStart::Object => {
            let mut stored = Map::new(alloc);
            let is_read = read_members(alloc, reader, depth - 1, shape, &mut stored);
            made(is_read, Value::Object(stored))
        }
    }
}

/// Copies a scalar into a tree. `Err` is always `ReadFault::Memory`.
fn value_of(alloc: Global, shallow: Shallow<'_>) -> Result<Value, ReadFault>
    ensures ok { IfOk result (λ v. (d : Data) → IsScalar d → shallow_view shallow.entry ≡ shallow_of (Some d) → view v ≡ d) }
    ensures err { result ≡ Err ReadFault.NotJson → ⊥ }
{
    match shallow {
        // Callers pass only scalars, so arrays and objects never come here.
        Shallow::Absent | Shallow::Array | Shallow::Object => Ok(Value::Null),
        Shallow::Bool(b) => Ok(Value::Bool(b)),
        Shallow::Number(number) => Ok(Value::Number(number)),
        Shallow::Text(text) => Ok(Value::String(String::from_str(alloc, text)?)),
    }
}

/// Gives `whole` if the read succeeded, and the fault of the read otherwise.
#[inline(always)]
fn made(read: Result<(), ReadFault>, whole: Value) -> Result<Value, ReadFault>
    ensures { MatchResult read (λ _. result ≡ Ok whole) (λ fault. result ≡ Err fault) }
{
    match read {
        Ok(()) => Ok(whole),
        Err(fault) => Err(fault),
    }
}

/// Whether an item after `count` others is stored.
fn is_within(limit: Option<usize>, count: usize) -> bool
    ensures { result ≡ is_within limit count }
{
    match limit {
        Some(limit) => count < limit,
        None => true,
    }
}

/// Adds an item to the list if the read succeeded.
#[inline(always)]
fn store_item(stored: &mut Vec<Value>, item: Result<Value, ReadFault>) -> Result<(), ReadFault>
    ensures ok { OnOk result ((v : Value) × (item ≡ Ok v) × (stored.new.items ≡ stored.old.items ++ v ∷ [])) }
    ensures err { result ≡ Err ReadFault.NotJson → item ≡ Err ReadFault.NotJson }
{
    match item {
        Ok(item) => Ok(stored.push(item)?),
        Err(fault) => Err(fault),
    }
}

/// Adds a member to the map if the read succeeded. It replaces an earlier member of the same name.
#[inline(always)]
fn store_member(
    alloc: Global,
    stored: &mut Map<String, Value>,
    name: &str,
    member: Result<Value, ReadFault>,
) -> Result<(), ReadFault>
    ensures ok { OnOk result ((v : Value) × (member ≡ Ok v)
        × (members_view stored.new.entries ≡ with_member name.now (view v) (members_view stored.old.entries))) }
    ensures err { result ≡ Err ReadFault.NotJson → member ≡ Err ReadFault.NotJson }
{
    match member {
        Ok(member) => Ok(put(stored, alloc, name, member)?),
        Err(fault) => Err(fault),
    }
}

/// Reads an array after its `[` into an empty list.
#[cycle(read)]
#[inline(never)]
fn read_items<S: Shape>(
    alloc: Global,
    reader: &mut Reader<'_>,
    depth: usize,
    shape: S,
    stored: &mut Vec<Value>,
) -> Result<(), ReadFault>
    requires { stored.old.items ≡ [] }
    ensures ok { OnOk result ((ds : Items)
        × (converted of_items (items (value depth) (length reader.old) reader.old)
        ≡ Some (ds, reader.new))
        × (items_view stored.new.items
        ≡ trimmed_items S.selection (S.selection.item_shape shape) (S.selection.item_limit shape) ds)) }
    ensures shorter { OnOk result (length reader.new < length reader.old) }
    ensures err { result ≡ Err ReadFault.NotJson
        → converted of_items (items (value depth) (length reader.old) reader.old) ≡ None }
{
    'items: while !reader.take_end_array() {
        if is_within(shape.limit(), stored.len()) {
            let item = read(alloc, reader, depth, shape.item());
            store_item(stored, item)?;
        } else {
            skip_value(reader, depth)?;
        }
    }
    Ok(())
}

/// Reads an object after its `{` into an empty map.
#[cycle(read)]
#[inline(never)]
fn read_members<S: Shape>(
    alloc: Global,
    reader: &mut Reader<'_>,
    depth: usize,
    shape: S,
    stored: &mut Map<String, Value>,
) -> Result<(), ReadFault>
    requires { stored.old.entries ≡ [] }
    ensures ok { OnOk result ((ms : Members)
        × (converted (λ stored. of_members stored no_members)
        (members (value depth) (length reader.old) reader.old) ≡ Some (ms, reader.new))
        × (members_view stored.new.entries ≡ trimmed_members S.selection shape ms)) }
    ensures shorter { OnOk result (length reader.new < length reader.old) }
    ensures err { result ≡ Err ReadFault.NotJson
        → converted (λ stored. of_members stored no_members)
        (members (value depth) (length reader.old) reader.old) ≡ None }
{
    'members: while let Some(name) = reader.next_key()? {
        match shape.member(name) {
            Some(known) => {
                let member = read(alloc, reader, depth, known);
                store_member(alloc, stored, name, member)?;
            }
            None => skip_value(reader, depth)?,
        }
    }
    Ok(())
}
