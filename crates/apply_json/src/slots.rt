//! Reads an object member by member into slots of the caller. No tree is built.
//!
//! Every `Err` is a [`ReadFault`]: the text is not JSON, or memory was refused.

ghost use Rattle.std.specs.Prelude.{◌≡◌, ◌<◌, length, Err, IfOk, OnOk, Some};
ghost use Rattle.serde_json.specs.Data.{Data, Members, no_members, put};
ghost use Rattle.apply_json.specs.Verbatim.{AreMixedMembers, AreNoMixedMembers, IsMixedMember, IsMixedRead};
ghost use Rattle.apply_json.specs.ShallowView.{members_in, shallow_view, shallow_of};
ghost use Rattle.apply_json.specs.Tokens.{IsNoValue, IsRead};

use crate::read_fault::ReadFault;
use crate::shallow::Shallow;
use crate::skipping::{skip_items, skip_value};
use crate::value_start::{ValueStart, read_start};
use json::Reader;
use std::alloc::Global;

/// A struct with one place for each member that the caller reads.
///
/// Members for which `is_verbatim` holds are read as raw JSON text, at any depth in the object.
pub trait Slots<'a> {
    ghost use Rattle.std.specs.Prelude.{Bool, List, ℕ};

    /// Whether the value of a member of this name is read as raw JSON text.
    ghost is_verbatim: { List ℕ → Bool };

    /// `holds start now members`: the slots `start` became `now` after the members were read.
    ghost holds: { Self → Self → Members → Type 0 };

    /// Reads the value of the member `name`. It replaces an earlier member of the same name.
    ///
    /// Arrays and objects in the value may nest at most `depth` deep.
    fn take(
        &mut self,
        alloc: Global,
        name: &str,
        reader: &mut Reader<'a>,
        depth: usize,
    ) -> Result<(), ReadFault>
        requires { (start : Self) × (ms : Members) × holds start self.old ms }
        ensures ok { OnOk result ((d : Data) × IsMixedMember is_verbatim name.now depth reader.old d reader.new
            × ((start : Self) → (ms : Members) → holds start self.old ms → holds start self.new (put name.now d ms))) }
        ensures shorter { OnOk result (length reader.new < length reader.old) }
        ensures err { result ≡ Err ReadFault.NotJson → IsNoValue depth reader.old };
}

/// Skips the value of a member that has no slot. `Err` is always `ReadFault::NotJson`.
#[inline(always)]
pub fn skip_member(reader: &mut Reader<'_>, depth: usize) -> Result<(), ReadFault>
    ensures ok { OnOk result ((d : Data) × IsRead depth reader.old d reader.new) }
    ensures shorter { OnOk result (length reader.new < length reader.old) }
    ensures err { result ≡ Err ReadFault.NotJson → IsNoValue depth reader.old }
{
    match skip_value(reader, depth) {
        Ok(()) => Ok(()),
        Err(_) => Err(ReadFault::NotJson),
    }
}

/// Reads an object after its `{` into slots.
#[inline(never)]
fn read_members<'a, S: Slots<'a>>(
    alloc: Global,
    reader: &mut Reader<'a>,
    depth: usize,
    slots: &mut S,
) -> Result<(), ReadFault>
    requires { S.holds slots.old slots.old no_members }
    ensures ok { OnOk result ((ms : Members) × AreMixedMembers S.is_verbatim depth reader.old ms reader.new
        × S.holds slots.old slots.new ms) }
    ensures shorter { OnOk result (length reader.new < length reader.old) }
    ensures err { result ≡ Err ReadFault.NotJson → AreNoMixedMembers S.is_verbatim depth reader.old }
{
    'members: while let Some(name) = reader.next_key()? {
        slots.take(alloc, name, reader, depth)?;
    }
    Ok(())
}

/// Reads a value. The members of an object go into the slots; the contents of an array are skipped.
///
/// `Ok` is the value without its contents. Arrays and objects may nest at most `depth` deep.
#[inline(always)]
pub fn read_object<'a, S: Slots<'a>>(
    alloc: Global,
    reader: &mut Reader<'a>,
    depth: usize,
    slots: &mut S,
) -> Result<Shallow<'a>, ReadFault>
    requires { S.holds slots.old slots.old no_members }
    ensures ok { IfOk result (λ s. (d : Data) × IsMixedRead S.is_verbatim depth reader.old d reader.new
        × (shallow_view s ≡ shallow_of (Some d)) × S.holds slots.old slots.new (members_in d)) }
    ensures shorter { OnOk result (length reader.new < length reader.old) }
    ensures err { result ≡ Err ReadFault.NotJson → IsNoValue depth reader.old }
{
    match read_start(reader, depth)? {
        ValueStart::Shallow(shallow) => Ok(shallow),
        ValueStart::Array => {
            skip_items(reader, depth - 1)?;
            Ok(Shallow::Array)
        }
        ValueStart::Object => {
            read_members(alloc, reader, depth - 1, slots)?;
            Ok(Shallow::Object)
        }
    }
}
