//! Reads an array item by item into a collector of the caller. No tree is built.
//!
//! Every `Err` is a [`ReadFault`]: the text is not JSON, or memory was refused.

ghost use Rattle.std.specs.Prelude.{◌≡◌, ◌<◌, ◌++◌, ◌∷◌, [], length, Err, IfOk, List, OnOk, Some};
ghost use Rattle.serde_json.specs.Data.{Data, Items};
ghost use Rattle.apply_json.specs.Verbatim.{AreMixedItems, AreNoMixedItems, IsMixedRead};
ghost use Rattle.apply_json.specs.ShallowView.{IsScalar, items_in, array_presence, shallow_view, shallow_of};
ghost use Rattle.apply_json.specs.Tokens.{IsNoValue};
ghost use Rattle.apply_json.specs.Tree.{list_of};

use crate::array_presence::ArrayPresence;
use crate::read_fault::ReadFault;
use crate::shallow::Shallow;
use crate::skipping::skip_members;
use crate::value_start::{ValueStart, read_start};
use json::Reader;
use std::alloc::Global;

/// Collects the items of an array, one by one.
///
/// Members for which `is_verbatim` holds are read as raw JSON text, at any depth in an item.
pub trait Collector<'a> {
    ghost use Rattle.std.specs.Prelude.{Bool, ℕ};

    /// Whether the value of a member of this name is read as raw JSON text.
    ghost is_verbatim: { List ℕ → Bool };

    /// `holds start now items`: the collector `start` became `now` after the items were read.
    ghost holds: { Self → Self → List Data → Type 0 };

    /// Reads the next item. Arrays and objects in the item may nest at most `depth` deep.
    fn take(
        &mut self,
        alloc: Global,
        reader: &mut Reader<'a>,
        depth: usize,
    ) -> Result<(), ReadFault>
        requires { (start : Self) × (ds : List Data) × holds start self.old ds }
        ensures ok { OnOk result ((d : Data) × IsMixedRead is_verbatim depth reader.old d reader.new
            × ((start : Self) → (ds : List Data) → holds start self.old ds → holds start self.new (ds ++ d ∷ []))) }
        ensures shorter { OnOk result (length reader.new < length reader.old) }
        ensures err { result ≡ Err ReadFault.NotJson → IsNoValue depth reader.old };
}

/// Reads an array after its `[` into a collector.
#[inline(never)]
fn read_items<'a, C: Collector<'a>>(
    alloc: Global,
    reader: &mut Reader<'a>,
    depth: usize,
    collector: &mut C,
) -> Result<(), ReadFault>
    requires { C.holds collector.old collector.old [] }
    ensures ok { OnOk result ((ds : Items) × AreMixedItems C.is_verbatim depth reader.old ds reader.new
        × C.holds collector.old collector.new (list_of ds)) }
    ensures shorter { OnOk result (length reader.new < length reader.old) }
    ensures err { result ≡ Err ReadFault.NotJson → AreNoMixedItems C.is_verbatim depth reader.old }
{
    'items: while !reader.take_end_array() {
        collector.take(alloc, reader, depth)?;
    }
    Ok(())
}

/// Reads a value. The items of an array go into the collector; any other value is skipped.
///
/// Arrays and objects in the value may nest at most `depth` deep.
#[inline(always)]
pub fn read_list<'a, C: Collector<'a>>(
    alloc: Global,
    reader: &mut Reader<'a>,
    depth: usize,
    collector: &mut C,
) -> Result<ArrayPresence, ReadFault>
    requires { C.holds collector.old collector.old [] }
    ensures ok { IfOk result (λ kind. (d : Data) × IsMixedRead C.is_verbatim depth reader.old d reader.new
        × (kind ≡ array_presence d) × C.holds collector.old collector.new (list_of (items_in d))) }
    ensures shorter { OnOk result (length reader.new < length reader.old) }
    ensures err { result ≡ Err ReadFault.NotJson → IsNoValue depth reader.old }
{
    match read_start(reader, depth)? {
        ValueStart::Shallow(shallow) => Ok(array_presence(shallow)),
        ValueStart::Array => {
            read_items(alloc, reader, depth - 1, collector)?;
            Ok(ArrayPresence::List)
        }
        ValueStart::Object => {
            skip_members(reader, depth - 1)?;
            Ok(ArrayPresence::Other)
        }
    }
}

/// Tells `null` from the other scalars, none of which is an array.
fn array_presence(shallow: Shallow<'_>) -> ArrayPresence
    ensures { (d : Data) → IsScalar d → shallow_view shallow.entry ≡ shallow_of (Some d) → result ≡ array_presence d }
{
    match shallow {
        Shallow::Absent => ArrayPresence::Absent,
        _ => ArrayPresence::Other,
    }
}
