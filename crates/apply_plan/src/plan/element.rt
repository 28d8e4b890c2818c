//! An element of `resource_changes`. Its texts are borrowed from the input.

ghost use Rattle.std.specs.Prelude.{◌≡◌, IfOk, option_map};
ghost use Rattle.apply_json.specs.ShallowView.{shallow_view};
ghost use Rattle.apply_plan.specs.Plan.Element.{mode_named};
ghost use Rattle.apply_plan.specs.Plan.ElementView.{element_view, key_view};
ghost use Rattle.apply_plan.specs.Plan.Members.{element_read, key_read, mode_read};

use crate::filled_text::filled_text;
use crate::plan::element_slots::ElementSlots;
use apply_json::{Shallow, is_text, non_empty};
use apply_model::{Action, Key, Mode, Text};
use std::alloc::{AllocError, Global};

/// An instance key: the index of `count`, or the key of `for_each`.
#[derive(Clone, Copy)]
pub enum IndexKey<'a> {
    None,
    Number(i64),
    Name(&'a str),
}

impl IndexKey<'_> {
    /// The key, with a copy of its text. `Err` means that memory was refused.
    pub fn copied(self, alloc: Global) -> Result<Key, AllocError>
        ensures { IfOk result (λ key. key ≡ key_view self.entry) }
    {
        Ok(match self {
            IndexKey::None => Key::None,
            IndexKey::Number(number) => Key::Number(number),
            IndexKey::Name(name) => Key::Name(Text::new(alloc, name)?),
        })
    }
}

/// An element whose members are all valid.
#[derive(Clone, Copy)]
pub struct Element<'a> {
    pub address: &'a str,
    pub mode: Mode,
    pub kind_name: &'a str,
    pub name: &'a str,
    pub module_address: &'a str,
    pub key: IndexKey<'a>,
    pub deposed: Option<&'a str>,
    /// `None` means that the action list is not one of the eight valid lists.
    pub action: Option<Action>,
    pub prior_id: Option<&'a str>,
}

impl<'a> Element<'a> {
    /// Checks the members. `None` means that one is invalid or missing.
    pub fn of(slots: &ElementSlots<'a>) -> Option<Element<'a>>
        ensures { option_map element_view result ≡ element_read slots.now }
    {
        let kinds = slots.address.text().zip(mode_of(slots.mode));
        let names = filled_text(slots.kind_name).zip(filled_text(slots.name));
        let places = slots.module_address.text_or("").zip(index_key(slots.index));
        let others = slots.deposed.text_or("").zip(slots.change);
        let Some(all) = kinds.zip(names).zip(places.zip(others)) else {
            return None;
        };
        let (((address, mode), (kind_name, name)), ((module_address, key), (deposed, change))) =
            all;
        Some(Element {
            address,
            mode,
            kind_name,
            name,
            module_address,
            key,
            deposed: non_empty(deposed),
            action: change.action,
            prior_id: change.prior_id,
        })
    }
}

/// The mode, by the member `mode`. `None` means that it is invalid or missing.
fn mode_of(input: Shallow<'_>) -> Option<Mode>
    ensures { result ≡ mode_read (shallow_view input.entry) }
{
    match input.text() {
        Some(word) => mode_named(word),
        None => None,
    }
}

fn mode_named(word: &str) -> Option<Mode>
    ensures { result ≡ mode_named word.now }
{
    if is_text(word, "managed") {
        Some(Mode::Managed)
    } else if is_text(word, "data") {
        Some(Mode::DataSource)
    } else {
        None
    }
}

/// The instance key, by the member `index`.
///
/// `None` means that it is neither a text nor a whole number that fits `i64`.
fn index_key(index: Shallow<'_>) -> Option<IndexKey<'_>>
    ensures { option_map key_view result ≡ key_read (shallow_view index.entry) }
{
    match index {
        Shallow::Absent => Some(IndexKey::None),
        Shallow::Number(number) => match number.as_i64() {
            Some(number) => Some(IndexKey::Number(number)),
            None => None,
        },
        Shallow::Text(name) => Some(IndexKey::Name(name)),
        Shallow::Bool(_) | Shallow::Array | Shallow::Object => None,
    }
}
