//! Starts of no step of the plan.

ghost use Rattle.std.specs.Prelude.{◌≡◌, [], OnOk, unwrap_or};
ghost use Rattle.stream_record_steps.specs.Strays.{with_stray};
ghost use Rattle.stream_record_steps.specs.StrayKinds.{no_kinds};
ghost use Rattle.std.specs.HashMap.{get_by_text};

use crate::kinds::{Kinds, no_kinds};
use apply_model::{StepKind, Text};
use std::alloc::{AllocError, Global};
use std::collections::HashMap;
use std::marker::Model;

/// The start of no step of the plan.
#[derive(Debug, Drop)]
pub struct Stray {
    pub line: u64,
    pub kind: StepKind,
    pub address: Text,
}

/// The starts of no step of the plan: the first of each kind and address, in the order of their
/// lines. Contracts see a list.
#[derive(Drop)]
pub struct Strays {
    alloc: Global,
    strays: Vec<Stray>,
    /// For each address, the kinds of its strays.
    kinds: HashMap<String, Kinds>,
}

impl Model for Strays {
    ghost use Rattle.std.specs.Prelude.{List};
    ghost use Rattle.stream_record_steps.specs.declared.strays.Stray.{Stray};
    ghost use Rattle.stream_record_steps.specs.StrayKinds.{AreKinds};

    ghost Value = { List Stray };

    ghost view = { λ it. it.strays.items };

    ghost invariant = { λ it. AreKinds it.kinds it.strays.items };
}

impl Strays {
    /// No strays.
    pub fn new(alloc: Global) -> Strays
        ensures { result ≡ [] }
    {
        Strays {
            alloc,
            strays: Vec::new(alloc),
            kinds: HashMap::new(alloc),
        }
    }

    /// Adds a stray, unless there is one of its kind and address. `Err` where memory is refused.
    pub fn add(&mut self, stray: Stray) -> Result<(), AllocError>
        ensures { OnOk result (self.new ≡ with_stray stray self.old) }
    {
        let kinds = kinds_at(&self.kinds, stray.address.as_str());
        if kinds.has(stray.kind) {
            return Ok(());
        }
        let address = String::from_str(self.alloc, stray.address.as_str())?;
        self.strays.reserve(1)?;
        self.kinds.insert(address, kinds.with(stray.kind))?;
        self.strays.push(stray).unwrap();
        Ok(())
    }

    /// The strays, in the order of their lines.
    pub fn as_slice(&self) -> &[Stray]
        ensures { result.now ≡ self.now }
    {
        self.strays.as_slice()
    }
}

/// The kinds that the map has at the address.
fn kinds_at(by_address: &HashMap<String, Kinds>, address: &str) -> Kinds
    ensures { result ≡ unwrap_or (get_by_text by_address.now address.now) no_kinds }
{
    match by_address.get(address) {
        Some(kinds) => *kinds,
        None => no_kinds(),
    }
}
