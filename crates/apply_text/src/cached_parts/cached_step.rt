//! A step and the fields of its change that messages show. Every `Err` means that memory was
//! refused.

ghost use Rattle.std.specs.Prelude.{◌≡◌, string_bytes, IfOk, IsTrue, OnOk};
ghost use Rattle.apply_text.specs.CachedParts.{shown_step};

use crate::cached_parts::key::{copy_of, is_same};
use apply_model::{Change, Key, StepKind};
use std::alloc::{AllocError, Global};
use std::marker::Model;

/// A copy of a step and of the fields of its change that messages show. A template compares it with
/// a step to see whether its texts still fit.
///
/// Contracts see the step and the shown fields.
#[derive(Drop)]
pub struct CachedStep {
    address: String,
    module_address: String,
    kind_name: String,
    name: String,
    key: Key,
    step: StepKind,
}

impl Model for CachedStep {
    ghost use Rattle.std.specs.Prelude.{string_bytes};
    ghost use Rattle.apply_text.specs.CachedParts.{ShownStep, shown_change};

    ghost Value = { ShownStep };

    ghost view = { λ cached. record {
      change = shown_change (string_bytes cached.address) (string_bytes cached.module_address) (string_bytes cached.kind_name) (string_bytes cached.name) cached.key;
      step = cached.step;
    } };
}

impl CachedStep {
    /// A step without a change. Takes no memory.
    pub fn empty(alloc: Global) -> CachedStep {
        CachedStep {
            address: String::new(alloc),
            module_address: String::new(alloc),
            kind_name: String::new(alloc),
            name: String::new(alloc),
            key: Key::None,
            step: StepKind::Read,
        }
    }

    /// Copies a step of `change`.
    pub fn new(alloc: Global, change: &Change, step: StepKind) -> Result<CachedStep, AllocError>
        ensures { IfOk result (λ shown. shown ≡ shown_step change.now step) }
    {
        let mut shown = CachedStep::empty(alloc);
        shown.fill(alloc, change, step)?;
        Ok(shown)
    }

    /// Replaces the content by a step of `change`, and reuses the memory. After an `Err` the
    /// content is part old, part new.
    pub fn fill(&mut self, alloc: Global, change: &Change, step: StepKind) -> Result<(), AllocError>
        ensures { OnOk result (self.new ≡ shown_step change.now step) }
    {
        fill_text(&mut self.address, change.address())?;
        fill_text(&mut self.module_address, change.module())?;
        fill_text(&mut self.kind_name, change.kind_name())?;
        fill_text(&mut self.name, change.name())?;
        self.key = copy_of(alloc, change.key())?;
        self.step = step;
        Ok(())
    }

    /// Whether this is a copy of `step`, of a change with the same shown fields.
    pub fn is_of(&self, change: &Change, step: StepKind) -> bool
        ensures { IsTrue result → self.now ≡ shown_step change.now step }
    {
        self.step == step
            && self.address.as_str() == change.address()
            && self.name.as_str() == change.name()
            && self.kind_name.as_str() == change.kind_name()
            && self.module_address.as_str() == change.module()
            && is_same(&self.key, change.key())
    }
}

/// Replaces the text in `room`.
fn fill_text(room: &mut String, text: &str) -> Result<(), AllocError>
    ensures { OnOk result (string_bytes room.new ≡ text.now) }
{
    room.clear();
    room.push_str(text)
}
