//! The ids before the drifts of a plan, by object.

ghost use Rattle.std.specs.Prelude.{◌≡◌, ℕ, IfOk, List, Option};
ghost use Rattle.std.specs.Option.{option_copied};
ghost use Rattle.apply_resolve.specs.declared.object_id.ObjectId.{ObjectId};
ghost use Rattle.apply_prior.specs.declared.drift.Drift.{Drift};
ghost use Rattle.apply_prior.specs.Objects.{id_by_mode, last_id};
ghost use Rattle.apply_prior.specs.Views.{AreLast, element_view, id_in};

use crate::drift::Drift;
use crate::element::Element;
use apply_model::Mode;
use apply_resolve::ObjectId;
use std::alloc::{AllocError, Global};
use std::collections::BTreeMap;

/// For each object with drifts the id before the last of them.
#[derive(Drop)]
pub struct LastIds<'a> {
    ids: BTreeMap<ObjectId<'a>, Option<&'a str>>,
}

impl<'a> LastIds<'a> {
    /// The ids before these drifts. `Err` means that memory was refused.
    pub fn of(alloc: Global, drifts: &'a [Drift]) -> Result<LastIds<'a>, AllocError>
        ensures { IfOk result (λ ids. AreLast ids drifts.now) }
    {
        let mut ids = BTreeMap::new(alloc);
        for drift in drifts {
            ids.insert(ObjectId::of_change(&drift.change), drift.change.prior_id())?;
        }
        Ok(LastIds { ids })
    }

    /// The id of an object before it was refreshed.
    pub fn id_before(&self, object: &Element<'a>) -> Option<&'a str>
        ensures { (drifts : List Drift) → AreLast self.now drifts
            → option_copied result ≡ id_by_mode object.now.names.mode drifts (element_view object.now) }
    {
        match object.names.mode {
            Mode::Managed => match self.ids.get(&object.id()) {
                Some(id) => *id,
                None => object.prior_id,
            },
            Mode::DataSource => object.prior_id,
        }
    }
}
