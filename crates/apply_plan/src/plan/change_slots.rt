//! The members of `change`.

ghost use Rattle.apply_json.specs.Verbatim.{none_verbatim};
ghost use Rattle.apply_plan.specs.Plan.Members.{HoldsChange};

use crate::members::take_member;
use crate::plan::actions::read_actions;
use crate::plan::id_slots::{read_hides_id, read_id};
use apply_json::{ReadFault, Reader, Slots};
use apply_model::Action;
use std::alloc::Global;

/// The members of `change`, while they are read.
#[derive(Clone, Copy, Drop)]
pub struct ChangeSlots<'a> {
    /// The action of the list. `Some(None)` is an invalid list, `None` a missing one.
    pub actions: Option<Option<Action>>,
    /// The id before the change. `None` means no text or an empty one.
    pub id: Option<&'a str>,
    /// Whether `before_sensitive` hides the id.
    pub hides_id: bool,
}

impl<'a> ChangeSlots<'a> {
    ghost use Rattle.serde_json.specs.Data.{no_members};

    /// Slots before any member was read.
    pub fn new() -> ChangeSlots<'a>
        ensures { HoldsChange result no_members }
    {
        ChangeSlots {
            actions: None,
            id: None,
            hides_id: false,
        }
    }
}

impl<'a> Slots<'a> for ChangeSlots<'a> {
    ghost is_verbatim = { none_verbatim };

    ghost holds = { λ _ slots ms. HoldsChange slots ms };

    fn take(
        &mut self,
        alloc: Global,
        name: &str,
        reader: &mut Reader<'a>,
        depth: usize,
    ) -> Result<(), ReadFault> {
        take_member! {
            name, reader, depth,
            "actions" => read_actions(alloc, reader, depth, &mut self.actions),
            "before" => read_id(alloc, reader, depth, &mut self.id),
            "before_sensitive" => read_hides_id(alloc, reader, depth, &mut self.hides_id),
        }
    }
}
