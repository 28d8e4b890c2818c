//! The members of an element of `resource_changes`.

ghost use Rattle.std.specs.Prelude.{◌≡◌, MatchOption, false, true};
ghost use Rattle.std.specs.Str.{bytes_eq};
ghost use Rattle.apply_json.specs.Verbatim.{none_verbatim};
ghost use Rattle.apply_plan.specs.declared.plan.element_member.ElementMember.{ElementMember};
ghost use Rattle.apply_plan.specs.Plan.Members.{HoldsElement, name_of, with_scalar};

use crate::plan::element_member::ElementMember;
use crate::plan::planned_change::PlannedChange;
use apply_json::{ReadFault, Reader, Shallow, Slots, is_text, read_shallow, skip_member};
use std::alloc::Global;

/// The members of an element, while they are read.
#[derive(Clone, Copy, Drop)]
pub struct ElementSlots<'a> {
    pub address: Shallow<'a>,
    pub mode: Shallow<'a>,
    pub kind_name: Shallow<'a>,
    pub name: Shallow<'a>,
    pub module_address: Shallow<'a>,
    pub index: Shallow<'a>,
    pub deposed: Shallow<'a>,
    pub change: Option<PlannedChange<'a>>,
}

impl<'a> ElementSlots<'a> {
    ghost use Rattle.serde_json.specs.Data.{no_members};

    /// Slots before any member was read.
    pub fn new() -> ElementSlots<'a>
        ensures { HoldsElement result no_members }
    {
        ElementSlots {
            address: Shallow::Absent,
            mode: Shallow::Absent,
            kind_name: Shallow::Absent,
            name: Shallow::Absent,
            module_address: Shallow::Absent,
            index: Shallow::Absent,
            deposed: Shallow::Absent,
            change: None,
        }
    }

    /// Stores a scalar member. It replaces an earlier one.
    fn set(&mut self, member: ElementMember, input: Shallow<'a>)
        ensures { self.new ≡ with_scalar self.old member input.entry }
    {
        match member {
            ElementMember::Address => self.address = input,
            ElementMember::Mode => self.mode = input,
            ElementMember::Type => self.kind_name = input,
            ElementMember::Name => self.name = input,
            ElementMember::ModuleAddress => self.module_address = input,
            ElementMember::Index => self.index = input,
            ElementMember::Deposed => self.deposed = input,
        }
    }
}

impl<'a> Slots<'a> for ElementSlots<'a> {
    ghost is_verbatim = { none_verbatim };

    ghost holds = { λ _ slots ms. HoldsElement slots ms };

    fn take(
        &mut self,
        alloc: Global,
        name: &str,
        reader: &mut Reader<'a>,
        depth: usize,
    ) -> Result<(), ReadFault> {
        if is_text(name, "change") {
            return PlannedChange::read(alloc, reader, depth, &mut self.change);
        }
        match scalar_of_name(name) {
            Some(member) => {
                let input = read_shallow(reader, depth)?;
                self.set(member, input);
                Ok(())
            }
            None => skip_member(reader, depth),
        }
    }
}

/// The scalar member of this name. `None` means that there is none.
fn scalar_of_name(name: &str) -> Option<ElementMember>
    ensures { MatchOption result ((member : ElementMember) → bytes_eq name.now (name_of member) ≡ false)
        (λ member. bytes_eq name.now (name_of member) ≡ true) }
{
    if is_text(name, "address") {
        Some(ElementMember::Address)
    } else if is_text(name, "mode") {
        Some(ElementMember::Mode)
    } else if is_text(name, "type") {
        Some(ElementMember::Type)
    } else if is_text(name, "name") {
        Some(ElementMember::Name)
    } else if is_text(name, "module_address") {
        Some(ElementMember::ModuleAddress)
    } else if is_text(name, "index") {
        Some(ElementMember::Index)
    } else if is_text(name, "deposed") {
        Some(ElementMember::Deposed)
    } else {
        None
    }
}
