//! Names of the scalar members of an element of `resource_changes`.

/// A scalar member of an element.
#[derive(Clone, Copy)]
pub enum ElementMember {
    Address,
    Mode,
    Type,
    Name,
    ModuleAddress,
    Index,
    Deposed,
}
