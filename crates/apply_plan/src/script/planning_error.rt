//! Why what a script says of a planning was refused.

use crate::script::named::Named;

/// Why what a script says of the planning of its plan was refused. A number is that of the first
/// faulty item, counted from 0, and the variant is the first fault of this item.
#[derive(Clone, Copy, Drop, PartialEq, Eq)]
pub enum PlanningError {
    /// There are more than 9,999 items.
    TooMany,
    /// The item is not an object, or has an invalid member.
    Malformed(usize),
    /// The plan does not know the object of the item, and its address is not that of a resource.
    NoObject(usize),
    /// The item says what its object cannot do: a data source is never deposed or gone, and only a
    /// data source has a failure that only warns.
    Misfits(usize),
    /// An earlier item is of the same object.
    Repeated(usize),
}

impl PlanningError {
    /// The item that the error names.
    pub(crate) fn named(self) -> Named {
        match self {
            PlanningError::TooMany => Named::Nothing,
            PlanningError::Malformed(number)
            | PlanningError::NoObject(number)
            | PlanningError::Misfits(number)
            | PlanningError::Repeated(number) => Named::Planned(number),
        }
    }

    /// The message, without the item that it names.
    pub(crate) fn text(self) -> &'static str {
        match self {
            PlanningError::TooMany => "script has more than 9999 planned objects",
            PlanningError::Malformed(_) => " is malformed",
            PlanningError::NoObject(_) => " names no object",
            PlanningError::Misfits(_) => " does not fit its object",
            PlanningError::Repeated(_) => " repeats an earlier one",
        }
    }
}
