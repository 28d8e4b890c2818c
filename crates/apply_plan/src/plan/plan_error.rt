//! Why a plan was refused.

ghost use Rattle.std.specs.Prelude.{◌≡◌};
ghost use Rattle.apply_plan.specs.declared.plan.plan_error.PlanError.TheVariants.{Memory};
ghost use Rattle.apply_plan.specs.NoTree.{plan_refusal};

use apply_json::JsonFault;
use std::alloc::{AllocError, AllocFailed};
use std::error::Error;
use std::fmt;

/// Why bytes were refused as a plan.
///
/// The variants are tested in this order. A number is that of the first faulty element of
/// `resource_changes`, counted from 0, and the variant is the first fault of this element.
#[derive(Clone, Copy, Drop, PartialEq, Eq)]
pub enum PlanError {
    /// There are more than 67,108,864 bytes.
    TooLarge,
    /// The bytes are not UTF-8 or not JSON (RFC 8259), or values nest more than 127 deep.
    NotJson,
    /// The top level is not that of a plan whose `format_version` is 1.x (JSON Output Format).
    NotAPlan,
    /// `resource_changes` has more than 10,000 elements.
    TooMany,
    /// A member of the element is missing or invalid.
    BadChange(u32),
    /// The element's `actions` are not one of the eight valid lists.
    BadActions(u32),
    /// The element's `address` is empty, or does not extend its `module_address` by a dot and more.
    BadAddress(u32),
    /// An earlier element has the same `address` and the same `deposed` key.
    Duplicate(u32),
    /// Memory was refused. It is reported at once, before faults of later parts of the input.
    Memory,
}

impl PlanError {
    /// Converts the fault of the JSON reader.
    pub(crate) fn of_json(fault: JsonFault) -> PlanError
        ensures { result ≡ plan_refusal fault }
    {
        match fault {
            JsonFault::TooLarge => PlanError::TooLarge,
            JsonFault::NotJson => PlanError::NotJson,
            JsonFault::Memory => PlanError::Memory,
        }
    }

    /// The number of the faulty element. `None` means a fault of the whole plan.
    fn element(self) -> Option<u32> {
        match self {
            PlanError::BadChange(number)
            | PlanError::BadActions(number)
            | PlanError::BadAddress(number)
            | PlanError::Duplicate(number) => Some(number),
            _ => None,
        }
    }

    /// The message, without the number of the element.
    fn text(self) -> &'static str {
        match self {
            PlanError::TooLarge => "the plan is larger than 67108864 bytes",
            PlanError::NotJson => "the plan is not JSON",
            PlanError::NotAPlan => "the plan is not a plan of format 1.x",
            PlanError::TooMany => "the plan has more than 10000 changes",
            PlanError::BadChange(_) => " is malformed",
            PlanError::BadActions(_) => " has an action list that is out of scope",
            PlanError::BadAddress(_) => " has an address that does not fit its module",
            PlanError::Duplicate(_) => " repeats an earlier change",
            PlanError::Memory => "out of memory",
        }
    }
}

// Not derived: a derived impl needs one proof case for each text.
impl fmt::Display for PlanError {
    fn fmt<W: fmt::Write>(&self, f: &mut fmt::Formatter<W>) -> fmt::Result {
        match self.element() {
            Some(number) => write!(f, "change {number}{}", self.text()),
            None => f.write_str(self.text()),
        }
    }
}

impl fmt::Debug for PlanError {
    fn fmt<W: fmt::Write>(&self, f: &mut fmt::Formatter<W>) -> fmt::Result {
        write!(f, "{self}")
    }
}

impl Error for PlanError {}

impl From<AllocError> for PlanError {
    ghost from_gives = { λ _ refusal. refusal ≡ Memory };

    fn from(_refused: AllocError) -> PlanError {
        PlanError::Memory
    }
}

impl<T: Drop> From<AllocFailed<T>> for PlanError {
    ghost from_gives = { λ _ refusal. refusal ≡ Memory };

    fn from(_refused: AllocFailed<T>) -> PlanError {
        PlanError::Memory
    }
}
