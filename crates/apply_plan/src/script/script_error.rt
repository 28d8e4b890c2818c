//! Why a script was refused.

ghost use Rattle.std.specs.Prelude.{◌≡◌};
ghost use Rattle.apply_plan.specs.declared.script.script_error.ScriptError.TheVariants.{Memory};
ghost use Rattle.apply_plan.specs.NoTree.{script_refusal};

use crate::script::named::Named;
use crate::script::planning_error::PlanningError;
use apply_json::JsonFault;
use std::alloc::{AllocError, AllocFailed};
use std::error::Error;
use std::fmt;

/// Why bytes were refused as a script for a plan.
///
/// The variants are tested in this order. A number is that of the first faulty entry, counted from
/// 0, and the variant is the first fault of this entry.
#[derive(Clone, Copy, Drop, PartialEq, Eq)]
pub enum ScriptError {
    /// The script has more than 67,108,864 bytes.
    TooLarge,
    /// The bytes are not UTF-8 or not JSON (RFC 8259), or values nest more than 127 deep.
    NotJson,
    /// A value has the wrong shape, in the entry of this number, or for `None` at the top level:
    /// - A member is missing or invalid.
    /// - A step whose provider fails has an id, a warning or a provisioner.
    /// - A skipped step has seconds, an id, a warning, a failure or a provisioner.
    /// - An output of a provisioner comes before an earlier output, or after the provisioner ends.
    BadShape(Option<u32>),
    /// The plan has no change with the `address` and `deposed` key of the entry.
    UnknownChange(u32),
    /// An earlier entry has the same change.
    Duplicate(u32),
    /// The entry has more steps than its change.
    TooManySteps(u32),
    /// A step of the entry takes more than 86,400 seconds, with all its provisioners.
    SecondsRange(u32),
    /// A step of the entry has more than 8 provisioners.
    TooManyProvisioners(u32),
    /// A provisioner of the entry has more than 100 outputs.
    TooMuchOutput(u32),
    /// A step of the entry has a provisioner, but cannot run one.
    ///
    /// A create can. A delete can if it is the first step of a change whose object is not deposed.
    NotACreate(u32),
    /// A step of the entry that is not a read has a failure with the severity `warning`.
    WarnsNotARead(u32),
    /// The `after` lists of the entry and of the earlier entries have more than 1,000,000 items.
    TooManyWaits(u32),
    /// An `after` item of the entry names a change that the plan does not have.
    UnknownWait(u32),
    /// An `after` item of the entry gives the number of a step that its change does not have.
    NoSuchStep(u32),
    /// No entry has another fault, and a step of the entry can never start.
    ///
    /// Such a step waits, directly or through other steps, for itself or for a step that can never
    /// start.
    NeverBegins(u32),
    /// An output of the script is not an object, has no `type`, or has a `sensitive` that is not a
    /// boolean.
    ///
    /// Outputs are counted from 0, in the byte order of their names. This variant and the next two
    /// come only in Terraform's form, if no variant above holds.
    BadOutput(usize),
    /// The plan has no output of this name, or deletes it.
    UnknownOutput(usize),
    /// A top-level diagnostic of the script is not an object, or has an invalid member.
    ///
    /// Diagnostics are counted from 0. The `severity` of each must be `error` or `warning`.
    BadDiagnostic(usize),
    /// What the script says of the planning of the plan is wrong.
    ///
    /// It comes only with a command that plans, if no variant above holds.
    Planning(PlanningError),
    /// Memory was refused. It is reported at once, before faults of later parts of the input.
    Memory,
}

impl ScriptError {
    /// Converts the fault of the JSON reader.
    pub(crate) fn of_json(fault: JsonFault) -> ScriptError
        ensures { result ≡ script_refusal fault }
    {
        match fault {
            JsonFault::TooLarge => ScriptError::TooLarge,
            JsonFault::NotJson => ScriptError::NotJson,
            JsonFault::Memory => ScriptError::Memory,
        }
    }

    /// The part of the script that the error names.
    fn named(self) -> Named {
        match self {
            ScriptError::BadShape(Some(number))
            | ScriptError::UnknownChange(number)
            | ScriptError::Duplicate(number)
            | ScriptError::TooManySteps(number)
            | ScriptError::SecondsRange(number)
            | ScriptError::TooManyProvisioners(number)
            | ScriptError::TooMuchOutput(number)
            | ScriptError::NotACreate(number)
            | ScriptError::WarnsNotARead(number)
            | ScriptError::TooManyWaits(number)
            | ScriptError::UnknownWait(number)
            | ScriptError::NoSuchStep(number)
            | ScriptError::NeverBegins(number) => Named::Entry(number),
            ScriptError::BadOutput(number) | ScriptError::UnknownOutput(number) => {
                Named::Output(number)
            }
            ScriptError::BadDiagnostic(number) => Named::Diagnostic(number),
            ScriptError::Planning(error) => error.named(),
            ScriptError::TooLarge
            | ScriptError::NotJson
            | ScriptError::BadShape(None)
            | ScriptError::Memory => Named::Nothing,
        }
    }

    /// The message, without the part that it names.
    fn text(self) -> &'static str {
        match self {
            ScriptError::TooLarge => "the script is larger than 67108864 bytes",
            ScriptError::NotJson => "the script is not JSON",
            ScriptError::BadShape(None) => "the script is malformed",
            ScriptError::BadShape(Some(_))
            | ScriptError::BadOutput(_)
            | ScriptError::BadDiagnostic(_) => " is malformed",
            ScriptError::UnknownChange(_) => " names an unknown change",
            ScriptError::Duplicate(_) => " repeats an earlier entry",
            ScriptError::TooManySteps(_) => " has too many steps",
            ScriptError::SecondsRange(_) => " has a step over 86400 seconds",
            ScriptError::TooManyProvisioners(_) => " has a step with more than 8 provisioners",
            ScriptError::TooMuchOutput(_) => " has a provisioner with more than 100 outputs",
            ScriptError::NotACreate(_) => " has a provisioner on a step that takes none",
            ScriptError::WarnsNotARead(_) =>
                " has a failure that only warns on a step that is not a read",
            ScriptError::TooManyWaits(_) => " goes beyond 1000000 waits",
            ScriptError::UnknownWait(_) => " waits for an unknown change",
            ScriptError::NoSuchStep(_) => " waits for a step that its change does not have",
            ScriptError::NeverBegins(_) => " has a step that could never begin",
            ScriptError::UnknownOutput(_) => " is not an output of the plan",
            ScriptError::Planning(error) => error.text(),
            ScriptError::Memory => "out of memory",
        }
    }
}

// Not derived: a derived impl needs one proof case for each text.
impl fmt::Display for ScriptError {
    fn fmt<W: fmt::Write>(&self, f: &mut fmt::Formatter<W>) -> fmt::Result {
        write!(f, "{}{}", self.named(), self.text())
    }
}

impl fmt::Debug for ScriptError {
    fn fmt<W: fmt::Write>(&self, f: &mut fmt::Formatter<W>) -> fmt::Result {
        write!(f, "{self}")
    }
}

impl Error for ScriptError {}

impl From<AllocError> for ScriptError {
    ghost from_gives = { λ _ refusal. refusal ≡ Memory };

    fn from(_refused: AllocError) -> ScriptError {
        ScriptError::Memory
    }
}

impl<T: Drop> From<AllocFailed<T>> for ScriptError {
    ghost from_gives = { λ _ refusal. refusal ≡ Memory };

    fn from(_refused: AllocFailed<T>) -> ScriptError {
        ScriptError::Memory
    }
}
