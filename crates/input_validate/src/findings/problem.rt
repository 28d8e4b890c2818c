//! The kinds of errors and warnings.

ghost use Rattle.std.specs.Prelude.{◌≡◌};
ghost use Rattle.input_validate.specs.Findings.{is_refusal_of};

use crate::findings::expected::Expected;
use apply_plan::{ScriptError, StepKind};

/// What is wrong with the value that a path leads to. The last four are warnings, and a run refuses
/// for each of the others.
#[derive(Clone, Copy, Debug)]
pub enum Problem {
    /// The input has more than 67,108,864 bytes.
    TooManyBytes,
    /// The bytes are not JSON (RFC 8259) in UTF-8, or are nested more than 127 deep.
    NotJson,
    /// The value is not what it has to be.
    IsNot(Expected),
    /// The member is absent, and has to be there.
    IsMissing(Expected),
    /// The plan has more than 10,000 changes.
    TooManyChanges,
    /// The list of actions is none of the eight.
    BadActions,
    /// The address is empty.
    EmptyAddress,
    /// The address does not start with the address of its module, a dot and something more.
    OutsideModule,
    /// The element with this number names the same object.
    NamedBefore(usize),
    /// The member may not stand next to `failed`.
    WithFailed,
    /// The member may not stand next to `skipped`.
    WithSkipped,
    /// The member may not stand next to `gone`.
    WithGone,
    /// The member of an object that is refreshed or read may not stand next to `skipped`.
    WithSkippedObject,
    /// The step takes longer than a day, its provisioners included.
    TooLong,
    /// The step has more than 8 provisioners.
    TooManyProvisioners,
    /// The provisioner has more than 100 output items.
    TooManyTexts,
    /// The plan changes no object at this address.
    UnknownAddress,
    /// The plan does not change this object, but changes another one at the same address.
    UnknownObject,
    /// The entry with this number is about the same change.
    AboutAgain(usize),
    /// The entry has more steps than its change, which has steps of these kinds.
    TooManySteps(Option<StepKind>, Option<StepKind>),
    /// A step of this kind has no provisioners.
    TakesNone(StepKind),
    /// A failure with the severity `warning` stands at a step of this kind, and only a read may
    /// have one.
    OnlyWarns(StepKind),
    /// The change does not have this step. It has steps of these kinds.
    NoSuchStep(Option<StepKind>, Option<StepKind>),
    /// After the apply, the plan has no output of this name.
    UnknownOutput,
    /// The script has more than 1,000,000 items of `after`. This is the first one too many.
    TooManyWaits,
    /// The item comes after the end of its provisioner, which takes this many seconds.
    AfterTheEnd(u64),
    /// The item comes before the item in front of it, which comes after this many seconds.
    OutOfOrder(u64),
    /// The script has more than 9,999 objects that are refreshed or read.
    TooManyPlanned,
    /// The plan does not know the object, and no resource has such an address.
    NoObject,
    /// The member stands at a data source, and only an object that is refreshed may have it.
    OnlyRefreshed,
    /// A failure with the severity `warning` stands at an object that is refreshed, and only a data
    /// source may have one.
    OnlyReadWarns,
    /// The entry with this number is about the same object.
    PlannedBefore(usize),
    /// A run refuses the script for this plan.
    ForPlan(ScriptError),
    /// The step waits for others, and the run has no `--parallelism`.
    Waits,
    /// No run reads the member.
    NotRead,
    /// The step fails, and no step waits for its change.
    UnheededFailure,
    /// The step is skipped, and nothing fails.
    NeedlessSkip,
    /// The plan leaves the output with this number unknown, and the script does not state it. The
    /// number is its place in `output_changes`, in the order of the names' bytes.
    ValuelessOutput(usize),
}

impl Problem {
    /// Returns whether a run refuses the plan or the script for this problem.
    pub fn is_refusal(self) -> bool
        ensures { result ≡ is_refusal_of self }
    {
        match self {
            Problem::NotRead
            | Problem::UnheededFailure
            | Problem::NeedlessSkip
            | Problem::ValuelessOutput(_) => false,
            _ => true,
        }
    }
}
