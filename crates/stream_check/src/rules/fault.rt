//! What is wrong with a line, or with the end of a stream.

ghost use Rattle.std.specs.Prelude.{◌≡◌};
ghost use Rattle.stream_check.specs.Faults.{fault_after, line_after, other_of, reports_object, word_of};
ghost use Rattle.stream_check.specs.declared.rules.fault.Fault.TheVariants.{Memory};

use crate::messages::member_fault::MemberFault;
use crate::messages::path::Path;
use crate::messages::totals::Totals;
use std::alloc::{AllocError, AllocFailed};
use std::error::Error;
use std::fmt;

/// Why a line does not fit the lines before it. The variants are tested in this order.
#[derive(Clone, Copy, Drop, PartialEq, Eq)]
pub enum Fault {
    /// The line has more than 67,108,864 bytes.
    TooLong,
    /// The line, or the message located in a line of a log, is no JSON (RFC 8259), or nests more
    /// than 127 deep.
    NotJson,
    /// The line is no JSON object with a text `type`.
    NoType,
    /// A member that the type needs is missing, or has another type.
    Malformed(Path, MemberFault),
    /// The first message is not `version`.
    NoVersion,
    /// A second `version`. The first one stands on that line.
    VersionAgain(u64),
    /// A message about a step or a plan, or a summary, after the summary on that line.
    AfterSummary(u64),
    /// A second summary of a plan. The first one stands on that line.
    PlanAgain(u64),
    /// Outputs that follow no summary, or follow other outputs of the same summary.
    OutputsAlone,
    /// A step starts that started on that line and has not ended.
    StartsAgain(u64),
    /// Too many steps of one address overlap. The first of them started on that line.
    TooMany(u64),
    /// More steps of this action start than were planned.
    NotPlanned,
    /// A message about a step that is not open.
    NotOpen,
    /// The seconds of a step do not rise. The seconds on that line are not less.
    NotLater(u64),
    /// A step ends while its provisioner runs, which started on that line.
    LeavesProvisioner(u64),
    /// A message about a provisioner outside of a create or a delete of its address.
    NoStep,
    /// A provisioner starts while another one runs, which started on that line.
    ProvisionerRuns(u64),
    /// A message about a provisioner that does not run.
    NoProvisioner,
    /// Something stands open at a summary or at the end.
    Unended,
    /// The summary states the first totals, but the lines have the second.
    WrongTotals(Totals, Totals),
    /// The summary of a plan states the first totals, but the second were planned.
    WrongPlanTotals(Totals, Totals),
    /// The stream has a summary of an apply and no error, and a planned create never began.
    Planned,
    /// The stream ends without a summary and without an error.
    NoEnd,
    /// The stream ends with the summary of a plan, as the stream of a plan does.
    NoApply,
    /// The stream ends, and none of its lines is a message. It has that many lines.
    NoMessage(u64),
    /// Memory was refused.
    Memory,
}

impl Fault {
    /// The word for the fault, for programs.
    pub fn word(self) -> &'static str
        ensures { result.now ≡ word_of self }
    {
        match self {
            Fault::TooLong => "too_long",
            Fault::NotJson | Fault::NoType => "not_a_message",
            Fault::Malformed(..) => "malformed",
            Fault::NoVersion => "no_version",
            Fault::VersionAgain(_) => "version_again",
            Fault::AfterSummary(_) => "after_summary",
            Fault::PlanAgain(_) => "plan_again",
            Fault::OutputsAlone => "outputs_alone",
            Fault::StartsAgain(_) => "starts_again",
            Fault::TooMany(_) => "too_many",
            Fault::NotPlanned => "not_planned",
            Fault::NotOpen => "not_open",
            Fault::NotLater(_) => "not_later",
            Fault::LeavesProvisioner(_) => "leaves_provisioner",
            Fault::NoStep => "no_step",
            Fault::ProvisionerRuns(_) => "provisioner_runs",
            Fault::NoProvisioner => "no_provisioner",
            Fault::Unended => "unended",
            Fault::Planned => "planned",
            Fault::WrongTotals(..) | Fault::WrongPlanTotals(..) => "wrong_totals",
            Fault::NoEnd | Fault::NoApply => "no_end",
            Fault::NoMessage(_) => "no_message",
            Fault::Memory => "memory",
        }
    }

    /// Whether the report names what the faulty line is about.
    pub fn reports_object(self) -> bool
        ensures { result ≡ reports_object self }
    {
        match self {
            Fault::TooLong
            | Fault::NotJson
            | Fault::NoType
            | Fault::Malformed(..)
            | Fault::Unended
            | Fault::Planned
            | Fault::WrongTotals(..)
            | Fault::WrongPlanTotals(..)
            | Fault::NoEnd
            | Fault::NoApply
            | Fault::NoMessage(_)
            | Fault::Memory => false,
            _ => true,
        }
    }

    /// The line that the faulty one contradicts, counted from 1.
    pub fn other(self) -> Option<u64>
        ensures { result ≡ other_of self }
    {
        match self {
            Fault::VersionAgain(line)
            | Fault::AfterSummary(line)
            | Fault::PlanAgain(line)
            | Fault::StartsAgain(line)
            | Fault::TooMany(line)
            | Fault::NotLater(line)
            | Fault::LeavesProvisioner(line)
            | Fault::ProvisionerRuns(line) => Some(line),
            _ => None,
        }
    }

    /// The same fault of a stream with so many lines of the input before it.
    pub fn after_lines(self, lines: u64) -> Fault
        ensures { result ≡ fault_after lines self }
    {
        match self {
            Fault::VersionAgain(line) => Fault::VersionAgain(line_after(lines, line)),
            Fault::AfterSummary(line) => Fault::AfterSummary(line_after(lines, line)),
            Fault::PlanAgain(line) => Fault::PlanAgain(line_after(lines, line)),
            Fault::StartsAgain(line) => Fault::StartsAgain(line_after(lines, line)),
            Fault::TooMany(line) => Fault::TooMany(line_after(lines, line)),
            Fault::NotLater(line) => Fault::NotLater(line_after(lines, line)),
            Fault::LeavesProvisioner(line) => Fault::LeavesProvisioner(line_after(lines, line)),
            Fault::ProvisionerRuns(line) => Fault::ProvisionerRuns(line_after(lines, line)),
            fault => fault,
        }
    }

    /// The text of the fault, up to the line or member that it names.
    fn text(self) -> &'static str {
        match self {
            Fault::TooLong => "is longer than 67108864 bytes",
            Fault::NotJson | Fault::NoType => "is not a message",
            Fault::Malformed(..) => "is malformed: ",
            Fault::NoVersion => "comes before the version",
            Fault::VersionAgain(_) => "repeats the version of line ",
            Fault::AfterSummary(_) => "comes after the summary of line ",
            Fault::PlanAgain(_) => "repeats the summary of a plan of line ",
            Fault::OutputsAlone => "has outputs that follow no summary",
            Fault::StartsAgain(_) => "starts again what line ",
            Fault::TooMany(_) => "is one of more than 10000 that overlap since line ",
            Fault::NotPlanned => "begins one more than was planned",
            Fault::NotOpen => "tells of a step that is not open",
            Fault::NotLater(_) => "tells of seconds that do not rise since line ",
            Fault::LeavesProvisioner(_) => "ends what the provisioner of line ",
            Fault::NoStep => "tells of a provisioner outside of a create or a delete",
            Fault::ProvisionerRuns(_) => "starts a provisioner while that of line ",
            Fault::NoProvisioner => "tells of a provisioner that does not run",
            Fault::Unended => "comes before all has ended and each failure is explained",
            Fault::Planned => "is the last, and a planned create never began",
            Fault::WrongTotals(..) | Fault::WrongPlanTotals(..) => "has totals that do not agree",
            Fault::NoEnd => "is the last, and no summary came",
            Fault::NoApply =>
                "is the last, and no summary of an apply came (--plan takes a plan's stream)",
            Fault::NoMessage(0) => "there is no line",
            Fault::NoMessage(1) => "the one line is no message",
            Fault::NoMessage(_) => "none of the ",
            Fault::Memory => "out of memory",
        }
    }

    /// The text of the fault after the line that it names.
    fn text_after_line(self) -> &'static str {
        match self {
            Fault::StartsAgain(_) => " started",
            Fault::LeavesProvisioner(_) => " runs in",
            Fault::ProvisionerRuns(_) => " runs",
            _ => "",
        }
    }
}

/// The number of a line in an input with so many lines before the stream.
pub fn line_after(lines: u64, line: u64) -> u64
    ensures { result ≡ line_after lines line }
{
    lines.saturating_add(line)
}

// A derived implementation would be proved with one return for each text.
impl fmt::Display for Fault {
    fn fmt<W: fmt::Write>(&self, f: &mut fmt::Formatter<W>) -> fmt::Result {
        f.write_str(self.text())?;
        match *self {
            Fault::Malformed(path, member_fault) => write!(f, "{path} {member_fault}"),
            Fault::NoMessage(lines) => if lines > 1 {
                write!(f, "{lines} lines is a message")
            } else {
                Ok(())
            },
            _ => match self.other() {
                Some(line) => write!(f, "{line}{}", self.text_after_line()),
                None => Ok(()),
            },
        }
    }
}

impl fmt::Debug for Fault {
    fn fmt<W: fmt::Write>(&self, f: &mut fmt::Formatter<W>) -> fmt::Result {
        write!(f, "{self}")
    }
}

impl Error for Fault {}

impl From<AllocError> for Fault {
    ghost from_gives = { λ _ fault. fault ≡ Memory };

    fn from(_refused: AllocError) -> Fault {
        Fault::Memory
    }
}

impl<T: Drop> From<AllocFailed<T>> for Fault {
    ghost from_gives = { λ _ fault. fault ≡ Memory };

    fn from(_refused: AllocFailed<T>) -> Fault {
        Fault::Memory
    }
}
