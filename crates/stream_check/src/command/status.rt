//! The exit statuses of `check`.

ghost use Rattle.std.specs.Prelude.{◌≡◌};
ghost use Rattle.stream_check.specs.Reports.{fault_status_of, status_of};

use crate::command::unreported::Unreported;
use crate::verdict::read_fault::ReadFault;
use crate::verdict::whole::Whole;
use stream_tool::{FAILED, REFUSED};

/// The stream is whole, and reports an error.
const ERRORS: u8 = 1;

/// The stream is not whole.
const NOT_WHOLE: u8 = 4;

/// Returns the exit status of a verdict that was reported, or was not.
pub fn exit_status(answer: Result<Whole, ReadFault>, reported: Result<(), Unreported>) -> u8
    ensures { result ≡ status_of answer reported }
{
    let Ok(()) = reported else {
        return FAILED;
    };
    match answer {
        Ok(whole) => if whole.has_errors { ERRORS } else { 0 },
        Err(fault) => fault_status(fault),
    }
}

/// Returns the exit status where there is no verdict, or the stream is not whole.
fn fault_status(fault: ReadFault) -> u8
    ensures { result ≡ fault_status_of fault }
{
    match fault {
        ReadFault::Found(_) => NOT_WHOLE,
        ReadFault::TooMany | ReadFault::NoRun(_) | ReadFault::Unread(_) | ReadFault::Uncreated(_) =>
            REFUSED,
        ReadFault::Unwritten | ReadFault::Memory => FAILED,
    }
}
