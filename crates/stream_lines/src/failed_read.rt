//! Failed reads.

use std::io;

/// A read that failed. Only this crate can make the value, so it proves that some read failed. It
/// does not say which reader failed.
#[derive(Clone, Copy, Debug, PartialEq, Eq)]
pub struct FailedRead {
    number: Option<i32>,
}

impl FailedRead {
    /// The read failed with that error.
    pub(crate) fn of(error: &io::Error) -> FailedRead {
        FailedRead {
            number: error.raw_os_error(),
        }
    }

    /// The greatest number of reads was used up.
    pub(crate) fn for_tries() -> FailedRead {
        FailedRead { number: None }
    }

    /// The system's number of the error, where the error has one.
    pub fn number(self) -> Option<i32> {
        self.number
    }
}
