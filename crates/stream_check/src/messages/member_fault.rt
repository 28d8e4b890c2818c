//! What is wrong with a member of a message.

use std::fmt;

/// What is wrong with a member of a message.
#[derive(Clone, Copy, PartialEq, Eq)]
pub enum MemberFault {
    /// The member is missing, or the object that should hold it is.
    Missing,
    /// The member is present, also as `null`, and no object.
    NoObject,
    /// The member is present, and no text.
    NoText,
    /// The member is present, and no whole number from 0 to 2^64 - 1.
    NoWholeNumber,
}

impl fmt::Display for MemberFault {
    fn fmt<W: fmt::Write>(&self, f: &mut fmt::Formatter<W>) -> fmt::Result {
        f.write_str(match self {
            MemberFault::Missing => "is missing",
            MemberFault::NoObject => "is no object",
            MemberFault::NoText => "is no text",
            MemberFault::NoWholeNumber => "is no whole number",
        })
    }
}
