//! The part of a script that an error names.

use std::fmt;

/// The part of a script that an error names, by its number, counted from 0.
#[derive(Clone, Copy, Drop)]
pub enum Named {
    /// The script as a whole, or no part of it.
    Nothing,
    Entry(u32),
    Output(usize),
    Diagnostic(usize),
    /// An item of `planning`.
    Planned(usize),
}

impl fmt::Display for Named {
    fn fmt<W: fmt::Write>(&self, f: &mut fmt::Formatter<W>) -> fmt::Result {
        match *self {
            Named::Nothing => Ok(()),
            Named::Entry(number) => write!(f, "script entry {number}"),
            Named::Output(number) => write!(f, "script output {number}"),
            Named::Diagnostic(number) => write!(f, "script diagnostic {number}"),
            Named::Planned(number) => write!(f, "script planning {number}"),
        }
    }
}
