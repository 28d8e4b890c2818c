//! Files that can't be opened or read.

use std::{fmt, io};

/// A message about a file that could not be opened or read.
#[derive(Clone, Copy)]
pub struct FileFault<'a> {
    /// What the file is: `file` or `script file`.
    pub what: &'a str,
    /// The name of the file, with control characters escaped.
    pub name: &'a str,
    /// What could not be done, as a participle: `opened` or `read`.
    pub done: &'a str,
    /// The error of the system, where there is one.
    pub error: Option<&'a io::Error>,
}

impl fmt::Display for FileFault<'_> {
    fn fmt<W: fmt::Write>(&self, f: &mut fmt::Formatter<W>) -> fmt::Result {
        let what = self.what;
        let name = self.name;
        let done = self.done;
        match self.error {
            Some(error) => write!(f, "the {what} {name} could not be {done}: {error}"),
            None => write!(f, "the {what} {name} could not be {done}"),
        }
    }
}
