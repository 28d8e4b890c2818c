//! The outcome of one test.

use crate::findings::name::Name;
use crate::findings::problem::Problem;

/// What one test of a value tells.
#[derive(Clone, Copy, Debug)]
pub struct Violation {
    /// Whether the value breaks the rule.
    pub holds: bool,
    /// The member that the error is reported at. `None` is the value itself.
    pub at: Option<Name>,
    /// What is wrong if the rule is broken.
    pub problem: Problem,
}
