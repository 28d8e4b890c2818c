//! One finding.

use crate::findings::path::Path;
use crate::findings::problem::Problem;

/// One error or warning, with its place.
#[derive(Debug, Drop)]
pub struct Finding {
    /// The path from the top level of the plan or of the script.
    pub path: Path,
    /// What is wrong at that place.
    pub problem: Problem,
}
