//! The settings of the command line.

use crate::halt::Halt;
use apply_model::Text;
use apply_text::{Operation, Start};

/// The settings of the command line, without `--parallelism`, `--form`, `--command` and
/// `--refresh`.
#[derive(Debug, Drop)]
pub struct Settings {
    /// When the first steps start.
    pub at: Start,
    /// The name of the script's file, if one is given.
    pub script: Option<Text>,
    /// The number of workers, 1 to 8.
    pub workers: u8,
    /// How many events may wait to be written, 1 to 1,024.
    pub queue: u16,
    /// What the apply is for: the summary names it.
    pub operation: Operation,
    /// The halts, at most 32, in the order in which their hooks are asked.
    pub halts: Vec<Halt>,
}
