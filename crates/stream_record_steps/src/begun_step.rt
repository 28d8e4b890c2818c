//! A step of the plan that began.

use crate::step_facts::StepFacts;
use apply_model::{StepKind, Text};

/// A step of the plan that began in the stream.
#[derive(Debug, Drop)]
pub struct BegunStep {
    pub kind: StepKind,
    /// The line of its start.
    pub line: u64,
    /// The second of its start.
    pub second: i64,
    /// The line of the last message about a step that came before its start.
    pub previous: Option<u64>,
    /// What lines state of the step, until it ended.
    pub facts: StepFacts,
    /// `None` if the stream has no end of the step.
    pub end: Option<StepEnd>,
}

/// The end of a step.
#[derive(Debug, Drop)]
pub struct StepEnd {
    pub line: u64,
    /// How many seconds the step took, as the line states them.
    pub seconds: u64,
    pub result: EndResult,
}

/// How a step ended.
#[derive(Debug, Drop)]
pub enum EndResult {
    /// `apply_complete`.
    Completed {
        /// The member of the object that is its id (`id_key`).
        id_key: Option<Text>,
        /// The id of the object (`id_value`).
        id: Option<Text>,
    },
    /// `apply_errored`.
    Failed,
}
