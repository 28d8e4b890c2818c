//! The report of a run in a chosen form.

use apply_writer::Report;

/// What a run has done, and whether its stream reports an error.
#[derive(Clone, Copy, Debug, PartialEq, Eq)]
pub struct FormReport {
    /// The report of the run.
    pub run: Report,
    /// Whether the stream reports an error: a step failed or was halted. In Terraform's form, also
    /// if a diagnostic of no step is an error, from the script or from a plan that ended with one.
    pub contains_error: bool,
}
