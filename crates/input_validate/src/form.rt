//! The form of the stream that a run writes.

/// The form of the stream that a run writes. It decides which members of a script the run reads.
#[derive(Clone, Copy, Debug, PartialEq, Eq)]
pub enum Form {
    /// This program's own form.
    Applystream,
    /// Terraform's form, of an apply of a saved plan: the run also reads `outputs` and
    /// `diagnostics` at the top of the script.
    Terraform,
    /// Terraform's form, of the command `plan`: the run also reads `outputs`, `diagnostics` and
    /// `planning` at the top of the script. It prints no values of outputs.
    TerraformPlan,
    /// Terraform's form, of the commands `apply` and `destroy` without a saved plan: the run also
    /// reads `outputs`, `diagnostics` and `planning` at the top of the script.
    TerraformApply,
}
