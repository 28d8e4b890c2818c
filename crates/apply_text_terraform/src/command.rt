//! The commands of Terraform whose streams can be written.

/// A command of Terraform whose stream is written, in Terraform's form.
#[derive(Clone, Copy, Debug, PartialEq, Eq)]
pub enum Command {
    /// `terraform apply` of a plan that was saved before.
    Saved,
    /// `terraform plan`.
    Plan,
    /// `terraform apply`, which makes its plan itself.
    Apply,
    /// `terraform destroy`, which makes its plan itself.
    Destroy,
}
