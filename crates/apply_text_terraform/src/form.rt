//! The form of a stream.

/// The form of a stream: which messages it has, and in which order members stand.
#[derive(Clone, Copy, Debug, PartialEq, Eq)]
pub enum Form {
    /// The default form. Members stand in the order of their names, and every stream ends with a
    /// summary.
    Applystream,
    /// What Terraform 1.11 prints for `terraform apply -json` of a saved plan.
    Terraform,
}
