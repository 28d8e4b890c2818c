//! The version of Terraform.

ghost use Rattle.std.specs.Prelude.{◌≡◌, IfOk, ℕ, List, string_bytes};

use std::alloc::{AllocError, Global};
use std::marker::Model;

/// The version of Terraform that a stream states. Contracts see its text.
#[derive(Drop)]
pub struct Version {
    text: String,
}

impl Model for Version {
    ghost use Rattle.std.specs.Prelude.{ℕ, List, string_bytes};

    ghost Value = { List ℕ };

    ghost view = { λ version. string_bytes version.text };
}

impl Version {
    /// Copies the version. `Err` means that memory was refused.
    pub(crate) fn new(alloc: Global, text: &str) -> Result<Version, AllocError>
        ensures { IfOk result (λ version. version ≡ text.now) }
    {
        Ok(Version {
            text: String::from_str(alloc, text)?,
        })
    }

    /// The version as text.
    pub fn as_str(&self) -> &str
        ensures { result.now ≡ self.now }
    {
        self.text.as_str()
    }
}
