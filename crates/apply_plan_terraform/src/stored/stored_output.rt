//! Outputs as they are stored.

ghost use Rattle.std.specs.Prelude.{◌≡◌, codes, option_map, string_bytes, IfOk};
ghost use Rattle.std.specs.Option.{option_copied};
ghost use Rattle.serde_json.specs.Data.{object};
ghost use Rattle.apply_plan_terraform.specs.StoredOutputs.{flag_text, members_of_output, view};
ghost use Rattle.apply_plan_terraform.specs.Outputs as outputs;

use crate::stored::output_members::OutputMembers;
use crate::stored::sensitivity::Sensitivity;
use std::alloc::{AllocError, Global};

/// A stored output. A plan may have very many, so the usual layout is small.
#[derive(Debug, Drop)]
pub enum StoredOutput {
    /// The usual layout.
    Usual(UsualOutput),
    /// Any other object: its three members.
    Object(Box<OutputMembers>),
    /// Any other value: its JSON text.
    Other(String),
}

/// An output as plans and scripts usually have it: an object with a boolean, a type and a value.
#[derive(Debug, Drop)]
pub struct UsualOutput {
    /// Whether `sensitive` is `true`. Else it is `false`.
    pub is_sensitive: bool,
    /// `type`, as JSON text.
    pub kind: String,
    /// `value`, as JSON text.
    pub value: String,
}

impl StoredOutput {
    /// Stores an object with these members, in the smallest layout. `Err` when memory is refused.
    pub fn of(alloc: Global, members: OutputMembers) -> Result<StoredOutput, AllocError>
        ensures { IfOk result (λ stored. view stored ≡ object (members_of_output members)) }
    {
        let flag = members.sensitive.flag();
        let OutputMembers {
            sensitive,
            kind,
            value,
        } = members;
        let Some(is_sensitive) = flag else {
            return boxed(alloc, sensitive, kind, value);
        };
        match kind {
            Some(kind) => match value {
                Some(value) => Ok(StoredOutput::Usual(UsualOutput {
                    is_sensitive,
                    kind,
                    value,
                })),
                None => boxed(alloc, sensitive, Some(kind), None),
            },
            None => boxed(alloc, sensitive, None, value),
        }
    }

    /// The member `sensitive`, as JSON text.
    pub fn sensitive(&self) -> Option<&str>
        ensures { option_copied result ≡ outputs.text_at (codes "sensitive") (view self.now) }
    {
        match self {
            StoredOutput::Usual(output) => Some(flag_text(output.is_sensitive)),
            StoredOutput::Object(members) => members.sensitive.text(),
            StoredOutput::Other(_) => None,
        }
    }

    /// The member `type`, as JSON text.
    pub fn kind(&self) -> Option<&str>
        ensures { option_copied result ≡ outputs.text_at (codes "type") (view self.now) }
    {
        match self {
            StoredOutput::Usual(output) => Some(output.kind.as_str()),
            StoredOutput::Object(members) => text_of(&members.kind),
            StoredOutput::Other(_) => None,
        }
    }

    /// The member `value`, as JSON text.
    pub fn value(&self) -> Option<&str>
        ensures { option_copied result ≡ outputs.text_at (codes "value") (view self.now) }
    {
        match self {
            StoredOutput::Usual(output) => Some(output.value.as_str()),
            StoredOutput::Object(members) => text_of(&members.value),
            StoredOutput::Other(_) => None,
        }
    }
}

/// Stores an object in the layout for any members. `Err` when memory is refused.
fn boxed(
    alloc: Global,
    sensitive: Sensitivity,
    kind: Option<String>,
    value: Option<String>,
) -> Result<StoredOutput, AllocError>
    ensures { IfOk result (λ stored. view stored
        ≡ object (members_of_output (record { sensitive = sensitive; kind = kind; value = value }))) }
{
    let members = OutputMembers {
        sensitive,
        kind,
        value,
    };
    Ok(StoredOutput::Object(Box::new(alloc, members)?))
}

/// The JSON text of a boolean.
fn flag_text(flag: bool) -> &'static str
    ensures { result.now ≡ flag_text flag }
{
    if flag { "true" } else { "false" }
}

/// Borrows an optional text.
fn text_of(stored: &Option<String>) -> Option<&str>
    ensures { option_copied result ≡ option_map string_bytes stored.now }
{
    match stored {
        Some(text) => Some(text.as_str()),
        None => None,
    }
}
