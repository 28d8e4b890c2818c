//! The two sections of a plan or a script that hold outputs and diagnostics.

ghost use Rattle.std.specs.Prelude.{◌≡◌, None, Some};

use crate::stored::stored_output::StoredOutput;
use serde_json::Value;

/// The value of a member `outputs`.
#[derive(Debug, Drop)]
pub enum OutputsValue {
    /// An object: the outputs with their names, in its order.
    Object(Vec<(String, StoredOutput)>),
    /// Any other value, as JSON text.
    Other(String),
}

/// The two sections of a plan, of a part of a plan, or of a script.
#[derive(Debug, Drop)]
pub struct Sections {
    /// The value of `outputs`. `None` when there is none.
    pub outputs: Option<OutputsValue>,
    /// The other section: `output_changes` of a plan, or `diagnostics` of a script.
    pub companion: Option<Value>,
}

impl Sections {
    /// Neither section.
    pub fn nothing() -> Sections
        ensures { (result.outputs ≡ None) × (result.companion ≡ None) }
    {
        Sections {
            outputs: None,
            companion: None,
        }
    }

    /// Replaces the outputs by those of an inner part. An inner part without outputs removes them.
    pub fn set_outputs(&mut self, inner: Sections)
        ensures { (self.new.outputs ≡ inner.outputs) × (self.new.companion ≡ self.old.companion) }
    {
        let Sections { outputs, .. } = inner;
        self.outputs = outputs;
    }

    /// Replaces the other section.
    pub fn set_companion(&mut self, companion: Value)
        ensures { (self.new.outputs ≡ self.old.outputs) × (self.new.companion ≡ Some companion) }
    {
        self.companion = Some(companion);
    }
}
