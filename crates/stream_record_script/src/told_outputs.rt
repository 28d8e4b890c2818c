//! The outputs that a run tells without a script.

ghost use Rattle.std.specs.Prelude.{◌≡◌, IfOk};

use apply_model::Output;
use std::alloc::{AllocError, Global};
use std::collections::HashMap;
use std::marker::Model;

/// The outputs that a run tells without a script, to be found by their names. Contracts see a list.
#[derive(Drop)]
pub struct ToldOutputs<'a> {
    outputs: &'a [Output],
    /// The first output with each name.
    by_name: HashMap<&'a str, &'a Output>,
}

impl<'a> Model for ToldOutputs<'a> {
    ghost use Rattle.std.specs.Prelude.{List};
    ghost use Rattle.apply_model.specs.declared.details.output.Output.{Output};
    ghost use Rattle.stream_record_script.specs.ByName.{AreByName};

    ghost Value = { List Output };

    ghost view = { λ it. it.outputs.now };

    ghost invariant = { λ it. AreByName it.by_name it.outputs.now };
}

impl<'a> ToldOutputs<'a> {
    ghost use Rattle.std.specs.Option.{option_copied};
    ghost use Rattle.stream_record_script.specs.Outputs.{output_named};

    /// These outputs. `Err` where memory is refused.
    pub fn new(alloc: Global, outputs: &'a [Output]) -> Result<ToldOutputs<'a>, AllocError>
        ensures { IfOk result (λ told. told ≡ outputs.now) }
    {
        let mut by_name = HashMap::new(alloc);
        // From the last output to the first, so that a name of several outputs gets the first.
        for number in (0..outputs.len()).rev() {
            let output = &outputs[number];
            by_name.insert(output.name.as_str(), output)?;
        }
        Ok(ToldOutputs { outputs, by_name })
    }

    /// The first output of that name.
    pub fn named(&self, name: &str) -> Option<&'a Output>
        ensures { option_copied result ≡ output_named self.now name.now }
    {
        self.by_name.get(name).copied()
    }
}
