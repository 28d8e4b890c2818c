//! Reads the plan and the graph.

ghost use Rattle.std.specs.Prelude.{◌≡◌, IfOk, false, option_map, string_bytes};
ghost use Rattle.std.specs.Option.{option_copied};
ghost use Rattle.input_files.specs.Inputs.{IsInputOf};
ghost use Rattle.stream_record_cli.specs.Inputs.{IsGraphOf, is_dash, is_dash_or_none, left_by};

use crate::command::settings::Settings;
use input_files::{InputFault, ReadInput, read_named};
use std::alloc::Global;
use std::io::Read;
use std::rt::Files;

/// The plan, and the graph where the settings name one.
#[derive(Drop)]
pub struct Inputs {
    pub plan: ReadInput,
    pub graph: Option<ReadInput>,
}

impl Inputs {
    /// Returns the stored bytes of the graph.
    pub fn graph_bytes(&self) -> Option<&[u8]>
        ensures { option_copied result ≡ option_map (λ read. read.bytes.items) self.now.graph }
    {
        match &self.graph {
            Some(read) => Some(read.bytes.as_slice()),
            None => None,
        }
    }
}

/// An input that was not read.
#[derive(Clone, Copy)]
pub struct UnreadInput {
    /// Whether it is the graph, and not the plan.
    pub is_graph: bool,
    pub fault: InputFault,
}

/// Reads the plan and the graph. Both are read even if one of them fails, so that standard input is
/// read to its end. `Err` is the plan if it was not read, else the graph.
pub fn read_inputs<F: Files, R: Read>(
    files: &F,
    alloc: Global,
    settings: &Settings,
    input: &mut R,
) -> Result<Inputs, UnreadInput>
    ensures plan { IfOk result (λ inputs. IsInputOf F.File.remaining (R.remaining input.old) (string_bytes settings.now.plan) inputs.plan.bytes.items) }
    ensures graph { IfOk result (λ inputs. IsGraphOf F.File.remaining (left_by (string_bytes settings.now.plan) (R.remaining input.old))
        (option_map string_bytes settings.now.graph) (option_map (λ read. read.bytes.items) inputs.graph)) }
    ensures kept { is_dash (string_bytes settings.now.plan) ≡ false → is_dash_or_none (option_map string_bytes settings.now.graph) ≡ false
        → R.remaining input.new ≡ R.remaining input.old }
{
    let plan = read_named(files, alloc, settings.plan.as_str(), input);
    let graph = read_graph_input(files, alloc, settings.graph_name(), input);
    match plan {
        Ok(plan) => match graph {
            Ok(graph) => Ok(Inputs { plan, graph }),
            Err(fault) => Err(UnreadInput {
                is_graph: true,
                fault,
            }),
        },
        Err(fault) => Err(UnreadInput {
            is_graph: false,
            fault,
        }),
    }
}

/// Reads the graph of that name, where there is one. `Err` is as in `read_named`.
fn read_graph_input<F: Files, R: Read>(
    files: &F,
    alloc: Global,
    name: Option<&str>,
    input: &mut R,
) -> Result<Option<ReadInput>, InputFault>
    ensures read { IfOk result (λ graph. IsGraphOf F.File.remaining (R.remaining input.old)
        (option_copied name.entry) (option_map (λ read. read.bytes.items) graph)) }
    ensures kept { is_dash_or_none (option_copied name.entry) ≡ false → R.remaining input.new ≡ R.remaining input.old }
{
    match name {
        Some(name) => match read_named(files, alloc, name, input) {
            Ok(graph) => Ok(Some(graph)),
            Err(fault) => Err(fault),
        },
        None => Ok(None),
    }
}
