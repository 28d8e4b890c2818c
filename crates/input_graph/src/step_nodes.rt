//! Finds the steps of a plan among the nodes of its graph.

ghost use Rattle.std.specs.Prelude.{◌≡◌, IfOk};

use crate::current_delete::current_delete;
use crate::step_node::StepNode;
use std::alloc::{AllocError, Global};
use std::collections::HashMap;
use std::marker::Model;

/// The steps of a plan, by the names of their nodes. Contracts see these names, in the order of
/// the steps.
#[derive(Drop)]
pub struct StepNodes<'a> {
    steps: &'a [StepNode],
    /// The number of the first step with each name.
    numbers: HashMap<&'a str, usize>,
}

impl<'a> Model for StepNodes<'a> {
    ghost use Rattle.std.specs.Prelude.{List, ℕ};
    ghost use Rattle.input_graph.specs.Numbers.{AreNumbers};
    ghost use Rattle.input_graph.specs.StepNodes.{names_of};

    ghost Value = { List (List ℕ) };

    ghost view = { λ nodes. names_of nodes.steps.now };

    ghost invariant = { λ nodes. AreNumbers nodes.numbers (names_of nodes.steps.now) };
}

impl<'a> StepNodes<'a> {
    ghost use Rattle.input_graph.specs.StepNodes.{is_step, known_name, names_of, step_named, step_or};
    ghost use Rattle.std.specs.Prelude.{◌<◌, IfSome, Some, length, slice_get};

    /// The steps, to be found by the names of their nodes. `Err` where memory is refused.
    pub fn new(alloc: Global, steps: &'a [StepNode]) -> Result<StepNodes<'a>, AllocError>
        ensures { IfOk result (λ nodes. nodes ≡ names_of steps.now) }
    {
        let mut numbers = HashMap::new(alloc);
        // From the last step to the first, so that a name of several steps gets the first.
        for number in (0..steps.len()).rev() {
            numbers.insert(steps[number].name.as_str(), number)?;
        }
        Ok(StepNodes { steps, numbers })
    }

    /// The number of steps.
    pub fn len(&self) -> usize
        ensures { result ≡ length self.now }
    {
        self.steps.len()
    }

    /// The name of the node of a step.
    pub fn name(&self, step: usize) -> &'a str
        requires { step < length self.now }
        ensures { slice_get self.now step ≡ Some result.now }
    {
        self.steps.get(step).unwrap().name.as_str()
    }

    /// The number of the first step whose node has that name.
    pub fn number(&self, name: &str) -> Option<usize>
        ensures value { result ≡ step_named self.now name.now }
        ensures step { IfSome result (λ number. slice_get self.now number ≡ Some name.now) }
        ensures within { IfSome result (λ number. number < length self.now) }
    {
        let number = self.found(name);
        number
    }

    /// What the map has at that name.
    fn found(&self, name: &str) -> Option<usize>
        ensures { result ≡ step_named self.now name.now }
    {
        self.numbers.get(name).copied()
    }

    /// Whether a step has that node.
    pub fn is_step(&self, name: &str) -> bool
        ensures { result ≡ is_step self.now name.now }
    {
        self.number(name).is_some()
    }

    /// The name under which the steps know a node. `Err` where memory is refused.
    pub fn known_name(&self, alloc: Global, name: &'a str) -> Result<&'a str, AllocError>
        ensures { IfOk result (λ known. known.now ≡ known_name self.now name.entry.now) }
    {
        if self.is_step(name) {
            return Ok(name);
        }
        let Some(current) = current_delete(alloc, name)? else {
            return Ok(name);
        };
        Ok(self.step_or(name, current.as_str()))
    }

    /// The second name if a step has that node, and else the first.
    fn step_or(&self, name: &'a str, other: &str) -> &'a str
        ensures { result.now ≡ step_or self.now name.entry.now (Some other.now) }
    {
        match self.number(other) {
            Some(number) => self.name(number),
            None => name,
        }
    }
}
