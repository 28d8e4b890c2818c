//! Searches the steps that a step reaches in a graph, through steps that were not done before it.

ghost use Rattle.std.specs.Prelude.{◌≡◌, ◌+◌, ◌<◌, ◌≤◌, [], All, IfOk, OnOk, length, ℕ};
ghost use Rattle.std.specs.List.{Contains};
ghost use Rattle.stream_record_waits.specs.Graph.{AreWaitsOf, Reaches, passed_on, waits_at};
ghost use Rattle.stream_record_waits.specs.Steps.{lists_in};

use crate::step_of_plan::StepOfPlan;
use crate::steps::{is_done_before, step_before};
use std::alloc::{AllocError, Global};

/// The steps that a search found, each once.
#[derive(Drop)]
pub struct Reached {
    /// The number of the search, from 1.
    search: usize,
    /// For each step the number of the last search that found it, or 0.
    found_by: Vec<usize>,
    /// The steps that this search found, in the order in which it found them.
    pub steps: Vec<usize>,
}

impl Reached {
    ghost use Rattle.stream_record_waits.specs.Reached.{IsLatest, IsMarked, size_of, with_all, with_step};

    /// No step is found yet, of so many. `Err` where memory is refused.
    pub(crate) fn new(alloc: Global, count: usize) -> Result<Reached, AllocError>
        ensures latest { IfOk result IsLatest }
        ensures size { IfOk result (λ reached. size_of reached ≡ count) }
        ensures first { IfOk result (λ reached. reached.search ≡ 0) }
    {
        Ok(Reached {
            search: 0,
            found_by: vec![in alloc; 0; count]?,
            steps: Vec::new(alloc),
        })
    }

    /// Begins the search of that number.
    fn restart(&mut self, search: usize)
        requires latest { IsLatest self.old }
        requires later { self.old.search < search }
        ensures marked { IsMarked self.new }
        ensures size { size_of self.new ≡ size_of self.old }
        ensures search { self.new.search ≡ search }
        ensures none { self.new.steps.items ≡ [] }
    {
        self.search = search;
        self.steps.clear();
    }

    /// Adds a step, unless it is there.
    fn add(&mut self, step: usize) -> Result<(), AllocError>
        requires marked { IsMarked self.old }
        requires known { step < size_of self.old }
        ensures marked { OnOk result (IsMarked self.new) }
        ensures size { OnOk result (size_of self.new ≡ size_of self.old) }
        ensures search { OnOk result (self.new.search ≡ self.old.search) }
        ensures steps { OnOk result (self.new.steps.items ≡ with_step self.old.steps.items step) }
    {
        if self.found_by[step] != self.search {
            self.steps.push(step)?;
            self.found_by[step] = self.search;
        }
        Ok(())
    }

    /// Adds steps that are not there.
    fn add_all(&mut self, steps: &[usize]) -> Result<(), AllocError>
        requires marked { IsMarked self.old }
        requires known { All (λ step. step < size_of self.old) steps.now }
        ensures marked { OnOk result (IsMarked self.new) }
        ensures size { OnOk result (size_of self.new ≡ size_of self.old) }
        ensures search { OnOk result (self.new.search ≡ self.old.search) }
        ensures steps { OnOk result (self.new.steps.items ≡ with_all self.old.steps.items steps.now) }
    {
        for step in steps {
            self.add(*step)?;
        }
        Ok(())
    }

    /// Adds what a step passes on.
    fn add_passed_on(
        &mut self,
        steps: &[StepOfPlan],
        graph: &[Vec<usize>],
        step: usize,
    ) -> Result<(), AllocError>
        requires marked { IsMarked self.old }
        requires size { size_of self.old ≡ length steps.now }
        requires known { AreWaitsOf (length steps.now) (lists_in graph.now) }
        requires step { step < length steps.now }
        ensures marked { OnOk result (IsMarked self.new) }
        ensures size { OnOk result (size_of self.new ≡ size_of self.old) }
        ensures search { OnOk result (self.new.search ≡ self.old.search) }
        ensures steps { OnOk result (self.new.steps.items ≡ with_all self.old.steps.items (passed_on steps.now (lists_in graph.now) step)) }
    {
        self.add_all(graph[step].as_slice())?;
        match step_before(steps, step) {
            Some(before) => self.add(before),
            None => Ok(()),
        }
    }

    /// Finds the steps that a step reaches, by the line of its start. `Err` where memory is
    /// refused.
    pub(crate) fn search(
        &mut self,
        steps: &[StepOfPlan],
        graph: &[Vec<usize>],
        step: usize,
        line: u64,
    ) -> Result<(), AllocError>
        requires latest { IsLatest self.old }
        requires size { size_of self.old ≡ length steps.now }
        requires known { AreWaitsOf (length steps.now) (lists_in graph.now) }
        requires step { step < length steps.now }
        requires search { self.old.search ≤ step }
        ensures latest { OnOk result (IsLatest self.new) }
        ensures size { OnOk result (size_of self.new ≡ size_of self.old) }
        ensures search { OnOk result (self.new.search ≡ step + 1) }
        ensures known { OnOk result (All (λ other. other < length steps.now) self.new.steps.items) }
        ensures sound { OnOk result (All (Reaches steps.now (lists_in graph.now) step line) self.new.steps.items) }
        ensures complete { OnOk result ((other : ℕ) → Reaches steps.now (lists_in graph.now) step line other → Contains self.new.steps.items other) }
    {
        self.restart(step + 1);
        self.add_all(graph[step].as_slice())?;
        'found: for place in 0..usize::MAX {
            if place >= self.steps.len() {
                return Ok(());
            }
            let found = self.steps[place];
            if !is_done_before(steps, found, line) {
                self.add_passed_on(steps, graph, found)?;
            }
        }
        // No list has that many steps.
        let _len = self.steps.len();
        Ok(())
    }
}
