//! The steps that are open.

ghost use Rattle.std.specs.Prelude.{◌≡◌, ◌∷◌, ◌++◌, [], filter, find, map, None, not, OnOk, option_map, position, Some, take};
ghost use Rattle.std.specs.Option.{option_copied};
ghost use Rattle.stream_watch.specs.Steps.{begin_of_first, begin_of_running, changes, changes_in, has_role, is_step, last_place, new_running, new_step, reads_at, runs_at, step_view, steps_of, with_provisioner, without_first};

use crate::counts::is_change;
use std::alloc::{AllocError, Global};

/// The action of a refresh.
pub const REFRESH: &str = "refresh";

/// A provisioner that runs.
#[derive(Drop)]
pub struct Provisioner {
    pub name: String,
    /// The moment of its begin.
    pub begin: i64,
}

/// A step from its begin to its end.
#[derive(Drop)]
pub struct OpenStep {
    pub address: String,
    /// The action, and `refresh` for a refresh.
    pub action: String,
    /// The type of the resource.
    pub kind: String,
    pub is_refresh: bool,
    /// The moment of its begin.
    pub begin: i64,
    /// The provisioner that runs in it.
    pub provisioner: Option<Provisioner>,
}

impl OpenStep {
    /// Whether the step is this one.
    fn is(&self, address: &str, action: &str, is_refresh: bool) -> bool
        ensures { result ≡ is_step address.now action.now is_refresh (step_view self.now) }
    {
        self.address.as_str() == address
            && self.action.as_str() == action
            && self.has_role(is_refresh)
    }

    /// Whether the step is a refresh, or is none.
    fn has_role(&self, is_refresh: bool) -> bool
        ensures { result ≡ has_role is_refresh (step_view self.now) }
    {
        if is_refresh {
            self.is_refresh
        } else {
            !self.is_refresh
        }
    }

    /// Whether a provisioner at this address runs in the step.
    fn runs_at(&self, address: &str) -> bool
        ensures { result ≡ runs_at address.now (step_view self.now) }
    {
        self.address.as_str() == address && !self.is_refresh
    }

    /// Whether the step reads at this address.
    fn reads_at(&self, address: &str) -> bool
        ensures { result ≡ reads_at address.now (step_view self.now) }
    {
        self.address.as_str() == address && self.action.as_str() == "read" && !self.is_refresh
    }

    /// Whether the step creates, updates or deletes.
    fn is_change(&self) -> bool
        ensures { result ≡ changes (step_view self.now) }
    {
        !self.is_refresh && is_change(self.action.as_str())
    }
}

/// The open steps, in the order of the lines that began them.
#[derive(Drop)]
pub struct OpenSteps {
    pub list: Vec<OpenStep>,
}

impl OpenSteps {
    /// No steps.
    pub fn new(alloc: Global) -> OpenSteps
        ensures { steps_of result ≡ [] }
    {
        OpenSteps {
            list: Vec::new(alloc),
        }
    }

    /// Adds a step. `Err` where memory is refused.
    pub fn begin(
        &mut self,
        alloc: Global,
        address: &str,
        action: &str,
        kind: &str,
        is_refresh: bool,
        moment: i64,
    ) -> Result<(), AllocError>
        ensures { OnOk result (steps_of self.new
            ≡ steps_of self.old ++ new_step address.now action.now kind.now is_refresh moment ∷ []) }
    {
        let step = OpenStep {
            address: String::from_str(alloc, address)?,
            action: String::from_str(alloc, action)?,
            kind: String::from_str(alloc, kind)?,
            is_refresh,
            begin: moment,
            provisioner: None,
        };
        self.list.push(step)?;
        Ok(())
    }

    /// Returns the step that began first of those with this address and action.
    pub fn open(&self, address: &str, action: &str, is_refresh: bool) -> Option<&OpenStep>
        ensures { option_map step_view (option_copied result)
            ≡ find (is_step address.now action.now is_refresh) (steps_of self.now) }
    {
        let index = self.first(address, action, is_refresh)?;
        Some(&self.list[index])
    }

    /// Removes the step that began first of those with this address and action. Returns the moment
    /// of its begin, or `None` where there is none.
    pub fn end(&mut self, address: &str, action: &str, is_refresh: bool) -> Option<i64>
        ensures begin { result
            ≡ begin_of_first (is_step address.now action.now is_refresh) (steps_of self.old) }
        ensures steps { steps_of self.new
            ≡ without_first (is_step address.now action.now is_refresh) (steps_of self.old) }
    {
        let index = self.first(address, action, is_refresh)?;
        let step = self.list.remove(index);
        Some(step.begin)
    }

    /// Returns the place of the first step with this address and action.
    fn first(&self, address: &str, action: &str, is_refresh: bool) -> Option<usize>
        ensures { result
            ≡ position (is_step address.now action.now is_refresh) (steps_of self.now) }
    {
        self.list
            .iter()
            .position(|step| step.is(address, action, is_refresh))
    }

    /// Returns the place of the last step in which a provisioner at this address runs.
    fn last_at(&self, address: &str) -> Option<usize>
        ensures { result ≡ last_place (runs_at address.now) (steps_of self.now) }
    {
        let mut index = self.list.len();
        while index > 0 {
            index -= 1;
            if self.list[index].runs_at(address) {
                return Some(index);
            }
        }
        None
    }

    /// A provisioner begins. `Err` where memory is refused.
    pub fn run(
        &mut self,
        alloc: Global,
        address: &str,
        name: &str,
        moment: i64,
    ) -> Result<(), AllocError>
        ensures { OnOk result (steps_of self.new
            ≡ with_provisioner (runs_at address.now) (Some (new_running name.now moment)) (steps_of self.old)) }
    {
        if let Some(index) = self.last_at(address) {
            self.list[index].provisioner = Some(Provisioner {
                name: String::from_str(alloc, name)?,
                begin: moment,
            });
        }
        Ok(())
    }

    /// The provisioner at this address ends. Returns the moment of its begin, or `None` where none
    /// runs.
    pub fn stop(&mut self, address: &str) -> Option<i64>
        ensures begin { result ≡ begin_of_running address.now (steps_of self.old) }
        ensures steps { steps_of self.new
            ≡ with_provisioner (runs_at address.now) None (steps_of self.old) }
    {
        let index = self.last_at(address)?;
        let provisioner = self.list[index].provisioner.take()?;
        Some(provisioner.begin)
    }

    /// Removes the steps that read at this address.
    pub fn forget_reads(&mut self, address: &str)
        ensures { steps_of self.new
            ≡ filter (λ step. not (reads_at address.now step)) (steps_of self.old) }
    {
        self.list.retain(|step| !step.reads_at(address));
    }

    /// How many steps create, update or delete.
    pub fn changes(&self) -> u64
        ensures { result ≡ changes_in (steps_of self.now) }
    {
        let mut count = 0;
        for step in self.list.iter() {
            if step.is_change() {
                count += 1;
            }
        }
        count
    }
}

/// Returns the first steps, at most so many.
pub fn first_steps(steps: &[OpenStep], most: usize) -> &[OpenStep]
    ensures { map step_view result.now ≡ take most (map step_view steps.now) }
{
    &steps[..most.min(steps.len())]
}
