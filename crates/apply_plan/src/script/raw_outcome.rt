//! The outcome of a step that is not skipped, before its texts are copied.

ghost use Rattle.std.specs.Prelude.{◌≡◌, ◌≤◌, All, IfOk, length, map, option_map};
ghost use Rattle.std.specs.List.{list_any};
ghost use Rattle.apply_plan.specs.Script.Entry.{with_provisioners};
ghost use Rattle.apply_model.specs.Script.Outcome.{IsBounded, IsSmall, has_too_much_output, is_too_long, puts_out_too_much};
ghost use Rattle.apply_model.specs.Script.Limits.{max_provisioners};
ghost use Rattle.apply_plan.specs.Script.Limit.{exceeds};
ghost use Rattle.apply_plan.specs.Script.Refusals.{has_provisioners, only_warns};
ghost use Rattle.apply_plan.specs.Script.RawView.{ending_view, outcome_view, provisioner_view};

use crate::script::limit::Limit;
use crate::script::raw_ending::RawEnding;
use crate::script::raw_provisioner::RawProvisioner;
use crate::zip_results::zip_results;
use apply_model::{MAX_PROVISIONERS, MAX_SECONDS, Outcome, Provisioners, Waits};
use std::alloc::{AllocError, Global};

/// The outcome of a step whose members are all valid.
pub struct RawOutcome<'a> {
    /// Not limited yet: [`RawOutcome::exceeds`] checks it later.
    pub seconds: u64,
    /// Not limited yet, as `seconds`.
    pub provisioners: Vec<RawProvisioner<'a>>,
    pub result: RawEnding<'a>,
}

// Not derived: a value that holds this one is then dropped by a call.
impl<'a> Drop for RawOutcome<'a> {
    fn drop(self) {
        let RawOutcome {
            seconds: _,
            provisioners: _,
            result: _,
        } = self;
    }
}

impl<'a> RawOutcome<'a> {
    /// Builds an outcome. `None` means a step with provisioners whose provider fails.
    pub fn new(
        seconds: u64,
        ending: RawEnding<'a>,
        provisioners: Vec<RawProvisioner<'a>>,
    ) -> Option<RawOutcome<'a>>
        ensures { option_map outcome_view result ≡ with_provisioners seconds (ending_view ending.entry)
            (map provisioner_view provisioners.entry.items) }
    {
        if (ending.is_failed() || ending.is_warned()) && !provisioners.is_empty() {
            return None;
        }
        Some(RawOutcome {
            seconds,
            provisioners,
            result: ending,
        })
    }

    /// Whether the step exceeds the limit.
    pub fn exceeds(&self, limit: Limit) -> bool
        ensures { result ≡ exceeds limit (outcome_view self.now) }
    {
        match limit {
            Limit::Seconds => self.is_too_long(),
            Limit::Provisioners => self.provisioners.len() > MAX_PROVISIONERS,
            Limit::Output => self.has_too_much_output(),
        }
    }

    /// Whether the step with all its provisioners takes more than 86,400 seconds.
    fn is_too_long(&self) -> bool
        ensures { result ≡ is_too_long (outcome_view self.now) }
    {
        let Some(mut left) = u64::from(MAX_SECONDS).checked_sub(self.seconds) else {
            return true;
        };
        for provisioner in &self.provisioners {
            if provisioner.seconds > left {
                return true;
            }
            left -= provisioner.seconds;
        }
        false
    }

    /// Whether a provisioner of the step has more than 100 outputs.
    fn has_too_much_output(&self) -> bool
        ensures { result ≡ has_too_much_output (outcome_view self.now) }
    {
        puts_any_out_too_much(&self.provisioners)
    }

    /// Whether the step has provisioners.
    pub fn has_provisioners(&self) -> bool
        ensures { result ≡ has_provisioners (outcome_view self.now) }
    {
        !self.provisioners.is_empty()
    }

    /// Whether the provider of the step fails with only a warning.
    pub fn only_warns(&self) -> bool
        ensures { result ≡ only_warns (outcome_view self.now) }
    {
        self.result.is_warned()
    }

    /// The outcome with copies of its texts, for a step that waits for `after`.
    ///
    /// `Err` means that memory was refused.
    pub fn copied(&self, alloc: Global, after: Waits) -> Result<Outcome, AllocError>
        requires { IsBounded (outcome_view self.now) }
        ensures { IfOk result (λ copy. copy ≡ record (outcome_view self.now) { after = after }) }
    {
        let provisioners = copied_provisioners(alloc, &self.provisioners);
        match zip_results(provisioners, self.result.copied(alloc)) {
            Ok((provisioners, result)) => Ok(Outcome {
                seconds: self.seconds as u32,
                provisioners,
                result,
                after,
            }),
            Err(refused) => Err(refused),
        }
    }
}

/// Whether a provisioner has more than 100 outputs.
fn puts_any_out_too_much(provisioners: &[RawProvisioner<'_>]) -> bool
    ensures { result
        ≡ list_any (λ provisioner. puts_out_too_much (provisioner_view provisioner)) provisioners.now }
{
    provisioners.iter().any(RawProvisioner::puts_out_too_much)
}

/// The provisioners, with copies of their texts. `Err` means that memory was refused.
fn copied_provisioners(
    alloc: Global,
    tree: &[RawProvisioner<'_>],
) -> Result<Provisioners, AllocError>
    requires few { length tree.now ≤ max_provisioners }
    requires small { All IsSmall (map provisioner_view tree.now) }
    ensures { IfOk result (λ copy. copy ≡ map provisioner_view tree.now) }
{
    let mut provisioners = Vec::with_capacity(alloc, tree.len())?;
    for provisioner in tree {
        provisioners.push(provisioner.copied(alloc)?)?;
    }
    Ok(Provisioners::new(provisioners))
}
