//! One rule of a hook.

ghost use Rattle.std.specs.Prelude.{◌≡◌, true};
ghost use Rattle.std.specs.Option.{option_map_or};
ghost use Rattle.apply_hooks.specs.HookCall.{call_of};
ghost use Rattle.apply_hooks.specs.Phase.{is_phase};
ghost use Rattle.apply_model.specs.Plan.StepKind.{is_kind};

use crate::hook_call::HookCall;
use crate::phase::Phase;
use crate::verdict::Verdict;
use apply_model::{StepKind, Text};

/// A rule: the verdict on the calls that it matches.
///
/// A rule matches a call if each part that it states is equal, and the call's address begins with
/// the rule's text. A part that is `None` matches every call, and so does the empty text.
#[derive(Debug, Drop)]
pub struct Rule {
    /// The phase of the calls that match. `None` matches every phase.
    pub phase: Option<Phase>,
    /// The kind of the steps that match. `None` matches every kind.
    pub kind: Option<StepKind>,
    /// The text that matching addresses begin with.
    pub address_begins: Text,
    /// The verdict on the calls that match.
    pub verdict: Verdict,
}

impl Rule {
    ghost use Rattle.apply_hooks.specs.Rule.{matches};

    /// Whether the rule matches the call.
    pub fn matches(&self, call: &HookCall<'_>) -> bool
        ensures { result ≡ matches self.now (call_of call.now) }
    {
        phase_fits(self.phase, call.phase)
            && kind_fits(self.kind, call.kind)
            && call.address_begins(self.address_begins.as_str())
    }
}

/// Whether the stated phase, if any, is equal to the phase.
fn phase_fits(given: Option<Phase>, phase: Phase) -> bool
    ensures { result ≡ option_map_or (is_phase phase) given true }
{
    match given {
        Some(given) => given == phase,
        None => true,
    }
}

/// Whether the stated kind, if any, is equal to the kind.
fn kind_fits(given: Option<StepKind>, kind: StepKind) -> bool
    ensures { result ≡ option_map_or (is_kind kind) given true }
{
    match given {
        Some(given) => given == kind,
        None => true,
    }
}
