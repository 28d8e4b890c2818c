//! Code that answers calls.

ghost use Rattle.std.specs.Prelude.{◌≡◌, List};
ghost use Rattle.apply_hooks.specs.HookCall.{call_of};
ghost use Rattle.apply_hooks.specs.Rules.{verdict_of};
ghost use Rattle.apply_hooks.specs.Verdict.{is_halt};
ghost use Rattle.apply_hooks.specs.declared.rule.Rule.{Rule};

use crate::hook_call::HookCall;
use crate::verdict::Verdict;

/// Code that answers calls as a list of rules does. Contracts know the code by those rules.
pub trait Hook: Drop {
    /// The rules that give the same answers.
    ghost rules: { Self → List Rule };

    /// The verdict of the first rule that matches the call, or `Continue` where no rule matches.
    fn decide(&self, call: &HookCall<'_>) -> Verdict
        ensures { result ≡ verdict_of (rules self.now) (call_of call.now) };
}

/// Whether the hook halts the call.
pub(crate) fn halts<H: Hook>(hook: &H, call: &HookCall<'_>) -> bool
    ensures { result ≡ is_halt (verdict_of (H.rules hook.now) (call_of call.now)) }
{
    hook.decide(call) == Verdict::Halt
}
