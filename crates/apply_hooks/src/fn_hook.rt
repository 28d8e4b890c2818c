//! Hooks that are closures.

ghost use Rattle.std.specs.Prelude.{◌≡◌};
ghost use Rattle.apply_hooks.specs.HookClosure.{AnswersAs};

use crate::hook::Hook;
use crate::hook_call::HookCall;
use crate::rules::Rules;
use crate::verdict::Verdict;

/// A closure that answers calls. The box lets closures of different types stand in one list, and
/// threads share them.
///
/// The owner of the hooks makes the box. A function that returned one would hide the closure's
/// answers from contracts.
pub type HookClosure = Box<dyn Fn(&HookCall<'_>) -> Verdict + Send + Sync>;

/// A closure with a list of rules that gives the same answers.
#[derive(Drop)]
pub struct FnHook {
    rules: Rules,
    answer: HookClosure,
    ghost answers: { AnswersAs (pre answer) (post answer) rules },
}

impl FnHook {
    ghost use Rattle.apply_hooks.specs.FnHook.{rules_of_hook};

    /// A hook of the closure. The closure accepts every call, and answers each as the rules do.
    pub fn new(rules: Rules, answer: HookClosure) -> FnHook
        requires { AnswersAs (pre answer) (post answer) rules }
        ensures { rules_of_hook result ≡ rules }
    {
        FnHook { rules, answer }
    }
}

impl Hook for FnHook {
    ghost use Rattle.apply_hooks.specs.FnHook.{rules_of_hook};

    ghost rules = { λ hook. rules_of_hook hook };

    fn decide(&self, call: &HookCall<'_>) -> Verdict {
        (self.answer)(call)
    }
}
