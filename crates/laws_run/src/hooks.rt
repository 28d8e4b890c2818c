//! Laws of lists of hooks. Each function does nothing: its contract is the law.

ghost use Rattle.std.specs.Prelude.{◌≡◌, ◌++◌, ◌∷◌, ◌↔◌, [], ℕ, List};
ghost use Rattle.apply_hooks.specs.HookCall.{Call};
ghost use Rattle.apply_hooks.specs.Hooks.{IsFirstHalting, first_halting};
ghost use Rattle.apply_hooks.specs.declared.rule.Rule.{Rule};

/// Without hooks, no call is halted.
pub fn without_hooks_nothing_is_halted()
    ensures { (call : Call) → first_halting [] call ≡ None }
{}

/// A hook that is added at the end changes nothing for a call that was halted before. The same hook
/// halts the call.
pub fn a_hook_at_the_end_changes_no_halt()
    ensures { (hooks : List (List Rule)) (rules : List Rule) (call : Call) (number : ℕ)
        → first_halting hooks call ≡ Some number
        → first_halting (hooks ++ rules ∷ []) call ≡ Some number }
{}

/// The hook that a halt names is the first one that halts the call.
pub fn the_first_hook_that_halts_is_named()
    ensures { (hooks : List (List Rule)) (call : Call) (number : ℕ)
        → (first_halting hooks call ≡ Some number) ↔ IsFirstHalting hooks call number }
{}
