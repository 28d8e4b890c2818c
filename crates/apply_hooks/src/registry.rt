//! The hooks of an apply.

ghost use Rattle.std.specs.Prelude.{◌≡◌, ◌≤◌, ◌<◌, ◌↔◌, ◌++◌, ◌∷◌, [], ℕ, length, map, vec_len, IfErr, IfSome, OnErr, OnOk};
ghost use Rattle.apply_hooks.specs.FnHook.{rules_of_hook};
ghost use Rattle.apply_hooks.specs.HookCall.{call_of};
ghost use Rattle.apply_hooks.specs.Hooks.{first_halting, max_hooks};

use crate::asked::Asked;
use crate::fn_hook::FnHook;
use crate::hook::halts;
use crate::hook_call::HookCall;
use crate::hook_error::HookError;
use std::alloc::Global;

/// The greatest number of hooks in a registry.
pub const MAX_HOOKS: usize = 32;

/// Hooks in the order in which they are called, at most 32. Contracts know a registry by
/// `rules_of`, which lists the rules of each hook. Threads may share a registry.
#[derive(Drop)]
pub struct Registry {
    hooks: Vec<FnHook>,
    ghost few: { vec_len hooks ≤ max_hooks },
}

impl Registry {
    ghost use Rattle.apply_hooks.specs.Asked.{asked_of};
    ghost use Rattle.apply_hooks.specs.Registry.{hooks_of, rules_of};

    /// A registry without hooks.
    pub fn new(alloc: Global) -> Registry
        ensures { rules_of result ≡ [] }
    {
        Registry {
            hooks: Vec::new(alloc),
        }
    }

    /// The number of hooks, at most 32.
    pub fn len(&self) -> usize
        ensures len { result ≡ length (rules_of self.now) }
        ensures few { length (rules_of self.now) ≤ max_hooks }
    {
        self.hooks.len()
    }

    /// Adds a hook after the others.
    ///
    /// `Err` with `Full` means that the registry has 32 hooks already. `Err` with `Memory` means
    /// that memory was refused. Both return the hook, and the registry is unchanged.
    pub fn add(&mut self, hook: FnHook) -> Result<(), (HookError, FnHook)>
        ensures ok { OnOk result (rules_of self.new ≡ rules_of self.old ++ rules_of_hook hook ∷ []) }
        ensures added { OnOk result (hooks_of self.new ≡ hooks_of self.old ++ hook ∷ []) }
        ensures err { OnErr result (hooks_of self.new ≡ hooks_of self.old) }
        ensures back { IfErr result (λ refused. refused.1 ≡ hook) }
        ensures full { (result ≡ Err (HookError.Full, hook))
            ↔ (length (rules_of self.old) ≡ max_hooks) }
    {
        if self.hooks.len() >= MAX_HOOKS {
            return Err((HookError::Full, hook));
        }
        match self.hooks.push(hook) {
            Ok(()) => Ok(()),
            Err(refused) => Err((HookError::Memory, refused.value)),
        }
    }

    /// Calls the hooks in order up to the first that halts. The hooks after it are not called.
    pub fn ask(&self, call: &HookCall<'_>) -> Asked
        ensures asked { result ≡ asked_of (first_halting (rules_of self.now) (call_of call.now)) }
        ensures few { (number : ℕ) → result ≡ Asked.HaltedBy number → number < max_hooks }
    {
        match first_to_halt(&self.hooks, call) {
            Some(number) => Asked::HaltedBy(number as u8),
            None => Asked::Go,
        }
    }
}

/// The number of the first hook that halts the call.
fn first_to_halt(hooks: &[FnHook], call: &HookCall<'_>) -> Option<usize>
    ensures first { result ≡ first_halting (map rules_of_hook hooks.now) (call_of call.now) }
    ensures below { IfSome result (λ number. number < length hooks.now) }
{
    for (number, hook) in hooks.iter().enumerate() {
        if halts(hook, call) {
            return Some(number);
        }
    }
    None
}
