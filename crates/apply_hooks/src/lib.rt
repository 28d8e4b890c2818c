//! Hooks: closures that are asked before and after each step of an apply, and may halt it.
#![tactic(auto)]

mod asked;
mod fn_hook;
mod hook;
mod hook_call;
mod hook_error;
mod phase;
mod registry;
mod rule;
mod rules;
mod verdict;

pub use asked::Asked;
pub use fn_hook::{FnHook, HookClosure};
pub use hook::Hook;
pub use hook_call::HookCall;
pub use hook_error::HookError;
pub use phase::Phase;
pub use registry::{MAX_HOOKS, Registry};
pub use rule::Rule;
pub use rules::Rules;
pub use verdict::Verdict;
