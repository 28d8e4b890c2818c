//! The call of a hook.

ghost use Rattle.std.specs.Prelude.{◌≡◌, nat_eq};
ghost use Rattle.std.specs.List.{starts_with};

use crate::phase::Phase;
use apply_model::StepKind;

/// What a hook learns from a call.
#[derive(Clone, Copy, Debug)]
pub struct HookCall<'a> {
    /// When the hook is called.
    pub phase: Phase,
    /// The kind of the step.
    pub kind: StepKind,
    /// The whole address of the change.
    pub address: &'a str,
}

impl HookCall<'_> {
    /// Whether the address begins with the text, which may be empty.
    ///
    /// A closure that tests an address by this method needs no proof of its own that it answers as
    /// its rules do.
    #[tactic(auto, using(std::proofs::lemmas::Str::Pattern::starts_text))]
    pub fn address_begins(&self, beginning: &str) -> bool
        ensures { result ≡ starts_with nat_eq self.now.address.now beginning.now }
    {
        self.address.starts_with(beginning)
    }
}
