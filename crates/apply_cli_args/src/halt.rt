//! The halts that the command line asks for.

use apply_hooks::{Phase, Rules};
use apply_model::{StepKind, Text};
use std::alloc::{AllocError, Global};

/// Which steps are halted before they start.
#[derive(Debug, Drop)]
pub enum Halt {
    /// Each step of this kind.
    Before(StepKind),
    /// Each step of a change whose address begins with this text. Every address begins with the
    /// empty text.
    Inside(Text),
}

impl Halt {
    ghost use Rattle.std.specs.Prelude.{◌≡◌, IfOk};
    ghost use Rattle.apply_cli_args.specs.Halt.{rules_of_halt};

    /// Returns the rules of the hook that halts these steps. `Err` if memory is refused.
    pub fn rules(&self, alloc: Global) -> Result<Rules, AllocError>
        ensures { IfOk result (λ rules. rules ≡ rules_of_halt self.now) }
    {
        match self {
            Halt::Before(kind) => Rules::halting(alloc, Some(Phase::Pre), Some(*kind), ""),
            Halt::Inside(prefix) => Rules::halting(alloc, Some(Phase::Pre), None, prefix.as_str()),
        }
    }
}
