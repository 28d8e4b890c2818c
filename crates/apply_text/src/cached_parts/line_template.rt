//! What the lines of a step have in common, in any form of a stream.

ghost use Rattle.std.specs.Prelude.{◌≡◌, IfOk};
ghost use Rattle.apply_text.specs.CachedParts.{ShownStep, LinePieces, shown_step};

use crate::cached_parts::step_texts::StepTexts;
use apply_model::{Change, StepKind};
use std::alloc::{AllocError, Global};

/// The texts that lines of a step have in common, in one form of a stream. One implementation is
/// for progress lines, and one for start and end lines.
pub trait LineTemplate: Drop {
    ghost cached: { Self → ShownStep };

    ghost pieces: { ShownStep → LinePieces };

    /// Builds the template of a step of `change`. An implementation may reuse the memory of `old`,
    /// a template that is no longer needed. `Err` when memory is refused.
    fn new(
        alloc: Global,
        old: Option<Self>,
        change: &Change,
        step: StepKind,
    ) -> Result<Self, AllocError>
        ensures { IfOk result (λ template. cached template ≡ shown_step change.now step) };

    /// The step, and the texts of its lines.
    fn texts(&self) -> &StepTexts
        ensures step { result.now.step ≡ cached self.now }
        ensures pieces { result.now.pieces ≡ pieces (cached self.now) };
}
