use crate::mid_step::MidStep;

/// The stage of the current step.
#[derive(Clone, Copy)]
pub enum Stage {
    /// No hook was asked yet.
    Before,
    /// The step has started and has not ended.
    Running(MidStep),
    /// The end was emitted, or the step has no end event. Its error or warning comes next.
    Noting,
    /// Only the halt by the hook of that number is still to come.
    Halting(u8),
    /// No event is left: all steps are over, one failed, or a hook halted the change.
    Over,
}
