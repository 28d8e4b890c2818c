//! The step of a change that another step waits for.

ghost use Rattle.std.specs.Prelude.{◌≡◌};
ghost use Rattle.apply_resolve.specs.WaitedStep.{waited_step};

/// The number of the step to wait for, in a change with `count` steps: the stated number, or the
/// last step. `None` where the change has no such step.
pub fn waited_step(step: Option<u64>, count: u8) -> Option<u8>
    ensures { result ≡ waited_step count step }
{
    let last = u64::from(count.saturating_sub(1));
    let number = step.unwrap_or(last);
    if number < u64::from(count) {
        Some(number as u8)
    } else {
        None
    }
}
