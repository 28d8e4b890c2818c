//! The provisioners of a step that run, and when.

ghost use Rattle.std.specs.Prelude.{◌≡◌, ◌<◌, ◌≤◌, slice_get, IfSome};
ghost use Rattle.std.specs.Option.{option_copied};
ghost use Rattle.apply_model.specs.Script.Limits.{max_provisioners, max_seconds};
ghost use Rattle.apply_model.specs.Script.Outcome.{ran, seconds_before, took};
ghost use Rattle.apply_events.specs.MidStep.{since};

use apply_model::{Outcome, Provisioner, StepKind};

/// The provisioner of that number. `None` where it does not run.
pub fn running_provisioner(outcome: &Outcome, number: u8) -> Option<&Provisioner>
    ensures answer { option_copied result ≡ slice_get (ran outcome.now.provisioners) number }
    ensures few { IfSome result (λ _. number < max_provisioners) }
{
    let _few = outcome.provisioners.len();
    if number < outcome.provisioners.count_that_run() {
        Some(outcome.provisioners.get(number))
    } else {
        None
    }
}

/// After how many seconds of the step the provisioner begins: after the provider's seconds before
/// it, and all earlier provisioners that run.
pub fn provisioner_start(outcome: &Outcome, kind: StepKind, number: u8) -> u32
    requires { took kind outcome.now ≤ max_seconds }
    ensures { result ≡ since (seconds_before kind outcome.now) (ran outcome.now.provisioners) number }
{
    let mut seconds = outcome.seconds_before(kind);
    for earlier in 0..number.min(outcome.provisioners.count_that_run()) {
        seconds += outcome.provisioners.get(earlier).seconds;
    }
    seconds
}
