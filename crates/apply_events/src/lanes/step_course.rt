//! How long a step takes, and whether its change goes on after it.

ghost use Rattle.std.specs.Prelude.{◌≡◌, ◌<◌, ◌≤◌, Some, is_some, length, slice_get};
ghost use Rattle.apply_hooks.specs.Hooks.{first_halting};
ghost use Rattle.apply_hooks.specs.Registry.{rules_of};
ghost use Rattle.apply_model.specs.Script.Limits.{max_seconds};
ghost use Rattle.apply_events.specs.Fits.{HasStep};
ghost use Rattle.apply_events.specs.Step.{kinds_of, step_of};
ghost use Rattle.apply_events.specs.StepEvents.{goes_on, step_time};

use crate::step_facts::StepFacts;
use apply_hooks::{Asked, HookCall, Phase, Registry};
use apply_model::{Plan, Script, StepKind};

/// How long a step takes, in seconds, and whether its change goes on after it.
#[derive(Clone, Copy)]
pub struct StepCourse {
    /// How long the step takes, in seconds.
    pub seconds: u32,
    /// Whether the change goes on after the step.
    pub goes_on: bool,
}

impl StepCourse {
    /// The course of a step of that kind. The hooks are asked about the step.
    pub(crate) fn of(
        plan: &Plan,
        script: &Script,
        registry: &Registry,
        change: u32,
        step: u8,
        kind: StepKind,
    ) -> StepCourse
        requires { change < length plan.now.changes }
        ensures seconds { result.seconds ≡ step_time (step_of (record { plan = plan.now; script = script.now; hooks = rules_of registry.now }) change step kind) }
        ensures goes_on { result.goes_on ≡ goes_on (step_of (record { plan = plan.now; script = script.now; hooks = rules_of registry.now }) change step kind) }
        ensures few { result.seconds ≤ max_seconds }
    {
        let address = plan.change(change).address();
        if is_halted(registry, Phase::Pre, kind, address) {
            return StepCourse {
                seconds: 0,
                goes_on: false,
            };
        }
        let facts = StepFacts::new(script, change, step, kind);
        StepCourse {
            seconds: facts.seconds,
            goes_on: !facts.fails && !is_halted(registry, Phase::PostDone, kind, address),
        }
    }
}

/// Whether a hook halts a step of that kind in the phase.
fn is_halted(registry: &Registry, phase: Phase, kind: StepKind, address: &str) -> bool
    ensures { result ≡ is_some (first_halting (rules_of registry.now) (record { phase = phase; kind = kind; address = address.now })) }
{
    let asked = registry.ask(&HookCall {
        phase,
        kind,
        address,
    });
    match asked {
        Asked::HaltedBy(_) => true,
        Asked::Go => false,
    }
}
