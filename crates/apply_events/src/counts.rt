//! The totals of an apply.

ghost use Rattle.std.specs.Prelude.{◌≡◌, ◌<◌, ◌∷◌, []};
ghost use Rattle.apply_events.specs.Fits.{HasStep};

use crate::event::Event;
use crate::what::What;
use apply_model::{Plan, StepKind};

/// The steps that completed, by kind, the steps that failed, and the halts. A completed read is not
/// counted.
#[derive(Clone, Copy, Debug, PartialEq, Eq)]
pub struct Counts {
    /// Objects created.
    pub added: u64,
    /// Objects changed in place.
    pub changed: u64,
    /// Objects destroyed.
    pub removed: u64,
    /// Steps that failed.
    pub failed: u64,
    /// Halts by a hook.
    pub halted: u64,
}

impl Counts {
    ghost use Rattle.apply_events.specs.Totals.{plus, totals_of};

    /// All totals are 0.
    pub fn new() -> Counts
        ensures { result ≡ record { added = 0; changed = 0; removed = 0; failed = 0; halted = 0 } }
    {
        Counts {
            added: 0,
            changed: 0,
            removed: 0,
            failed: 0,
            halted: 0,
        }
    }

    /// Counts one event of the plan. Each part of a replacement is counted when it completes.
    pub fn count(&mut self, plan: &Plan, event: &Event)
        requires has_step { HasStep plan.now event.now.change event.now.step }
        requires added { self.old.added < u64.MAX }
        requires changed { self.old.changed < u64.MAX }
        requires removed { self.old.removed < u64.MAX }
        requires failed { self.old.failed < u64.MAX }
        requires halted { self.old.halted < u64.MAX }
        ensures { self.new ≡ plus self.old (totals_of plan.now (event.now ∷ [])) }
    {
        match event.what {
            What::Complete(_) => {
                match plan.change(event.change).steps()[event.step as usize] {
                    StepKind::Create => self.added += 1,
                    StepKind::Update => self.changed += 1,
                    StepKind::Delete => self.removed += 1,
                    StepKind::Read => {}
                }
            }
            What::Errored(_) => self.failed += 1,
            What::Halted { .. } => self.halted += 1,
            // No other event is counted.
            _ => {}
        }
    }
}
