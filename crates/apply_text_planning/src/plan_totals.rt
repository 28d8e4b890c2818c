//! The totals of a plan.

ghost use Rattle.std.specs.Prelude.{◌≡◌, ◌+◌, ◌-◌, ◌∷◌, [], ℕ, count_by};
ghost use Rattle.apply_model.specs.Plan.StepKind.{is_kind};
ghost use Rattle.apply_text_planning.specs.Totals.{IsAtMost, planned_totals, plus};

use apply_model::{Change, ChangeDetails, StepKind};

/// How many objects a plan adds, changes, removes and imports. A replacement adds one and removes
/// one. A read counts as nothing.
#[derive(Clone, Copy, Debug, PartialEq, Eq)]
pub struct PlanTotals {
    /// Objects to create.
    pub added: u64,
    /// Objects to change in place.
    pub changed: u64,
    /// Objects to destroy.
    pub removed: u64,
    /// Objects to import.
    pub imported: u64,
}

impl PlanTotals {
    /// All totals are 0.
    pub fn new() -> PlanTotals
        ensures { result ≡ planned_totals [] }
    {
        PlanTotals {
            added: 0,
            changed: 0,
            removed: 0,
            imported: 0,
        }
    }

    /// Counts a planned change. It raises each of the totals by 2 at most, so each has to be at
    /// most `u64::MAX - 2`.
    pub fn count(&mut self, change: &Change, details: &ChangeDetails)
        requires { IsAtMost (u64.MAX - 2) self.old }
        ensures counted { self.new ≡ plus self.old (planned_totals ((change.now, details.now) ∷ [])) }
        ensures few { (limit : ℕ) → IsAtMost limit self.old → IsAtMost (limit + 2) self.new }
    {
        let steps = change.steps();
        self.added += count_of(StepKind::Create, steps);
        self.changed += count_of(StepKind::Update, steps);
        self.removed += count_of(StepKind::Delete, steps);
        if details.importing.is_some() {
            self.imported += 1;
        }
    }
}

/// How many of the steps are of that kind.
fn count_of(kind: StepKind, steps: &[StepKind]) -> u64
    ensures { result ≡ count_by (is_kind kind) steps.now }
{
    let mut count: u64 = 0;
    for step in steps {
        if is_kind(kind, *step) {
            count += 1;
        }
    }
    count
}

/// Whether two kinds are the same.
fn is_kind(kind: StepKind, other: StepKind) -> bool
    ensures { result ≡ is_kind kind other }
{
    kind == other
}
