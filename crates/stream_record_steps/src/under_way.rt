//! Which step under way a line is of.

ghost use Rattle.std.specs.Prelude.{◌≡◌};
ghost use Rattle.stream_record_steps.specs.UnderWay.{begins_at, earlier, is_sought, may_have_provisioners, meets, provisioned_place, sought_place, start_line, timed_place};

use crate::begun_step::BegunStep;
use crate::kinds::is_kind;
use crate::planned_step::PlannedStep;
use crate::slots::Slots;
use crate::sought::Sought;
use apply_model::StepKind;

/// The place of the step among these that progress or an end is of: of those under way whose
/// seconds fit, the one that began first, else of those of its kind.
pub fn timed_place(
    slots: &Slots,
    kind: StepKind,
    seconds: u64,
    second: i64,
    steps: &[PlannedStep<'_>],
) -> Option<usize>
    ensures { result ≡ timed_place slots.now kind seconds second steps.now }
{
    let timely = Sought::Timely {
        kind,
        seconds,
        second,
    };
    match sought_place(slots, timely, steps) {
        Some(place) => Some(place),
        None => sought_place(slots, Sought::Kind(kind), steps),
    }
}

/// The place of the step among these that a provisioner is of: a create, else a delete that may
/// have some, else any delete. Of several under way it is the one that began first.
pub fn provisioned_place(slots: &Slots, steps: &[PlannedStep<'_>]) -> Option<usize>
    ensures { result ≡ provisioned_place slots.now steps.now }
{
    if let Some(place) = sought_place(slots, Sought::Kind(StepKind::Create), steps) {
        return Some(place);
    }
    match sought_place(slots, Sought::ProvisionedDelete, steps) {
        Some(place) => Some(place),
        None => sought_place(slots, Sought::Kind(StepKind::Delete), steps),
    }
}

/// Of the steps among these that are under way and sought, the place of the one that began first.
fn sought_place(slots: &Slots, sought: Sought, steps: &[PlannedStep<'_>]) -> Option<usize>
    ensures { result ≡ sought_place slots.now sought steps.now }
{
    let mut first = None;
    for step in steps {
        if is_sought(slots, sought, step) {
            first = earlier(slots, first, step.place());
        }
    }
    first
}

/// Of two steps, the place of the one that began first.
fn earlier(slots: &Slots, first: Option<usize>, place: usize) -> Option<usize>
    ensures { result ≡ earlier slots.now first place }
{
    match first {
        Some(other) if start_line(slots, place) >= start_line(slots, other) => Some(other),
        _ => Some(place),
    }
}

/// The line of the start of the step at a place.
fn start_line(slots: &Slots, place: usize) -> u64
    ensures { result ≡ start_line slots.now place }
{
    match slots.get(place) {
        Some(step) => step.line,
        None => 0,
    }
}

/// Whether the step is under way, and one that is sought.
fn is_sought(slots: &Slots, sought: Sought, step: &PlannedStep<'_>) -> bool
    ensures { result ≡ is_sought slots.now sought step.now }
{
    match slots.get(step.place()) {
        Some(begun) => begun.end.is_none() && meets(sought, step, begun),
        None => false,
    }
}

/// Whether a step that began is one that is sought.
fn meets(sought: Sought, step: &PlannedStep<'_>, begun: &BegunStep) -> bool
    ensures { result ≡ meets sought step.now begun.now }
{
    match sought {
        Sought::Kind(kind) => is_kind(kind, step.kind()),
        Sought::Timely {
            kind,
            seconds,
            second,
        } => is_kind(kind, step.kind()) && begins_at(seconds, second, begun),
        Sought::ProvisionedDelete => step.kind().is_delete() && may_have_provisioners(step),
    }
}

/// Whether the step began so many seconds before that second.
fn begins_at(seconds: u64, second: i64, step: &BegunStep) -> bool
    ensures { result ≡ begins_at seconds second step.now }
{
    match step.second.checked_add_unsigned(seconds) {
        Some(sum) => sum == second,
        None => false,
    }
}

/// Whether a script may give the delete provisioners.
fn may_have_provisioners(step: &PlannedStep<'_>) -> bool
    ensures { result ≡ may_have_provisioners step.now }
{
    step.is_first() && step.change().deposed().is_none()
}
