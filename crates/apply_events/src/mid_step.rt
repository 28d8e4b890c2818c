//! The progress of a step between its start and its end.

ghost use Rattle.std.specs.Prelude.{◌≡◌, ◌+◌, ◌≤◌, ◌∷◌, [], ℕ, List, None, Some, IfNone, IfSome, drop};
ghost use Rattle.apply_model.specs.declared.script.provisioner.Provisioner.{Provisioner};
ghost use Rattle.apply_model.specs.Script.Limits.{max_seconds};
ghost use Rattle.apply_model.specs.Script.Outcome.{ran, seconds_before, took};
ghost use Rattle.apply_events.specs.MidStep.{due};
ghost use Rattle.apply_events.specs.Provisions.{provision_end};

use crate::running_provisioners::{provisioner_start, running_provisioner};
use crate::what::What;
use apply_model::{Outcome, Provisioner, StepKind};

/// How far a step is that has started and has not ended.
#[derive(Clone, Copy)]
pub struct MidStep {
    /// The seconds up to which the events of the step were emitted.
    emitted: u32,
    /// The number of the current provisioner, counted from 0.
    provisioner: u8,
    /// How many texts the current provisioner has printed. `None` where it has not begun.
    outputs: Option<u8>,
}

impl MidStep {
    ghost use Rattle.apply_events.specs.Course.{GivesNext};
    ghost use Rattle.apply_events.specs.MidStep.{left_of};
    ghost use Rattle.apply_events.specs.Provisions.{along, progress, times_within};

    /// A step that has just started.
    pub fn new() -> MidStep
        ensures { (d before : ℕ) (provisioners : List Provisioner)
            → left_of d before provisioners result ≡ along d 0 0 before provisioners }
    {
        MidStep {
            emitted: 0,
            provisioner: 0,
            outputs: None,
        }
    }

    /// The next event of the step, and after how many seconds it comes. `None` where the end of the
    /// step is next.
    pub fn next(&mut self, outcome: &Outcome, kind: StepKind) -> Option<(u32, What)>
        requires short { took kind outcome.now ≤ max_seconds }
        ensures next { GivesNext
            (left_of (took kind outcome.now) (seconds_before kind outcome.now) (ran outcome.now.provisioners) self.old) result
            (left_of (took kind outcome.now) (seconds_before kind outcome.now) (ran outcome.now.provisioners) self.new) }
        ensures in_time { IfSome result (λ emitted. emitted.0 ≤ took kind outcome.now) }
    {
        match self.outputs {
            None => self.begin(outcome, kind),
            Some(line) => self.run(outcome, kind, line),
        }
    }

    /// The next event while the current provisioner has not begun: progress, or the begin of the
    /// provisioner. After the last provisioner it is progress up to the end of the step.
    fn begin(&mut self, outcome: &Outcome, kind: StepKind) -> Option<(u32, What)>
        requires short { took kind outcome.now ≤ max_seconds }
        requires outputs { self.old.outputs ≡ None }
        ensures next { GivesNext
            (left_of (took kind outcome.now) (seconds_before kind outcome.now) (ran outcome.now.provisioners) self.old) result
            (left_of (took kind outcome.now) (seconds_before kind outcome.now) (ran outcome.now.provisioners) self.new) }
        ensures in_time { IfSome result (λ emitted. emitted.0 ≤ took kind outcome.now) }
    {
        let whole = outcome.took(kind);
        if running_provisioner(outcome, self.provisioner).is_none() {
            return self.emit_until(whole, whole);
        }
        let begin = provisioner_start(outcome, kind, self.provisioner);
        if let Some(emitted) = self.emit_until(whole, begin) {
            return Some(emitted);
        }
        self.emitted = begin;
        self.outputs = Some(0);
        Some((begin, What::ProvisionStart(self.provisioner)))
    }

    /// The next event while the current provisioner runs: progress, its next output, or its end. In
    /// the same second progress comes first.
    fn run(&mut self, outcome: &Outcome, kind: StepKind, line: u8) -> Option<(u32, What)>
        requires short { took kind outcome.now ≤ max_seconds }
        requires outputs { self.old.outputs ≡ Some line }
        ensures next { GivesNext
            (left_of (took kind outcome.now) (seconds_before kind outcome.now) (ran outcome.now.provisioners) self.old) result
            (left_of (took kind outcome.now) (seconds_before kind outcome.now) (ran outcome.now.provisioners) self.new) }
        ensures in_time { IfSome result (λ emitted. emitted.0 ≤ took kind outcome.now) }
    {
        let Some(provisioner) = running_provisioner(outcome, self.provisioner) else {
            return None;
        };
        let begin = provisioner_start(outcome, kind, self.provisioner);
        let due = due_of(self.emitted, begin, provisioner, line);
        if let Some(emitted) = self.emit_until(outcome.took(kind), due) {
            return Some(emitted);
        }
        self.emitted = due;
        let prov = self.provisioner;
        if line < provisioner.output.len() {
            self.outputs = Some(line + 1);
            return Some((due, What::ProvisionOutput { prov, line }));
        }
        self.provisioner += 1;
        self.outputs = None;
        Some((due, end_of(prov, provisioner)))
    }

    /// Emits the next progress no later than `until`, in a step of `whole` seconds. `None` where
    /// there is none.
    fn emit_until(&mut self, whole: u32, until: u32) -> Option<(u32, What)>
        requires short { whole ≤ max_seconds }
        ensures none { IfNone result ((progress whole self.old.emitted until ≡ []) × (self.new ≡ self.old)) }
        ensures some { IfSome result (λ emitted. progress whole self.old.emitted until ≡ emitted ∷ progress whole self.new.emitted until) }
        ensures same { (self.new.provisioner ≡ self.old.provisioner) × (self.new.outputs ≡ self.old.outputs) }
        ensures in_time { IfSome result (λ emitted. emitted.0 ≤ until) }
        ensures on_time { IfSome result (λ emitted. (self.old.emitted ≤ self.new.emitted) × (self.new.emitted ≤ until)) }
    {
        let time = self.next_time(whole, until)?;
        self.emitted = time;
        Some((time, What::Progress(time)))
    }

    /// The next progress no later than `until`, in a step of `whole` seconds. `None` where there is
    /// none.
    fn next_time(&self, whole: u32, until: u32) -> Option<u32>
        requires short { whole ≤ max_seconds }
        ensures none { IfNone result (times_within whole self.now.emitted until ≡ []) }
        ensures some { IfSome result
            (λ time. times_within whole self.now.emitted until ≡ time ∷ times_within whole time until) }
        ensures in_time { IfSome result (λ time. (self.now.emitted ≤ time) × (time ≤ until)) }
    {
        if self.emitted >= whole {
            return None;
        }
        let time = (self.emitted / 10 + 1) * 10;
        if time < whole && time <= until {
            Some(time)
        } else {
            None
        }
    }
}

/// When the next output of the provisioner comes, or its end where no output is left, in seconds.
/// It is at least `emitted`, and at most the end of the provisioner.
fn due_of(emitted: u32, begin: u32, provisioner: &Provisioner, line: u8) -> u32
    requires { begin + provisioner.now.seconds ≤ max_seconds }
    ensures { result ≡ due emitted begin (begin + provisioner.now.seconds) (drop line provisioner.now.output) }
{
    let end = begin + provisioner.seconds;
    if line < provisioner.output.len() {
        let at = begin.saturating_add(provisioner.output.get(line).after);
        emitted.max(at).min(end)
    } else {
        end
    }
}

/// The event with which the provisioner ends.
fn end_of(number: u8, provisioner: &Provisioner) -> What
    ensures { result ≡ provision_end number provisioner.now }
{
    if provisioner.failed.is_some() {
        What::ProvisionErrored(number)
    } else {
        What::ProvisionComplete(number)
    }
}
