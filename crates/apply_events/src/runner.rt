//! The events of one change, one by one.

ghost use Rattle.std.specs.Prelude.{◌≡◌, ◌+◌, ◌-◌, ◌*◌, ◌<◌, ◌≤◌, length, true};
ghost use Rattle.apply_hooks.specs.Registry.{rules_of};
ghost use Rattle.apply_model.specs.Script.Limits.{max_seconds};
ghost use Rattle.apply_events.specs.Fits.{latest_second, max_span};
ghost use Rattle.apply_events.specs.Stages.{is_on_course, time_before};
ghost use Rattle.std.specs.Prelude.{slice_get};
ghost use Rattle.std.specs.Option.{option_map_or};
ghost use Rattle.apply_model.specs.Script.Outcome.{took};
ghost use Rattle.apply_model.specs.Script.OutcomeMap.{outcome_of};
ghost use Rattle.apply_events.specs.Step.{kinds_applied, steps_of};

use crate::applied::{applied_steps, kind_at};
use crate::event::Event;
use crate::mid_step::MidStep;
use crate::stage::Stage;
use crate::step_facts::StepFacts;
use crate::what::What;
use apply_hooks::{Asked, HookCall, Phase, Registry};
use apply_model::{Plan, Script, StepKind};

/// A change that is being applied. It emits the change's events one by one, and stores only a few
/// words.
///
/// Contracts know a runner by `course_of` (its work, worker, change and begin) and by `to_come`
/// (the events still to come).
#[derive(Drop)]
pub struct Runner<'a> {
    plan: &'a Plan,
    script: &'a Script,
    registry: &'a Registry,
    worker: u8,
    change: u32,
    /// When the change begins, in seconds.
    begin: u64,
    /// The number of the current step.
    step: u8,
    /// When the current step begins, in seconds.
    at: u64,
    stage: Stage,
    ghost is_planned: { change < length plan.now.changes },
    ghost few: { step ≤ 2 },
    ghost soon: { at ≤ begin + max_seconds * step },
    ghost in_time: { at + max_seconds * (2 - step) ≤ latest_second },
    ghost on_time: { at ≡ begin + time_before (steps_of (record {
      plan = plan.now;
      script = script.now;
      hooks = rules_of registry.now;
    }) change) step stage },
    ghost on_course: { is_on_course (steps_of (record {
      plan = plan.now;
      script = script.now;
      hooks = rules_of registry.now;
    }) change) step stage ≡ true },
}

impl<'a> Runner<'a> {
    ghost use Rattle.std.specs.Prelude.{[], ◌∷◌, ◌++◌, ◌↔◌, Some, IfSome, IfNone, drop, take};
    ghost use Rattle.std.specs.List.{list_all};
    ghost use Rattle.apply_model.specs.Script.Outcome.{fails, is_warned};
    ghost use Rattle.apply_events.specs.ChangeEvents.{change_events, first_time, span_of};
    ghost use Rattle.apply_events.specs.Fits.{HasStep, IsApplied};
    ghost use Rattle.apply_events.specs.Course.{GivesNext, beginning_of, ended_of};
    ghost use Rattle.apply_events.specs.Runner.{course_of, left_of, to_come};
    ghost use Rattle.apply_events.specs.RunnerStep.{left_before, rest_of, step_at_hand};
    ghost use Rattle.apply_events.specs.Step.{has_warning};
    ghost use Rattle.apply_events.specs.StepEvents.{goes_on, seconds_of};
    ghost use Rattle.apply_events.specs.Stages.{IsUnderWay, later_events, events_from, from_stage, halt_after};

    /// The runner of a change that begins after `at` seconds. Two steps of a day must end by
    /// `LATEST`.
    pub fn start(
        plan: &'a Plan,
        script: &'a Script,
        registry: &'a Registry,
        worker: u8,
        change: u32,
        at: u64,
    ) -> Runner<'a>
        requires change { change < length plan.now.changes }
        requires in_time { at + max_span ≤ latest_second }
        ensures course { course_of result ≡ record {
          work = record { plan = plan.now; script = script.now; hooks = rules_of registry.now };
          worker = worker;
          change = change;
          begin = at;
        } }
        ensures events { to_come result ≡ change_events (course_of result).work worker change at }
    {
        Runner {
            plan,
            script,
            registry,
            worker,
            change,
            begin: at,
            step: 0,
            at,
            stage: Stage::Before,
        }
    }

    /// The runner of a change whose first step has gone on. The second step begins after `at`
    /// seconds, so the change began earlier by the time of the first step.
    pub(crate) fn resume(
        plan: &'a Plan,
        script: &'a Script,
        registry: &'a Registry,
        worker: u8,
        change: u32,
        at: u64,
    ) -> Runner<'a>
        requires has_step { IsApplied plan.now script.now change 0 }
        requires change { change < length plan.now.changes }
        requires went_on { list_all goes_on (take 1 (steps_of (record { plan = plan.now; script = script.now; hooks = rules_of registry.now }) change)) ≡ true }
        requires late { first_time (record { plan = plan.now; script = script.now; hooks = rules_of registry.now }) change ≤ at }
        requires in_time { at + max_seconds ≤ latest_second }
        ensures course { course_of result ≡ record {
          work = record { plan = plan.now; script = script.now; hooks = rules_of registry.now };
          worker = worker;
          change = change;
          begin = at - first_time (record { plan = plan.now; script = script.now; hooks = rules_of registry.now }) change;
        } }
        ensures events { to_come result ≡ events_from worker (drop 1 (steps_of (course_of result).work change)) at }
    {
        let before = first_seconds(plan, script, change);
        Runner {
            plan,
            script,
            registry,
            worker,
            change,
            begin: at - before as u64,
            step: 1,
            at,
            stage: Stage::Before,
        }
    }

    /// The next event. `None` where no event is left, now and in later calls.
    ///
    /// The call that returns the first event of a step asks the hooks before the step. The call
    /// that returns the last event before a possible halt asks the hooks after the step.
    pub fn next(&mut self) -> Option<Event>
        ensures next { GivesNext (to_come self.old) result (to_come self.new) }
        ensures has_step { IfSome result
            (λ event. HasStep (course_of self.old).work.plan event.change event.step) }
        ensures worker { IfSome result (λ event. event.worker ≡ (course_of self.old).worker) }
        ensures in_time { IfSome result (λ event. event.at ≤ latest_second) }
        ensures course { course_of self.new ≡ course_of self.old }
    {
        let Some(kind) = self.kind() else {
            return None;
        };
        match self.stage {
            Stage::Before => Some(self.begin(kind)),
            Stage::Running(mid) => Some(self.emit_running(kind, mid)),
            Stage::Noting => Some(self.note(kind)),
            Stage::Halting(hook) => Some(self.halt(kind, hook)),
            Stage::Over => None,
        }
    }

    /// Asks the hooks before the step. Starts the step, or halts.
    fn begin(&mut self, kind: StepKind) -> Event
        requires step { left_of self.old ≡ step_at_hand self.old kind ∷ rest_of self.old }
        requires few { self.old.step < 2 }
        requires stage { self.old.stage ≡ Stage.Before }
        ensures next { to_come self.old ≡ result ∷ to_come self.new }
        ensures place { (result.worker ≡ self.old.worker) × (result.change ≡ self.old.change)
            × (result.step ≡ self.old.step) }
        ensures in_time { result.at ≤ latest_second }
        ensures course { course_of self.new ≡ course_of self.old }
    {
        match self.halting(Phase::Pre, kind) {
            Some(hook) => {
                let event = self.event(
                    self.at,
                    What::Halted {
                        phase: Phase::Pre,
                        hook,
                    },
                );
                self.stage = Stage::Over;
                event
            }
            None => {
                let event = self.event(self.at, What::Start);
                self.stage = Stage::Running(MidStep::new());
                event
            }
        }
    }

    /// Emits the next event of a running step: progress, an event of a provisioner, or the end. A
    /// step without an end event has its warning there.
    fn emit_running(&mut self, kind: StepKind, mid: MidStep) -> Event
        requires step { left_of self.old ≡ step_at_hand self.old kind ∷ rest_of self.old }
        requires few { self.old.step < 2 }
        requires stage { self.old.stage ≡ Stage.Running mid }
        ensures next { to_come self.old ≡ result ∷ to_come self.new }
        ensures place { (result.worker ≡ self.old.worker) × (result.change ≡ self.old.change)
            × (result.step ≡ self.old.step) }
        ensures in_time { result.at ≤ latest_second }
        ensures course { course_of self.new ≡ course_of self.old }
    {
        let mut mid = mid;
        if let Some((after, what)) = self.happens(kind, &mut mid) {
            self.stage = Stage::Running(mid);
            return self.event(self.at + after as u64, what);
        }
        let facts = self.facts(kind);
        if !facts.emits_end() {
            self.stage = Stage::Noting;
            return self.note(kind);
        }
        let event = self.event(self.at + facts.seconds as u64, facts.end());
        if facts.has_note() {
            self.stage = Stage::Noting;
        } else {
            self.finish(kind);
        }
        event
    }

    /// The next event of the current step before its end, and after how many seconds it comes.
    fn happens(&self, kind: StepKind, mid: &mut MidStep) -> Option<(u32, What)>
        ensures next { GivesNext (left_before self.now kind mid.old) result (left_before self.now kind mid.new) }
        ensures in_time { IfSome result (λ emitted. emitted.0 ≤ max_seconds) }
    {
        match self.script.outcome(self.change, self.step) {
            Some(outcome) => mid.next(outcome, kind),
            None => None,
        }
    }

    /// Emits the error or the warning at the end of the step.
    fn note(&mut self, kind: StepKind) -> Event
        requires step { left_of self.old ≡ step_at_hand self.old kind ∷ rest_of self.old }
        requires few { self.old.step < 2 }
        requires stage { self.old.stage ≡ Stage.Noting }
        ensures next { to_come self.old ≡ result ∷ to_come self.new }
        ensures place { (result.worker ≡ self.old.worker) × (result.change ≡ self.old.change)
            × (result.step ≡ self.old.step) }
        ensures in_time { result.at ≤ latest_second }
        ensures course { course_of self.new ≡ course_of self.old }
    {
        let facts = self.facts(kind);
        let event = self.event(self.at + facts.seconds as u64, facts.note());
        self.finish(kind);
        event
    }

    /// Emits the halt after the step.
    fn halt(&mut self, kind: StepKind, hook: u8) -> Event
        requires step { left_of self.old ≡ step_at_hand self.old kind ∷ rest_of self.old }
        requires few { self.old.step < 2 }
        requires stage { self.old.stage ≡ Stage.Halting hook }
        ensures next { to_come self.old ≡ result ∷ to_come self.new }
        ensures place { (result.worker ≡ self.old.worker) × (result.change ≡ self.old.change)
            × (result.step ≡ self.old.step) }
        ensures in_time { result.at ≤ latest_second }
        ensures course { course_of self.new ≡ course_of self.old }
    {
        let facts = self.facts(kind);
        let phase = facts.phase_after();
        let event = self.event(self.at + facts.seconds as u64, What::Halted { phase, hook });
        self.advance(kind, Stage::Over);
        event
    }

    /// Asks the hooks after the step. All other events of the step were emitted.
    fn finish(&mut self, kind: StepKind)
        requires step { IsUnderWay (steps_of (course_of self.old).work self.old.change) self.old.step
            (step_at_hand self.old kind) self.old.begin self.old.at }
        requires few { self.old.step < 2 }
        ensures next { to_come self.new ≡ halt_after self.old.worker (step_at_hand self.old kind) self.old.at
            ++ later_events self.old.worker (step_at_hand self.old kind) (rest_of self.old) self.old.at }
        ensures course { course_of self.new ≡ course_of self.old }
    {
        let facts = self.facts(kind);
        match self.halting(facts.phase_after(), kind) {
            Some(hook) => self.stage = Stage::Halting(hook),
            None if facts.fails => self.advance(kind, Stage::Over),
            None => self.advance(kind, Stage::Before),
        }
    }

    /// Goes on to the next step, at that stage.
    fn advance(&mut self, kind: StepKind, stage: Stage)
        requires few { self.old.step < 2 }
        requires time { self.old.at + seconds_of (step_at_hand self.old kind)
            ≡ self.old.begin + time_before (steps_of (course_of self.old).work self.old.change) (self.old.step + 1) stage }
        requires course { is_on_course (steps_of (course_of self.old).work self.old.change) (self.old.step + 1) stage ≡ true }
        ensures next { to_come self.new ≡ from_stage self.old.worker (rest_of self.old)
            (self.old.at + seconds_of (step_at_hand self.old kind)) stage }
        ensures course { course_of self.new ≡ course_of self.old }
    {
        let seconds = self.facts(kind).seconds;
        self.at += seconds as u64;
        self.step += 1;
        self.stage = stage;
    }

    /// The number of the step that begins with the next event. `None` where the next event begins
    /// no step.
    pub fn begins(&self) -> Option<u8>
        ensures { result ≡ beginning_of (to_come self.now) }
    {
        let _kind = self.kind()?;
        match self.stage {
            Stage::Before => Some(self.step),
            Stage::Running(_) | Stage::Noting | Stage::Halting(_) | Stage::Over => None,
        }
    }

    /// The end of the change so far, in seconds: its begin plus the times of the steps that emitted
    /// their last event. After `next` returned `None` the whole change counts.
    pub fn ended_at(&self) -> u64
        ensures ended { result ≡ ended_of (course_of self.now) (to_come self.now) }
        ensures whole { to_come self.now ≡ [] → result ≡ (course_of self.now).begin
            + span_of (course_of self.now).work (course_of self.now).change }
        ensures in_time { result ≤ (course_of self.now).begin + max_span }
    {
        self.at
    }

    /// The kind of the current step. `None` after the last applied step.
    fn kind(&self) -> Option<StepKind>
        ensures step { IfSome result (λ kind. left_of self.now ≡ step_at_hand self.now kind ∷ rest_of self.now) }
        ensures few { IfSome result (λ _. self.now.step < 2) }
        ensures has_step { IfSome result (λ _. HasStep self.now.plan.now self.now.change self.now.step) }
        ensures none { IfNone result (left_of self.now ≡ []) }
    {
        kind_at(
            applied_steps(self.plan, self.script, self.change),
            self.step,
        )
    }

    /// The facts of the current step.
    fn facts(&self, kind: StepKind) -> StepFacts
        ensures seconds { result.seconds ≡ took kind (outcome_of self.now.script.now self.now.change self.now.step) }
        ensures fails { result.fails ≡ fails (outcome_of self.now.script.now self.now.change self.now.step) }
        ensures warns { result.warns ≡ has_warning (outcome_of self.now.script.now self.now.change self.now.step).result }
        ensures only_warns { result.only_warns ≡ is_warned (outcome_of self.now.script.now self.now.change self.now.step).result }
        ensures few { result.seconds ≤ max_seconds }
    {
        StepFacts::new(self.script, self.change, self.step, kind)
    }

    /// An event of the current step.
    fn event(&self, at: u64, what: What) -> Event
        ensures { result ≡ record {
          worker = self.now.worker;
          change = self.now.change;
          step = self.now.step;
          what = what;
          at = at;
        } }
    {
        Event {
            worker: self.worker,
            change: self.change,
            step: self.step,
            what,
            at,
        }
    }

    /// The number of the first hook that halts the step in the phase. `None` where no hook halts.
    fn halting(&self, phase: Phase, kind: StepKind) -> Option<u8>
        ensures { result ≡ (step_at_hand self.now kind).halts phase }
    {
        let asked = self.registry.ask(&HookCall {
            phase,
            kind,
            address: self.plan.change(self.change).address(),
        });
        match asked {
            Asked::HaltedBy(hook) => Some(hook),
            Asked::Go => None,
        }
    }
}

/// How long the first step of a change takes if no hook halts it before its start, in seconds. It
/// is 0 where no step is applied.
fn first_seconds(plan: &Plan, script: &Script, change: u32) -> u32
    requires { change < length plan.now.changes }
    ensures seconds { result ≡ option_map_or (λ kind. took kind (outcome_of script.now change 0))
        (slice_get (kinds_applied plan.now script.now change) 0) 0 }
    ensures few { result ≤ max_seconds }
{
    match kind_at(applied_steps(plan, script, change), 0) {
        Some(kind) => StepFacts::new(script, change, 0, kind).seconds,
        None => 0,
    }
}
