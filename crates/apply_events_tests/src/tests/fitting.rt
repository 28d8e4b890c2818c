//! The events that can happen, the events of the plan, and the events that are diagnostics.

use super::*;

/// Each row has the actions of a change, the steps of a script, and the tried events that can
/// happen, with their steps. A skipped step and the steps after it have no event. A read that only
/// warns neither completes nor fails.
const FITTING: &str =
    r#"["delete","create"] => [{"seconds":10}] => (0, Start); (0, Complete(10)); (0, Halted { phase: Pre, hook: 31 }); (0, Halted { phase: PostDone, hook: 0 }); (1, Start); (1, Complete(0)); (1, Halted { phase: Pre, hook: 31 }); (1, Halted { phase: PostDone, hook: 0 });
["delete","create"] => [{"seconds":11,"warning":{"summary":"slow"}}] => (0, Start); (0, Progress(10)); (0, Complete(11)); (0, WarnNote); (0, Halted { phase: Pre, hook: 31 }); (0, Halted { phase: PostDone, hook: 0 }); (1, Start); (1, Complete(0)); (1, Halted { phase: Pre, hook: 31 }); (1, Halted { phase: PostDone, hook: 0 });
["delete","create"] => [{"seconds":25,"failed":{"summary":"boom"}}] => (0, Start); (0, Progress(10)); (0, Progress(20)); (0, Errored(25)); (0, ErrorNote); (0, Halted { phase: Pre, hook: 31 }); (0, Halted { phase: PostFailed, hook: 0 }); (1, Start); (1, Complete(0)); (1, Halted { phase: Pre, hook: 31 }); (1, Halted { phase: PostDone, hook: 0 });
["delete","create"] => [{"seconds":0},{"seconds":1,"warning":{"summary":"slow"},"provisioners":[{"provisioner":"a","seconds":8,"output":["x","y"]},{"provisioner":"b","seconds":2}]}] => (0, Start); (0, Complete(0)); (0, Halted { phase: Pre, hook: 31 }); (0, Halted { phase: PostDone, hook: 0 }); (1, Start); (1, Progress(10)); (1, Complete(11)); (1, WarnNote); (1, Halted { phase: Pre, hook: 31 }); (1, Halted { phase: PostDone, hook: 0 }); (1, ProvisionStart(0)); (1, ProvisionOutput { prov: 0, line: 0 }); (1, ProvisionOutput { prov: 0, line: 1 }); (1, ProvisionComplete(0)); (1, ProvisionStart(1)); (1, ProvisionComplete(1));
["delete","create"] => [{"seconds":0},{"seconds":1,"warning":{"summary":"slow"},"provisioners":[{"provisioner":"a","seconds":9,"output":["x"],"failed":{"summary":"boom"}},{"provisioner":"b","seconds":15,"output":["y"]}]}] => (0, Start); (0, Complete(0)); (0, Halted { phase: Pre, hook: 31 }); (0, Halted { phase: PostDone, hook: 0 }); (1, Start); (1, Errored(10)); (1, ErrorNote); (1, Halted { phase: Pre, hook: 31 }); (1, Halted { phase: PostFailed, hook: 0 }); (1, ProvisionStart(0)); (1, ProvisionOutput { prov: 0, line: 0 }); (1, ProvisionErrored(0));
["delete","create"] => [{"seconds":10},{"skipped":true}] => (0, Start); (0, Complete(10)); (0, Halted { phase: Pre, hook: 31 }); (0, Halted { phase: PostDone, hook: 0 });
["delete","create"] => [{"skipped":true},{"seconds":5}] => 
["read"] => [{"seconds":10,"failed":{"severity":"warning","summary":"no"}}] => (0, Start); (0, WarnNote); (0, Halted { phase: Pre, hook: 31 }); (0, Halted { phase: PostDone, hook: 0 });"#;

/// The number of tried kinds. Kinds from `NOTES` on are errors, warnings and halts. Kinds from
/// `PROVISIONERS` on are events of provisioners.
const TRIED: u8 = 37;

const NOTES: u8 = 13;

const PROVISIONERS: u8 = 19;

/// The tried kind of that number.
fn numbered_what(number: u8) -> What {
    match number {
        0 => What::Start,
        1 => What::Progress(0),
        2 => What::Progress(5),
        3 => What::Progress(10),
        4 => What::Progress(20),
        5 => What::Progress(30),
        6 => What::Complete(0),
        7 => What::Complete(10),
        8 => What::Complete(11),
        9 => What::Complete(25),
        10 => What::Errored(10),
        11 => What::Errored(24),
        12 => What::Errored(25),
        13 => What::ErrorNote,
        14 => What::WarnNote,
        15 => What::Halted {
            phase: Phase::Pre,
            hook: 31,
        },
        16 => What::Halted {
            phase: Phase::Pre,
            hook: 32,
        },
        17 => What::Halted {
            phase: Phase::PostDone,
            hook: 0,
        },
        18 => What::Halted {
            phase: Phase::PostFailed,
            hook: 0,
        },
        _ => of_provisioner(number.wrapping_sub(PROVISIONERS)),
    }
}

/// The tried kind of that number, of six kinds for each of three provisioners.
fn of_provisioner(number: u8) -> What {
    let (prov, number) = (number / 6, number % 6);
    match number {
        0 => What::ProvisionStart(prov),
        1 => What::ProvisionOutput { prov, line: 0 },
        2 => What::ProvisionOutput { prov, line: 1 },
        3 => What::ProvisionOutput { prov, line: 2 },
        4 => What::ProvisionComplete(prov),
        _ => What::ProvisionErrored(prov),
    }
}

fn event(change: u32, step: u8, what: What, at: u64) -> Event {
    Event {
        worker: 200,
        change,
        step,
        what,
        at,
    }
}

/// The tried events of three steps that can happen.
fn fitting(rt: &impl Abort, alloc: Global, plan: &Plan, script: &Script) -> &'static str {
    let mut text = String::new(alloc);
    for number in 0..3 * TRIED {
        let (step, what) = (number / TRIED, numbered_what(number % TRIED));
        if fits(plan, script, &event(0, step, what, 0)) {
            push_value(rt, &mut text, "", &(step, what));
        }
    }
    leaked(rt, alloc, text).as_str()
}

/// Fails if other events can happen than the row lists. A row has the actions, the steps, and the
/// events.
fn row_fits(rt: &impl Abort, alloc: Global, row: &str) {
    let (actions, rest) = parted(rt, row);
    let (steps, wanted) = parted(rt, rest);
    let plan = plan_of(rt, alloc, actions);
    let actual = fitting(rt, alloc, plan, script_of(rt, alloc, plan, steps));
    text_is(rt, row, actual.trim_end(), wanted);
}

#[test]
fn events_that_can_happen(rt: HostRuntime) {
    for row in FITTING.lines() {
        row_fits(&rt, rt.alloc(), row);
    }
}

/// Fails if an event at that second belongs to the plan and should not, or the reverse. The event
/// is a completion at another time than the script states. A start there can happen if and only if
/// it belongs to the plan.
fn belongs_to_plan(
    rt: &impl Abort,
    plan: &Plan,
    script: &Script,
    change: u32,
    step: u8,
    at: u64,
    wanted: bool,
) {
    let completed = event(change, step, What::Complete(99), at);
    let actual = is_of_plan(plan, &completed);
    holds(rt, "an event of the plan", actual == wanted);
    let started = event(change, step, What::Start, at);
    let actual = fits(plan, script, &started);
    holds(rt, "a start", actual == wanted);
}

#[test]
fn events_of_the_plan_have_its_steps_and_come_in_time(rt: HostRuntime) {
    let plan = plan_of(&rt, rt.alloc(), REPLACEMENT);
    let script = script_of(&rt, rt.alloc(), plan, NO_SCRIPT);
    belongs_to_plan(&rt, plan, script, 0, 0, 0, true);
    belongs_to_plan(&rt, plan, script, 0, 1, LATEST, true);
    belongs_to_plan(&rt, plan, script, 0, 1, 1_728_000_001, false);
    belongs_to_plan(&rt, plan, script, 0, 2, 0, false);
    belongs_to_plan(&rt, plan, script, 1, 0, 0, false);
}

#[test]
fn errors_warnings_and_halts_are_notes(rt: HostRuntime) {
    for number in 0..TRIED {
        let noted = event(0, 0, numbered_what(number), 0).is_note();
        holds(
            &rt,
            "a note",
            noted == (NOTES <= number && number < PROVISIONERS),
        );
    }
}
