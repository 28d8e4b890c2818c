//! Lines through one buffer equal lines through a new buffer, whatever the buffer wrote before.

use super::*;

/// Fails when a used buffer and a new one write different lines for the first step of a change.
/// Returns the line.
fn written_alike(
    rt: &impl Abort,
    alloc: Global,
    used: &mut TerraformBuffer,
    plan: &Plan,
    change: u32,
    seconds: u32,
) -> &'static [u8] {
    let event = Event {
        worker: 0,
        change,
        step: 0,
        what: What::Progress(seconds),
        at: 0,
    };
    let script = script_of(rt, alloc, NO_OUTCOMES, plan);
    let mut new = TerraformBuffer::new(alloc);
    check_step(rt, plan, &event);
    let pushed = new.push_event(plan, script, Start::zero(), 0, None, &event);
    pushed.ok().expect(rt, "memory");
    used.clear();
    let pushed = used.push_event(plan, script, Start::zero(), 0, None, &event);
    pushed.ok().expect(rt, "memory");
    let alone = leaked(rt, alloc, new).as_bytes();
    holds(rt, "a line by itself", used.as_bytes() == alone);
    alone
}

/// Plans of one change. Each change shows something else, or has another step.
const LOOK_ALIKES: &str =
    r#"{"format_version":"1.2","resource_changes":[{"address":"module.a.module.b.t_u.n","module_address":"module.a","mode":"managed","type":"t_u","name":"n","change":{"actions":["update"]}}]}
{"format_version":"1.2","resource_changes":[{"address":"module.a.module.c.t_u.n","module_address":"module.a","mode":"managed","type":"t_u","name":"n","change":{"actions":["update"]}}]}
{"format_version":"1.2","resource_changes":[{"address":"module.a.module.b.t_u.n","module_address":"module.a.module.b","mode":"managed","type":"t_u","name":"n","change":{"actions":["update"]}}]}
{"format_version":"1.2","resource_changes":[{"address":"module.a.module.b.t_u.n","module_address":"module.a","mode":"managed","type":"t_v","name":"n","change":{"actions":["update"]}}]}
{"format_version":"1.2","resource_changes":[{"address":"module.a.module.b.t_u.n","module_address":"module.a","mode":"managed","type":"t_u","name":"m","change":{"actions":["update"]}}]}
{"format_version":"1.2","resource_changes":[{"address":"module.a.module.b.t_u.n","module_address":"module.a","mode":"managed","type":"t_u","name":"n","index":0,"change":{"actions":["update"]}}]}
{"format_version":"1.2","resource_changes":[{"address":"module.a.module.b.t_u.n","module_address":"module.a","mode":"managed","type":"t_u","name":"n","index":"0","change":{"actions":["update"]}}]}
{"format_version":"1.2","resource_changes":[{"address":"module.a.module.b.t_u.n","module_address":"module.a","mode":"managed","type":"t_u","name":"n","index":"null","change":{"actions":["update"]}}]}
{"format_version":"1.2","resource_changes":[{"address":"module.a.module.b.t_u.n","module_address":"module.a","mode":"managed","type":"t_u","name":"n","change":{"actions":["create"]}}]}
{"format_version":"1.2","resource_changes":[{"address":"module.a.module.b.t_u.n[\"<\"]","module_address":"module.a","mode":"managed","type":"t_u","name":"n","index":"<","change":{"actions":["update"]}}]}
{"format_version":"1.2","resource_changes":[{"address":"module.a.module.b.t_u.n[\">&\u2028\"]","module_address":"module.a","mode":"managed","type":"t_u","name":"n","index":">&\u2028","change":{"actions":["update"]}}]}"#;

/// Fails when the line of a plan's change differs, before or after a line of another plan.
fn compare_with_each(rt: &impl Abort, alloc: Global, used: &mut TerraformBuffer, plan: &Plan) {
    for other in LOOK_ALIKES.lines() {
        written_alike(rt, alloc, used, plan, 0, 20);
        written_alike(rt, alloc, used, plan_of(rt, alloc, other), 0, 20);
    }
}

/// Every plan after every plan, and after itself.
#[test]
fn changes_that_look_alike_are_told_apart(rt: HostRuntime) {
    let mut used = TerraformBuffer::new(rt.alloc());
    for plan in LOOK_ALIKES.lines() {
        let plan = plan_of(&rt, rt.alloc(), plan);
        compare_with_each(&rt, rt.alloc(), &mut used, plan);
    }
}

/// One change of many. `%` stands for its number.
const UPDATE: &str =
    r##"{"address":"a.b[\"%<&>\u2028é\"]","mode":"managed","type":"a","name":"b","index":"%<&>\u2028é","change":{"actions":["update"]}}"##;

/// The line of that change.
const UPDATE_LINE: &str =
    r##"{"@level":"info","@message":"a.b[\"%\u003c\u0026\u003e\u2028é\"]: Still modifying... [#s elapsed]","@module":"terraform.ui","@timestamp":"1970-01-01T00:00:00.000000Z","hook":{"resource":{"addr":"a.b[\"%\u003c\u0026\u003e\u2028é\"]","module":"","resource":"a.b[\"%\u003c\u0026\u003e\u2028é\"]","implied_provider":"a","resource_type":"a","resource_name":"b","resource_key":"%\u003c\u0026\u003e\u2028é"},"action":"update","elapsed_seconds":#},"type":"apply_progress"}
"##;

/// More changes than the cache has slots.
const UPDATES: u32 = 130;

/// Replaces each mark by a number.
fn put(rt: &impl Abort, alloc: Global, text: &str, mark: &str, number: u32) -> &'static str {
    let number = number.to_string(alloc).expect(rt, "memory");
    let text = text.replace(alloc, mark, leaked(rt, alloc, number).as_str());
    leaked(rt, alloc, text.expect(rt, "memory")).as_str()
}

/// A plan of so many updates.
fn updates(rt: &impl Abort, alloc: Global) -> &'static Plan {
    let mut text = String::new(alloc);
    let begun = text.push_str(r#"{"format_version":"1.2","resource_changes":["#);
    begun.expect(rt, "memory");
    for number in 1..UPDATES {
        let change = put(rt, alloc, UPDATE, "%", number);
        write!(text, "{change},").expect(rt, "memory");
    }
    let last = put(rt, alloc, UPDATE, "%", UPDATES);
    write!(text, "{last}]}}").expect(rt, "memory");
    plan_of(rt, alloc, leaked(rt, alloc, text).as_str())
}

/// Fails when the line of an update differs.
fn compare_updates(
    rt: &impl Abort,
    alloc: Global,
    used: &mut TerraformBuffer,
    plan: &Plan,
    seconds: u32,
) {
    for change in 0..UPDATES {
        let line = put(rt, alloc, UPDATE_LINE, "%", change + 1);
        let line = put(rt, alloc, line, "#", seconds);
        let given = written_alike(rt, alloc, used, plan, change, seconds);
        compare(rt, "an update", given, line);
    }
}

/// All updates run at once, and report progress again and again.
#[test]
fn more_changes_than_slots_are_written_in_turn(rt: HostRuntime) {
    let alloc = rt.alloc();
    let plan = updates(&rt, alloc);
    let mut used = TerraformBuffer::new(alloc);
    compare_updates(&rt, alloc, &mut used, plan, 10);
    compare_updates(&rt, alloc, &mut used, plan, 20);
    compare_updates(&rt, alloc, &mut used, plan, 30);
}
