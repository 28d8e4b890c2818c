//! Lines through one buffer equal lines through a new buffer, whatever the buffer wrote before.

use super::*;

/// A progress event of a step.
fn progress_of(change: u32, step: u8, seconds: u32) -> Event {
    Event {
        worker: 0,
        change,
        step,
        what: What::Progress(seconds),
        at: 0,
    }
}

/// A buffer that lives as long as the test.
fn new_buffer(rt: &impl Abort, alloc: Global) -> &'static mut LineBuffer {
    Box::leak(Box::new(alloc, LineBuffer::new(alloc)).expect(rt, "memory"))
}

/// Appends the line of an event. The plan must have the event's step.
fn add(
    rt: &impl Abort,
    alloc: Global,
    buffer: &mut LineBuffer,
    plan: &Plan,
    start: Start,
    latest: u64,
    event: &Event,
) {
    check_step(rt, plan, event);
    holds(rt, "in time", latest <= LATEST);
    let script = empty_script(rt, alloc);
    let pushed = buffer.push_event(plan, script, start, latest, event);
    holds(rt, "memory", pushed.is_ok());
}

/// Fails when the line of an event differs, as a single line or as the only line of a used buffer.
fn compare_event_line(
    rt: &impl Abort,
    alloc: Global,
    buffer: &mut LineBuffer,
    plan: &Plan,
    start: Start,
    latest: u64,
    event: &Event,
    wanted: &str,
) {
    let script = empty_script(rt, alloc);
    let alone = line_of(rt, alloc, plan, script, start, latest, event);
    compare_line(rt, "a line by itself", alone, wanted);
    buffer.clear();
    add(rt, alloc, buffer, plan, start, latest, event);
    has_lines(rt, wanted, buffer, alone);
}

/// Fails when the buffer holds other lines.
fn has_lines(rt: &impl Abort, case: &str, buffer: &LineBuffer, wanted: &str) {
    holds(rt, case, buffer.as_bytes() == wanted.as_bytes());
}

/// Each row: a case, a plan of one change, and its line after 20 seconds. Each change shows
/// something else, or has another step.
const CHANGES: &str =
    r#"the first => {"format_version":"1.2","terraform_version":"1.9.0","resource_changes":[{"address":"module.a.module.b.t_u.n","module_address":"module.a","mode":"managed","type":"t_u","name":"n","change":{"actions":["update"]}}]} => {"@level":"info","@message":"module.a.module.b.t_u.n: Still modifying... [20s elapsed]","@module":"terraform.ui","@timestamp":"1970-01-01T00:00:20Z","hook":{"action":"update","elapsed_seconds":20,"resource":{"addr":"module.a.module.b.t_u.n","implied_provider":"t","module":"module.a","resource":"module.b.t_u.n","resource_key":null,"resource_name":"n","resource_type":"t_u"}},"type":"apply_progress"}
another address => {"format_version":"1.2","terraform_version":"1.9.0","resource_changes":[{"address":"module.a.module.c.t_u.n","module_address":"module.a","mode":"managed","type":"t_u","name":"n","change":{"actions":["update"]}}]} => {"@level":"info","@message":"module.a.module.c.t_u.n: Still modifying... [20s elapsed]","@module":"terraform.ui","@timestamp":"1970-01-01T00:00:20Z","hook":{"action":"update","elapsed_seconds":20,"resource":{"addr":"module.a.module.c.t_u.n","implied_provider":"t","module":"module.a","resource":"module.c.t_u.n","resource_key":null,"resource_name":"n","resource_type":"t_u"}},"type":"apply_progress"}
another module => {"format_version":"1.2","terraform_version":"1.9.0","resource_changes":[{"address":"module.a.module.b.t_u.n","module_address":"module.a.module.b","mode":"managed","type":"t_u","name":"n","change":{"actions":["update"]}}]} => {"@level":"info","@message":"module.a.module.b.t_u.n: Still modifying... [20s elapsed]","@module":"terraform.ui","@timestamp":"1970-01-01T00:00:20Z","hook":{"action":"update","elapsed_seconds":20,"resource":{"addr":"module.a.module.b.t_u.n","implied_provider":"t","module":"module.a.module.b","resource":"t_u.n","resource_key":null,"resource_name":"n","resource_type":"t_u"}},"type":"apply_progress"}
another type => {"format_version":"1.2","terraform_version":"1.9.0","resource_changes":[{"address":"module.a.module.b.t_u.n","module_address":"module.a","mode":"managed","type":"t_v","name":"n","change":{"actions":["update"]}}]} => {"@level":"info","@message":"module.a.module.b.t_u.n: Still modifying... [20s elapsed]","@module":"terraform.ui","@timestamp":"1970-01-01T00:00:20Z","hook":{"action":"update","elapsed_seconds":20,"resource":{"addr":"module.a.module.b.t_u.n","implied_provider":"t","module":"module.a","resource":"module.b.t_u.n","resource_key":null,"resource_name":"n","resource_type":"t_v"}},"type":"apply_progress"}
another name => {"format_version":"1.2","terraform_version":"1.9.0","resource_changes":[{"address":"module.a.module.b.t_u.n","module_address":"module.a","mode":"managed","type":"t_u","name":"m","change":{"actions":["update"]}}]} => {"@level":"info","@message":"module.a.module.b.t_u.n: Still modifying... [20s elapsed]","@module":"terraform.ui","@timestamp":"1970-01-01T00:00:20Z","hook":{"action":"update","elapsed_seconds":20,"resource":{"addr":"module.a.module.b.t_u.n","implied_provider":"t","module":"module.a","resource":"module.b.t_u.n","resource_key":null,"resource_name":"m","resource_type":"t_u"}},"type":"apply_progress"}
a number => {"format_version":"1.2","terraform_version":"1.9.0","resource_changes":[{"address":"module.a.module.b.t_u.n","module_address":"module.a","mode":"managed","type":"t_u","name":"n","index":0,"change":{"actions":["update"]}}]} => {"@level":"info","@message":"module.a.module.b.t_u.n: Still modifying... [20s elapsed]","@module":"terraform.ui","@timestamp":"1970-01-01T00:00:20Z","hook":{"action":"update","elapsed_seconds":20,"resource":{"addr":"module.a.module.b.t_u.n","implied_provider":"t","module":"module.a","resource":"module.b.t_u.n","resource_key":0,"resource_name":"n","resource_type":"t_u"}},"type":"apply_progress"}
another number => {"format_version":"1.2","terraform_version":"1.9.0","resource_changes":[{"address":"module.a.module.b.t_u.n","module_address":"module.a","mode":"managed","type":"t_u","name":"n","index":-1,"change":{"actions":["update"]}}]} => {"@level":"info","@message":"module.a.module.b.t_u.n: Still modifying... [20s elapsed]","@module":"terraform.ui","@timestamp":"1970-01-01T00:00:20Z","hook":{"action":"update","elapsed_seconds":20,"resource":{"addr":"module.a.module.b.t_u.n","implied_provider":"t","module":"module.a","resource":"module.b.t_u.n","resource_key":-1,"resource_name":"n","resource_type":"t_u"}},"type":"apply_progress"}
a name that reads as the number => {"format_version":"1.2","terraform_version":"1.9.0","resource_changes":[{"address":"module.a.module.b.t_u.n","module_address":"module.a","mode":"managed","type":"t_u","name":"n","index":"0","change":{"actions":["update"]}}]} => {"@level":"info","@message":"module.a.module.b.t_u.n: Still modifying... [20s elapsed]","@module":"terraform.ui","@timestamp":"1970-01-01T00:00:20Z","hook":{"action":"update","elapsed_seconds":20,"resource":{"addr":"module.a.module.b.t_u.n","implied_provider":"t","module":"module.a","resource":"module.b.t_u.n","resource_key":"0","resource_name":"n","resource_type":"t_u"}},"type":"apply_progress"}
a name that reads as no key => {"format_version":"1.2","terraform_version":"1.9.0","resource_changes":[{"address":"module.a.module.b.t_u.n","module_address":"module.a","mode":"managed","type":"t_u","name":"n","index":"null","change":{"actions":["update"]}}]} => {"@level":"info","@message":"module.a.module.b.t_u.n: Still modifying... [20s elapsed]","@module":"terraform.ui","@timestamp":"1970-01-01T00:00:20Z","hook":{"action":"update","elapsed_seconds":20,"resource":{"addr":"module.a.module.b.t_u.n","implied_provider":"t","module":"module.a","resource":"module.b.t_u.n","resource_key":"null","resource_name":"n","resource_type":"t_u"}},"type":"apply_progress"}
an empty name => {"format_version":"1.2","terraform_version":"1.9.0","resource_changes":[{"address":"module.a.module.b.t_u.n","module_address":"module.a","mode":"managed","type":"t_u","name":"n","index":"","change":{"actions":["update"]}}]} => {"@level":"info","@message":"module.a.module.b.t_u.n: Still modifying... [20s elapsed]","@module":"terraform.ui","@timestamp":"1970-01-01T00:00:20Z","hook":{"action":"update","elapsed_seconds":20,"resource":{"addr":"module.a.module.b.t_u.n","implied_provider":"t","module":"module.a","resource":"module.b.t_u.n","resource_key":"","resource_name":"n","resource_type":"t_u"}},"type":"apply_progress"}
a create => {"format_version":"1.2","terraform_version":"1.9.0","resource_changes":[{"address":"module.a.module.b.t_u.n","module_address":"module.a","mode":"managed","type":"t_u","name":"n","change":{"actions":["create"]}}]} => {"@level":"info","@message":"module.a.module.b.t_u.n: Still creating... [20s elapsed]","@module":"terraform.ui","@timestamp":"1970-01-01T00:00:20Z","hook":{"action":"create","elapsed_seconds":20,"resource":{"addr":"module.a.module.b.t_u.n","implied_provider":"t","module":"module.a","resource":"module.b.t_u.n","resource_key":null,"resource_name":"n","resource_type":"t_u"}},"type":"apply_progress"}
a delete => {"format_version":"1.2","terraform_version":"1.9.0","resource_changes":[{"address":"module.a.module.b.t_u.n","module_address":"module.a","mode":"managed","type":"t_u","name":"n","change":{"actions":["delete"]}}]} => {"@level":"info","@message":"module.a.module.b.t_u.n: Still destroying... [20s elapsed]","@module":"terraform.ui","@timestamp":"1970-01-01T00:00:20Z","hook":{"action":"delete","elapsed_seconds":20,"resource":{"addr":"module.a.module.b.t_u.n","implied_provider":"t","module":"module.a","resource":"module.b.t_u.n","resource_key":null,"resource_name":"n","resource_type":"t_u"}},"type":"apply_progress"}
a name with a quotation mark => {"format_version":"1.2","terraform_version":"1.9.0","resource_changes":[{"address":"module.a.module.b.t_u.n[\"\\é\n\"]","module_address":"module.a","mode":"managed","type":"t_u","name":"n","index":"\\é\n\"","change":{"actions":["update"]}}]} => {"@level":"info","@message":"module.a.module.b.t_u.n[\"\\é\n\"]: Still modifying... [20s elapsed]","@module":"terraform.ui","@timestamp":"1970-01-01T00:00:20Z","hook":{"action":"update","elapsed_seconds":20,"resource":{"addr":"module.a.module.b.t_u.n[\"\\é\n\"]","implied_provider":"t","module":"module.a","resource":"module.b.t_u.n[\"\\é\n\"]","resource_key":"\\é\n\"","resource_name":"n","resource_type":"t_u"}},"type":"apply_progress"}"#;

/// Fails when the line of the row's only change differs.
fn is_shown(rt: &impl Abort, alloc: Global, buffer: &mut LineBuffer, row: &str) {
    let (_, rest) = parted(rt, row, " => ");
    let (plan, wanted) = parted(rt, rest, " => ");
    let plan = plan_of(rt, alloc, plan);
    let event = progress_of(0, 0, 20);
    compare_event_line(rt, alloc, buffer, plan, Start::zero(), 20, &event, wanted);
}

/// Fails when the line of a row's change differs, before or after a line of another row.
fn compare_with_each(rt: &impl Abort, alloc: Global, buffer: &mut LineBuffer, row: &str) {
    for other in CHANGES.lines() {
        is_shown(rt, alloc, buffer, row);
        is_shown(rt, alloc, buffer, other);
    }
}

/// Every row after every row, and after itself.
#[test]
fn changes_of_one_number_are_told_apart(rt: HostRuntime) {
    let buffer = new_buffer(&rt, rt.alloc());
    for row in CHANGES.lines() {
        compare_with_each(&rt, rt.alloc(), buffer, row);
    }
}

/// One change of many. `%` stands for its number.
const UPDATE: &str =
    r#"{"address":"a.b%","mode":"managed","type":"a","name":"b%","change":{"actions":["update"]}}"#;

/// The line of that change. `#` stands for its seconds.
const UPDATE_LINE: &str =
    r#"{"@level":"info","@message":"a.b%: Still modifying... [#s elapsed]","@module":"terraform.ui","@timestamp":"1970-01-01T00:00:00Z","hook":{"action":"update","elapsed_seconds":#,"resource":{"addr":"a.b%","implied_provider":"a","module":"","resource":"a.b%","resource_key":null,"resource_name":"b%","resource_type":"a"}},"type":"apply_progress"}"#;

/// Appends the update with that number, and then `behind`.
fn push_update(rt: &impl Abort, alloc: Global, text: &mut String, number: u32, behind: &str) {
    let number = shown(rt, alloc, &number);
    push(rt, text, put(rt, alloc, UPDATE, "%", number));
    push(rt, text, behind);
}

/// The plan up to its updates.
const BEFORE_UPDATES: &str = r#"{"format_version":"1.2","resource_changes":["#;

/// A plan of 129 updates.
fn updates(rt: &impl Abort, alloc: Global) -> &'static Plan {
    let mut text = String::new(alloc);
    push(rt, &mut text, BEFORE_UPDATES);
    for number in 0..128 {
        push_update(rt, alloc, &mut text, number, ",");
    }
    push_update(rt, alloc, &mut text, 128, "]}");
    plan_of(rt, alloc, leaked(rt, alloc, text).as_str())
}

/// Numbers of changes, and seconds. The rows share a row of the cache, once and again, and others
/// stand between them.
const PLACES: &str = "0 20
64 20
128 20
0 30
64 30
0 40
128 30
63 20
127 20
63 30
65 20
1 20
65 30
0 50";

/// Fails when the line of a row's update differs.
fn compare_update(rt: &impl Abort, alloc: Global, buffer: &mut LineBuffer, plan: &Plan, row: &str) {
    let (number, seconds) = parted(rt, row, " ");
    let line = put(rt, alloc, UPDATE_LINE, "%", number);
    let line = put(rt, alloc, line, "#", seconds);
    let event = progress_of(number_of(rt, number), 0, number_of(rt, seconds));
    compare_event_line(rt, alloc, buffer, plan, Start::zero(), 0, &event, line);
}

#[test]
fn changes_that_share_a_row_are_written_in_turn(rt: HostRuntime) {
    let alloc = rt.alloc();
    let plan = updates(&rt, alloc);
    let buffer = new_buffer(&rt, alloc);
    for row in PLACES.lines() {
        compare_update(&rt, alloc, buffer, plan, row);
    }
}

/// A replacement that destroys first.
const REPLACEMENT: &str =
    r#"{"format_version":"1.2","terraform_version":"1.9.0","resource_changes":[{"address":"a.b","mode":"managed","type":"a","name":"b","change":{"actions":["delete","create"]}}]}"#;

/// The steps of the replacement, the seconds, and their lines.
const STEPS: &str =
    r#"0 20 => {"@level":"info","@message":"a.b: Still destroying... [20s elapsed]","@module":"terraform.ui","@timestamp":"1970-01-01T00:00:00Z","hook":{"action":"delete","elapsed_seconds":20,"resource":{"addr":"a.b","implied_provider":"a","module":"","resource":"a.b","resource_key":null,"resource_name":"b","resource_type":"a"}},"type":"apply_progress"}
0 30 => {"@level":"info","@message":"a.b: Still destroying... [30s elapsed]","@module":"terraform.ui","@timestamp":"1970-01-01T00:00:00Z","hook":{"action":"delete","elapsed_seconds":30,"resource":{"addr":"a.b","implied_provider":"a","module":"","resource":"a.b","resource_key":null,"resource_name":"b","resource_type":"a"}},"type":"apply_progress"}
1 20 => {"@level":"info","@message":"a.b: Still creating... [20s elapsed]","@module":"terraform.ui","@timestamp":"1970-01-01T00:00:00Z","hook":{"action":"create","elapsed_seconds":20,"resource":{"addr":"a.b","implied_provider":"a","module":"","resource":"a.b","resource_key":null,"resource_name":"b","resource_type":"a"}},"type":"apply_progress"}
0 3600 => {"@level":"info","@message":"a.b: Still destroying... [1h0m0s elapsed]","@module":"terraform.ui","@timestamp":"1970-01-01T00:00:00Z","hook":{"action":"delete","elapsed_seconds":3600,"resource":{"addr":"a.b","implied_provider":"a","module":"","resource":"a.b","resource_key":null,"resource_name":"b","resource_type":"a"}},"type":"apply_progress"}
1 30 => {"@level":"info","@message":"a.b: Still creating... [30s elapsed]","@module":"terraform.ui","@timestamp":"1970-01-01T00:00:00Z","hook":{"action":"create","elapsed_seconds":30,"resource":{"addr":"a.b","implied_provider":"a","module":"","resource":"a.b","resource_key":null,"resource_name":"b","resource_type":"a"}},"type":"apply_progress"}
1 86390 => {"@level":"info","@message":"a.b: Still creating... [23h59m50s elapsed]","@module":"terraform.ui","@timestamp":"1970-01-01T00:00:00Z","hook":{"action":"create","elapsed_seconds":86390,"resource":{"addr":"a.b","implied_provider":"a","module":"","resource":"a.b","resource_key":null,"resource_name":"b","resource_type":"a"}},"type":"apply_progress"}"#;

/// Appends the line of a row to a buffer, and to the expected lines.
fn add_step(
    rt: &impl Abort,
    alloc: Global,
    buffer: &mut LineBuffer,
    wanted: &mut String,
    plan: &Plan,
    row: &str,
) {
    let (numbers, line) = parted(rt, row, " => ");
    let (step, seconds) = parted(rt, numbers, " ");
    let event = progress_of(0, if step == "0" { 0 } else { 1 }, number_of(rt, seconds));
    add(rt, alloc, buffer, plan, Start::zero(), 0, &event);
    push(rt, wanted, line);
    push(rt, wanted, "\n");
}

/// Fails when a cleared buffer writes other lines for the replacement.
fn compare_replacement(rt: &impl Abort, alloc: Global, buffer: &mut LineBuffer, plan: &Plan) {
    let mut wanted = String::new(alloc);
    buffer.clear();
    for row in STEPS.lines() {
        add_step(rt, alloc, buffer, &mut wanted, plan, row);
    }
    let wanted = leaked(rt, alloc, wanted).as_str();
    has_lines(rt, "a replacement", buffer, wanted);
}

/// Line by line, and once more after `clear`.
#[test]
fn steps_of_one_change_are_distinguished(rt: HostRuntime) {
    let alloc = rt.alloc();
    let plan = plan_of(&rt, alloc, REPLACEMENT);
    let buffer = new_buffer(&rt, alloc);
    compare_replacement(&rt, alloc, buffer, plan);
    compare_replacement(&rt, alloc, buffer, plan);
}

/// A start, the seconds after it, and the timestamp: within a day, at its ends, and on an earlier
/// day.
const DAYS: &str = "1970-01-01T00:00:00Z 0 => 1970-01-01T00:00:00Z
1970-01-01T23:59:50Z 9 => 1970-01-01T23:59:59Z
1970-01-01T23:59:50Z 10 => 1970-01-02T00:00:00Z
1970-01-01T00:00:00Z 3661 => 1970-01-01T01:01:01Z
2024-02-28T12:34:56Z 0 => 2024-02-28T12:34:56Z
2024-02-28T23:59:59Z 1 => 2024-02-29T00:00:00Z
2024-02-28T23:59:59Z 86400 => 2024-02-29T23:59:59Z
2024-02-28T23:59:59Z 86401 => 2024-03-01T00:00:00Z
2024-02-28T12:34:56Z 4 => 2024-02-28T12:35:00Z
8999-12-31T23:59:59Z 1728000000 => 9054-10-04T23:59:59Z
8999-12-31T23:59:59Z 0 => 8999-12-31T23:59:59Z
1970-01-01T00:00:00Z 1728000000 => 2024-10-04T00:00:00Z
1970-01-02T00:00:00Z 0 => 1970-01-02T00:00:00Z";

/// The line of a delete. `%` stands for its timestamp.
const DAY_LINE: &str =
    r#"{"@level":"info","@message":"a.b: Still destroying... [20s elapsed]","@module":"terraform.ui","@timestamp":"%","hook":{"action":"delete","elapsed_seconds":20,"resource":{"addr":"a.b","implied_provider":"a","module":"","resource":"a.b","resource_key":null,"resource_name":"b","resource_type":"a"}},"type":"apply_progress"}"#;

/// Fails when the line of the delete has another timestamp.
fn has_its_day(rt: &impl Abort, alloc: Global, buffer: &mut LineBuffer, plan: &Plan, row: &str) {
    let (moment, wanted) = parted(rt, row, " => ");
    let (start, seconds) = parted(rt, moment, " ");
    let (start, seconds) = (start_of(rt, start), number_of(rt, seconds) as u64);
    let line = put(rt, alloc, DAY_LINE, "%", wanted);
    let event = progress_of(0, 0, 20);
    compare_event_line(rt, alloc, buffer, plan, start, seconds, &event, line);
}

#[test]
fn each_line_has_its_own_day(rt: HostRuntime) {
    let alloc = rt.alloc();
    let plan = plan_of(&rt, alloc, REPLACEMENT);
    let buffer = new_buffer(&rt, alloc);
    for row in DAYS.lines() {
        has_its_day(&rt, alloc, buffer, plan, row);
    }
}
