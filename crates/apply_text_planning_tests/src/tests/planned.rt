//! Planned changes, and the plan as a whole.

use super::*;

const PLANNED: &str =
    r##"{"@level":"info","@message":"aws_a.both: Plan to move","@module":"terraform.ui","@timestamp":"1970-01-01T00:00:00.000000Z","change":{"resource":{"addr":"aws_a.both","module":"","resource":"aws_a.both","implied_provider":"aws","resource_type":"aws_a","resource_name":"both","resource_key":null},"previous_resource":{"addr":"aws_a.was","module":"","resource":"aws_a.was","implied_provider":"aws","resource_type":"aws_a","resource_name":"was","resource_key":null},"action":"move","importing":{"id":"a-1"}},"type":"planned_change"}
{"@level":"info","@message":"aws_a.fetched: Plan to import","@module":"terraform.ui","@timestamp":"1970-01-01T00:00:00.000000Z","change":{"resource":{"addr":"aws_a.fetched","module":"","resource":"aws_a.fetched","implied_provider":"aws","resource_type":"aws_a","resource_name":"fetched","resource_key":null},"action":"import","importing":{"id":"a-2"}},"type":"planned_change"}
{"@level":"info","@message":"aws_a.swapped: Plan to replace","@module":"terraform.ui","@timestamp":"1970-01-01T00:00:00.000000Z","change":{"resource":{"addr":"aws_a.swapped","module":"","resource":"aws_a.swapped","implied_provider":"aws","resource_type":"aws_a","resource_name":"swapped","resource_key":null},"action":"replace"},"type":"planned_change"}
{"@level":"info","@message":"aws_a.out: Plan to remove","@module":"terraform.ui","@timestamp":"1970-01-01T00:00:00.000000Z","change":{"resource":{"addr":"aws_a.out","module":"","resource":"aws_a.out","implied_provider":"aws","resource_type":"aws_a","resource_name":"out","resource_key":null},"action":"remove"},"type":"planned_change"}
"##;

/// Appends the line of a planned change.
fn push_line(
    rt: &impl Abort,
    alloc: Global,
    lines: &mut TerraformBuffer,
    change: &Change,
    details: &ChangeDetails,
) {
    let mut scratch = String::new(alloc);
    let pushed = push_planned(lines, &mut scratch, Start::zero(), 0, change, details);
    pushed.ok().expect(rt, "memory");
}

/// A move comes before an import, and both come after what is planned. Nothing else has a line.
#[test]
fn moves_and_imports_are_planned(rt: HostRuntime) {
    let alloc = rt.alloc();
    let plan = plan_of(&rt, alloc);
    let was = root_resource(&rt, alloc, "aws_a.was", "was", Key::None);
    let both = details_of(
        &rt,
        alloc,
        false,
        Some(was),
        Some(import_of(&rt, alloc, "a-1")),
    );
    let fetched = details_of(&rt, alloc, false, None, Some(import_of(&rt, alloc, "a-2")));
    let nothing = details_of(&rt, alloc, false, None, None);
    let forgotten = details_of(&rt, alloc, true, None, None);
    let rows = [
        (5, both),
        (6, fetched),
        (3, nothing),
        (8, nothing),
        (7, forgotten),
    ];
    let mut lines = TerraformBuffer::new(alloc);
    for (number, details) in rows {
        push_line(&rt, alloc, &mut lines, change(&rt, plan, number), details);
    }
    compare(&rt, "planned changes", &lines, PLANNED);
}

const SUMMARIES: &str =
    r##"{"@level":"info","@message":"Plan: 3 to import, 0 to add, 1 to change, 0 to destroy.","@module":"terraform.ui","@timestamp":"1970-01-01T00:00:00.000000Z","changes":{"add":0,"change":1,"import":3,"remove":0,"operation":"plan"},"type":"change_summary"}
{"@level":"info","@message":"Plan: 1 to add, 1 to change, 0 to destroy.","@module":"terraform.ui","@timestamp":"1970-01-01T00:00:00.000000Z","changes":{"add":1,"change":1,"import":0,"remove":0,"operation":"plan"},"type":"change_summary"}
"##;

/// The part about imports is absent when there are none.
#[test]
fn a_summary_counts_imports(rt: HostRuntime) {
    let alloc = rt.alloc();
    let mut lines = TerraformBuffer::new(alloc);
    for (added, imported) in [(0, 3), (1, 0)] {
        let totals = PlanTotals {
            added,
            changed: 1,
            removed: 0,
            imported,
        };
        push(
            &rt,
            alloc,
            &mut lines,
            0,
            PlanningMessage::Summary { totals },
        );
    }
    compare(&rt, "summaries", &lines, SUMMARIES);
}

/// Counts a planned change. Fails when many were counted before.
fn count(rt: &impl Abort, totals: &mut PlanTotals, change: &Change, details: &ChangeDetails) {
    holds(rt, "few added", totals.added <= 9);
    holds(rt, "few changed", totals.changed <= 9);
    holds(rt, "few removed", totals.removed <= 9);
    holds(rt, "few imported", totals.imported <= 9);
    totals.count(change, details);
}

/// A replacement counts twice, and a read and an object to forget count as nothing.
#[test]
fn totals_count_steps(rt: HostRuntime) {
    let alloc = rt.alloc();
    let plan = plan_of(&rt, alloc);
    let nothing = details_of(&rt, alloc, false, None, None);
    let fetched = details_of(&rt, alloc, false, None, Some(import_of(&rt, alloc, "a-2")));
    let mut totals = PlanTotals::new();
    count(&rt, &mut totals, change(&rt, plan, 0), nothing);
    count(&rt, &mut totals, change(&rt, plan, 2), nothing);
    count(&rt, &mut totals, change(&rt, plan, 6), fetched);
    count(&rt, &mut totals, change(&rt, plan, 7), nothing);
    count(&rt, &mut totals, change(&rt, plan, 8), fetched);
    let wanted = PlanTotals {
        added: 1,
        changed: 1,
        removed: 1,
        imported: 2,
    };
    assert!(rt; totals == wanted);
}

const OUTPUTS: &str =
    r##"{"@level":"info","@message":"Outputs: 4","@module":"terraform.ui","@timestamp":"1970-01-01T00:00:00.000000Z","outputs":{"old":{"sensitive":false,"action":"delete"},"token":{"sensitive":true,"action":"create"},"url":{"sensitive":false,"action":"update"},"zone":{"sensitive":false,"action":"noop"}},"type":"outputs"}
{"@level":"info","@message":"Outputs: 2","@module":"terraform.ui","@timestamp":"1970-01-01T00:00:00.000000Z","outputs":{"a\"\u003c":{"sensitive":false,"action":"read"},"b":{"sensitive":true,"action":"replace"}},"type":"outputs"}
{"@level":"info","@message":"Outputs: 0","@module":"terraform.ui","@timestamp":"1970-01-01T00:00:00.000000Z","outputs":{},"type":"outputs"}
"##;

/// Adds a planned change of an output.
fn add(
    rt: &impl Abort,
    alloc: Global,
    outputs: &mut Vec<PlannedOutput>,
    name: &str,
    action: OutputAction,
    sensitive: bool,
) {
    let name = text_of(rt, alloc, name);
    let output = PlannedOutput {
        name,
        action,
        sensitive,
    };
    outputs.push(output).ok().expect(rt, "memory");
}

/// Outputs stand in their order. Their names are JSON strings.
#[test]
fn outputs_have_actions(rt: HostRuntime) {
    let alloc = rt.alloc();
    let mut lines = TerraformBuffer::new(alloc);
    let mut first = Vec::new(alloc);
    add(&rt, alloc, &mut first, "old", OutputAction::Delete, false);
    add(&rt, alloc, &mut first, "token", OutputAction::Create, true);
    add(&rt, alloc, &mut first, "url", OutputAction::Update, false);
    add(&rt, alloc, &mut first, "zone", OutputAction::NoOp, false);
    let outputs = leaked(&rt, alloc, first).as_slice();
    push(
        &rt,
        alloc,
        &mut lines,
        0,
        PlanningMessage::Outputs { outputs },
    );
    let mut second = Vec::new(alloc);
    add(&rt, alloc, &mut second, "a\"<", OutputAction::Read, false);
    add(&rt, alloc, &mut second, "b", OutputAction::Replace, true);
    let outputs = leaked(&rt, alloc, second).as_slice();
    push(
        &rt,
        alloc,
        &mut lines,
        0,
        PlanningMessage::Outputs { outputs },
    );
    let outputs: &[PlannedOutput] = &[];
    push(
        &rt,
        alloc,
        &mut lines,
        0,
        PlanningMessage::Outputs { outputs },
    );
    compare(&rt, "outputs", &lines, OUTPUTS);
}
