//! Single lines. `checks/examples` compares whole streams of the built program.

use super::*;

/// The inputs of a line.
#[derive(Clone, Copy, Drop)]
struct LineInputs {
    plan: &'static Plan,
    script: &'static Script,
}

/// Appends the line of an event.
fn push_event(
    rt: &impl Abort,
    lines: &mut TerraformBuffer,
    given: &LineInputs,
    details: &ChangeDetails,
    latest: u64,
    event: &Event,
) {
    check_step(rt, given.plan, event);
    holds(rt, "in time", latest <= LATEST);
    let planned = details.planned_id();
    let (plan, script) = (given.plan, given.script);
    let pushed = lines.push_event(plan, script, Start::zero(), latest, planned, event);
    pushed.ok().expect(rt, "memory");
}

/// The inputs of the lines of a plan and a script.
fn line_inputs(rt: &impl Abort, alloc: Global, plan: &str, script: &str) -> &'static LineInputs {
    let plan = plan_of(rt, alloc, plan);
    let script = script_of(rt, alloc, script, plan);
    leaked(rt, alloc, LineInputs { plan, script })
}

/// Details of a change, all of them absent.
fn no_details(rt: &impl Abort, alloc: Global) -> &'static ChangeDetails {
    let details = ChangeDetails {
        forgets: false,
        reason: None,
        importing: None,
        generated_config: None,
        planned_id: None,
        previous: None,
    };
    leaked(rt, alloc, details)
}

/// A plan with one create.
const ONE_CREATE: &str =
    r##"{"format_version":"1.2","terraform_version":"1.11.4","resource_changes":[{"address":"random_pet.animal","mode":"managed","type":"random_pet","name":"animal","change":{"actions":["create"]}}]}"##;

const HALTED: &str =
    r##"{"@level":"error","@message":"Error: execution halted","@module":"terraform.ui","@timestamp":"1970-01-01T00:00:00.000000Z","diagnostic":{"severity":"error","summary":"execution halted","detail":"Hook 0 answered Halt before create.","address":"random_pet.animal"},"type":"diagnostic"}
"##;

/// The diagnostic of a halted hook has an address.
#[test]
fn a_halt_has_its_address(rt: HostRuntime) {
    let alloc = rt.alloc();
    let given = line_inputs(&rt, alloc, ONE_CREATE, NO_OUTCOMES);
    let details = no_details(&rt, alloc);
    let mut lines = TerraformBuffer::new(alloc);
    let event = Event {
        worker: 0,
        change: 0,
        step: 0,
        what: What::Halted {
            phase: Phase::Pre,
            hook: 0,
        },
        at: 0,
    };
    push_event(&rt, &mut lines, given, details, 0, &event);
    compare(&rt, "a halt", lines.as_bytes(), HALTED);
}

const IMPORTED: &str =
    r##"{"@level":"info","@message":"random_pet.animal: Plan to create","@module":"terraform.ui","@timestamp":"1970-01-01T00:00:00.000000Z","change":{"resource":{"addr":"random_pet.animal","module":"","resource":"random_pet.animal","implied_provider":"random","resource_type":"random_pet","resource_name":"animal","resource_key":null},"action":"create","reason":"unknown","importing":{},"generated_config":"a = \u003cb\u003e\n"},"type":"planned_change"}
"##;

/// An import without an id, an unknown reason, and a generated configuration.
#[test]
fn each_detail_has_its_place(rt: HostRuntime) {
    let alloc = rt.alloc();
    let plan = plan_of(&rt, alloc, ONE_CREATE);
    holds(&rt, "a change", 0 < plan.len());
    let details = ChangeDetails {
        forgets: false,
        reason: Some(Reason::Unknown),
        importing: Some(Importing { id: None }),
        generated_config: Some(text_of(&rt, alloc, "a = <b>\n")),
        planned_id: None,
        previous: None,
    };
    let details = leaked(&rt, alloc, details);
    let mut lines = TerraformBuffer::new(alloc);
    let pushed = lines.push_planned(Start::zero(), plan.change(0), details);
    pushed.ok().expect(&rt, "memory");
    compare(&rt, "a planned change", lines.as_bytes(), IMPORTED);
}

const UNFINISHED: &str =
    r##"{"@level":"error","@message":"Error: Cannot apply incomplete plan","@module":"terraform.ui","@timestamp":"1970-01-01T00:00:00.000000Z","diagnostic":{"severity":"error","summary":"Cannot apply incomplete plan","detail":"Terraform encountered an error when generating this plan, so it cannot be applied."},"type":"diagnostic"}
"##;

/// Appends the line of a diagnostic of no step.
fn push_note(rt: &impl Abort, lines: &mut TerraformBuffer, note: &Note) {
    let pushed = lines.push_note(Start::zero(), 0, note);
    pushed.ok().expect(rt, "memory");
}

/// A plan whose planning ended with an error.
#[test]
fn an_unfinished_plan_is_reported(rt: HostRuntime) {
    let alloc = rt.alloc();
    let mut lines = TerraformBuffer::new(alloc);
    let note = Note {
        severity: Severity::Error,
        diag: Diag {
            summary: text_of(&rt, alloc, "Cannot apply incomplete plan"),
            detail: text_of(
                &rt,
                alloc,
                "Terraform encountered an error when generating this plan, so it cannot be applied.",
            ),
            range: None,
            snippet: None,
        },
        address: None,
    };
    push_note(&rt, &mut lines, leaked(&rt, alloc, note));
    compare(&rt, "a note", lines.as_bytes(), UNFINISHED);
}

const PLACED: &str =
    r##"{"@level":"warn","@message":"Warning: \u003cno\u003e","@module":"terraform.ui","@timestamp":"1970-01-01T00:00:00.000000Z","diagnostic":{"severity":"warning","summary":"\u003cno\u003e","detail":"","address":"a.b","range":{"filename":"\u0026","b":1.50,"a":null},"snippet":{"code":"\u003e"}},"type":"diagnostic"}
{"@level":"warn","@message":"Warning: \u003cno\u003e","@module":"terraform.ui","@timestamp":"1970-01-01T00:00:00.000000Z","diagnostic":{"severity":"warning","summary":"\u003cno\u003e","detail":"","snippet":{}},"type":"diagnostic"}
{"@level":"warn","@message":"Warning: \u003cno\u003e","@module":"terraform.ui","@timestamp":"1970-01-01T00:00:00.000000Z","diagnostic":{"severity":"warning","summary":"\u003cno\u003e","detail":"","address":"a.b"},"type":"diagnostic"}
"##;

/// A warning of no step, with an address, a range and a snippet if given.
fn placed(
    rt: &impl Abort,
    alloc: Global,
    address: Option<&str>,
    range: Option<&str>,
    snippet: Option<&str>,
) -> &'static Note {
    let note = Note {
        severity: Severity::Warning,
        diag: Diag {
            summary: text_of(rt, alloc, "<no>"),
            detail: text_of(rt, alloc, ""),
            range: Text::of_option(alloc, range).expect(rt, "memory"),
            snippet: Text::of_option(alloc, snippet).expect(rt, "memory"),
        },
        address: Text::of_option(alloc, address).expect(rt, "memory"),
    };
    leaked(rt, alloc, note)
}

/// The verbatim members of a diagnostic come after its address, and have the escapes of the line.
#[test]
fn a_range_stands_before_a_snippet(rt: HostRuntime) {
    let alloc = rt.alloc();
    let mut lines = TerraformBuffer::new(alloc);
    let range = Some(r##"{"filename":"&","b":1.50,"a":null}"##);
    let snippet = Some(r##"{"code":">"}"##);
    push_note(
        &rt,
        &mut lines,
        placed(&rt, alloc, Some("a.b"), range, snippet),
    );
    push_note(&rt, &mut lines, placed(&rt, alloc, None, None, Some("{}")));
    push_note(&rt, &mut lines, placed(&rt, alloc, Some("a.b"), None, None));
    compare(&rt, "notes", lines.as_bytes(), PLACED);
}

const MOVED: &str =
    r##"{"@level":"info","@message":"random_pet.animal: Plan to create","@module":"terraform.ui","@timestamp":"1970-01-01T00:00:00.000000Z","change":{"resource":{"addr":"random_pet.animal","module":"","resource":"random_pet.animal","implied_provider":"random","resource_type":"random_pet","resource_name":"animal","resource_key":null},"previous_resource":{"addr":"module.m.random_pet.a[7]","module":"module.m","resource":"random_pet.a[7]","implied_provider":"random","resource_type":"random_pet","resource_name":"a","resource_key":7},"action":"create","reason":"requested"},"type":"planned_change"}
"##;

/// The previous resource comes after the resource.
#[test]
fn a_moved_object_tells_what_it_was(rt: HostRuntime) {
    let alloc = rt.alloc();
    let plan = plan_of(&rt, alloc, ONE_CREATE);
    holds(&rt, "a change", 0 < plan.len());
    let details = ChangeDetails {
        forgets: false,
        reason: Some(Reason::Requested),
        importing: None,
        generated_config: None,
        planned_id: None,
        previous: Some(PreviousResource {
            address: text_of(&rt, alloc, "module.m.random_pet.a[7]"),
            module_address: text_of(&rt, alloc, "module.m"),
            resource: text_of(&rt, alloc, "random_pet.a[7]"),
            kind_name: text_of(&rt, alloc, "random_pet"),
            name: text_of(&rt, alloc, "a"),
            key: Key::Number(7),
        }),
    };
    let details = leaked(&rt, alloc, details);
    let mut lines = TerraformBuffer::new(alloc);
    let pushed = lines.push_planned(Start::zero(), plan.change(0), details);
    pushed.ok().expect(&rt, "memory");
    compare(&rt, "a planned change", lines.as_bytes(), MOVED);
}
