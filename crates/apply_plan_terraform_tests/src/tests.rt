//! What no clause states: that the definitions are the intended ones, and that calls succeed when
//! memory suffices.

use apply_json_tree::parse;
use apply_model::{ChangeDetails, Importing, Key, Note, PreviousResource, Severity, Text};
use apply_plan_terraform::{
    PlanNote, change_details, is_errored, is_partial, plan_note, written_notes,
};
use serde_json::Value;
use std::alloc::Global;
use std::process::Abort;

/// Keeps a value as long as the test runs. A proof grows with each place at which a value is
/// dropped.
fn leaked<'a, T: Drop + 'a>(rt: &impl Abort, alloc: Global, value: T) -> &'a T {
    let leaked = Box::new(alloc, value).expect(rt, "memory");
    &*Box::leak(leaked)
}

fn parted<'a>(rt: &impl Abort, text: &'a str, mark: &str) -> (&'a str, &'a str) {
    text.split_once(mark).expect(rt, "a mark")
}

fn tree_of(rt: &impl Abort, alloc: Global, text: &str) -> &'static Value {
    let tree = parse(alloc, text.as_bytes(), 10_000);
    leaked(rt, alloc, tree.ok().expect(rt, "a tree"))
}

/// The text, or `-` when there is none.
fn shown(text: Option<&Text>) -> &str {
    match text {
        Some(text) => text.as_str(),
        None => "-",
    }
}

/// The id. `*` for an import without an id, `-` when nothing is imported.
fn shown_importing(importing: Option<&Importing>) -> &str {
    match importing {
        Some(Importing { id: Some(id) }) => id.as_str(),
        Some(Importing { id: None }) => "*",
        None => "-",
    }
}

/// The details as one row.
fn row_of(rt: &impl Abort, alloc: Global, details: &ChangeDetails) -> &'static str {
    let forgets = if details.forgets { "forgets" } else { "-" };
    let reason = match details.reason {
        Some(reason) => reason.word(),
        None => "-",
    };
    let importing = shown_importing(details.importing.as_ref());
    let config = shown(details.generated_config.as_ref());
    let planned = shown(details.planned_id.as_ref());
    let row = format!(in alloc; "{forgets} {reason} {importing} {config} {planned}");
    leaked(rt, alloc, row.expect(rt, "memory")).as_str()
}

/// Elements and their details: whether Terraform forgets the object, the reason, the import, the
/// configuration, the planned id.
const ELEMENTS: &str = r#"{"change":{"actions":["create"]}} => - - - - -
{} => - - - - -
[] => - - - - -
{"change":5,"action_reason":5} => - - - - -
{"change":{"actions":["forget"]}} => forgets - - - -
{"change":{"actions":["forget","create"]}} => - - - - -
{"change":{"actions":"forget"}} => - - - - -
{"action_reason":""} => - - - - -
{"action_reason":"replace_because_cannot_update"} => - cannot_update - - -
{"action_reason":"replace_because_tainted"} => - tainted - - -
{"action_reason":"replace_by_request"} => - requested - - -
{"action_reason":"replace_by_triggers"} => - replace_triggered_by - - -
{"action_reason":"delete_because_no_resource_config"} => - delete_because_no_resource_config - - -
{"action_reason":"delete_because_wrong_repetition"} => - delete_because_wrong_repetition - - -
{"action_reason":"delete_because_count_index"} => - delete_because_count_index - - -
{"action_reason":"delete_because_each_key"} => - delete_because_each_key - - -
{"action_reason":"delete_because_no_module"} => - delete_because_no_module - - -
{"action_reason":"delete_because_no_move_target"} => - delete_because_no_move_target - - -
{"action_reason":"read_because_config_unknown"} => - read_because_config_unknown - - -
{"action_reason":"read_because_dependency_pending"} => - read_because_dependency_pending - - -
{"action_reason":"read_because_check_nested"} => - read_because_check_nested - - -
{"action_reason":"because"} => - unknown - - -
{"change":{"importing":{"id":"i-1"}}} => - - i-1 - -
{"change":{"importing":{}}} => - - * - -
{"change":{"importing":{"id":""}}} => - - * - -
{"change":{"importing":true}} => - - - - -
{"change":{"importing":null}} => - - - - -
{"change":{"generated_config":"c"}} => - - - c -
{"change":{"generated_config":""}} => - - - - -
{"change":{"after":{"id":"i-2"}}} => - - - - i-2
{"change":{"after":{"id":""}}} => - - - - -
{"change":{"after":{"id":7}}} => - - - - -
{"change":{"after":[1]}} => - - - - -
{"change":{"after":{"id":"i-2"},"after_sensitive":true}} => - - - - -
{"change":{"after":{"id":"i-2"},"after_sensitive":{"id":true}}} => - - - - -
{"change":{"after":{"id":"i-2"},"after_sensitive":{"id":false}}} => - - - - i-2
{"change":{"after":{"id":"i-2"},"after_sensitive":false}} => - - - - i-2"#;

#[test]
fn each_member_of_another_kind_is_absent(rt: HostRuntime) {
    let alloc = rt.alloc();
    for row in ELEMENTS.lines() {
        let (element, wanted) = parted(&rt, row, " => ");
        let details = change_details(alloc, tree_of(&rt, alloc, element));
        let details = leaked(&rt, alloc, details.ok().expect(&rt, "memory"));
        let actual = row_of(&rt, alloc, details);
        assert!(rt; actual == wanted, "at {element}: {actual}");
    }
}

/// Plans and their notes.
const PLANS: &str = r#"{} => nothing
[] => nothing
{"errored":true} => unfinished
{"errored":"true","complete":true} => nothing
{"complete":false} => partial
{"complete":"false"} => nothing
{"complete":false,"errored":false} => partial
{"complete":false,"errored":true} => unfinished"#;

/// The name of a note.
fn note_name(note: Option<PlanNote>) -> &'static str {
    match note {
        Some(PlanNote::Partial) => "partial",
        Some(PlanNote::Unfinished) => "unfinished",
        None => "nothing",
    }
}

#[test]
fn one_thing_is_said_of_a_plan(rt: HostRuntime) {
    let alloc = rt.alloc();
    for row in PLANS.lines() {
        let (plan, wanted) = parted(&rt, row, " => ");
        let plan = tree_of(&rt, alloc, plan);
        assert!(rt; note_name(plan_note(plan)) == wanted, "at {row}");
        assert!(rt; is_errored(plan) == (wanted == "unfinished"), "at {row}");
        assert!(rt; is_partial(plan) == (wanted == "partial"), "at {row}");
    }
}

/// Members of elements, and the previous resource that they give: module, resource, provider, type,
/// name and key.
const MOVED: &str = r#"{} => -
{"previous_address":5} => -
{"previous_address":null} => -
{"previous_address":""} => -
{"previous_address":"a.b"} => |a.b|a|a|b|-
{"address":"a_c.b","previous_address":"a_c.b"} => |a_c.b|a|a_c|b|-
{"previous_address":"data.a_c.b[7]"} => |data.a_c.b[7]|a|a_c|b|7
{"previous_address":"module.m.a.b"} => module.m|a.b|a|a|b|-
{"previous_address":"module.old[\"x.y\"].module.in[0].aws_instance.web[\"k\\\"1$${z}\"]"} => module.old["x.y"].module.in[0]|aws_instance.web["k\"1$${z}"]|aws|aws_instance|web|k"1${z}
{"previous_address":"a.b[\"\\x\"]"} => -
{"previous_address":"a.b[\"x\"y\"]"} => -
{"previous_address":"a.b[00]"} => -
{"previous_address":"a"} => -
{"previous_address":"module.m.a.b.c"} => -
{"previous_address":"a.b[9223372036854775808]"} => -"#;

/// The parts of a previous resource as one row.
fn shown_previous(
    rt: &impl Abort,
    alloc: Global,
    previous: Option<&PreviousResource>,
) -> &'static str {
    let Some(previous) = previous else {
        return "-";
    };
    let module = previous.module_address.as_str();
    let resource = previous.resource.as_str();
    let provider = previous.provider();
    let kind = previous.kind_name.as_str();
    let name = previous.name.as_str();
    let row = match &previous.key {
        Key::None => format!(in alloc; "{module}|{resource}|{provider}|{kind}|{name}|-"),
        Key::Number(key) => format!(in alloc; "{module}|{resource}|{provider}|{kind}|{name}|{key}"),
        Key::Name(key) => {
            let key = key.as_str();
            format!(in alloc; "{module}|{resource}|{provider}|{kind}|{name}|{key}")
        }
    };
    leaked(rt, alloc, row.expect(rt, "memory")).as_str()
}

#[test]
fn an_address_from_before_is_taken_apart(rt: HostRuntime) {
    let alloc = rt.alloc();
    for row in MOVED.lines() {
        let (element, wanted) = parted(&rt, row, " => ");
        let details = change_details(alloc, tree_of(&rt, alloc, element));
        let details = leaked(&rt, alloc, details.ok().expect(&rt, "memory"));
        let actual = shown_previous(&rt, alloc, details.previous.as_ref());
        assert!(rt; actual == wanted, "at {element}: {actual}");
    }
}

/// Severities and summaries as one row.
fn shown_notes(rt: &impl Abort, alloc: Global, notes: &[Note]) -> &'static str {
    let mut row = String::new(alloc);
    for note in notes {
        let severity = match note.severity {
            Severity::Error => "error",
            Severity::Warning => "warning",
        };
        let summary = note.diag.summary.as_str();
        let written = write!(row, "{severity} {summary};");
        written.ok().expect(rt, "memory");
    }
    leaked(rt, alloc, row).as_str()
}

/// The diagnostics that a stream shows for one diagnostic of a script and the note of a plan.
fn notes_with_plan(rt: &impl Abort, alloc: Global, plan: Option<PlanNote>) -> &'static str {
    let own = PlanNote::Partial.note(alloc);
    let mut script = Vec::new(alloc);
    let pushed = script.push(own.ok().expect(rt, "memory"));
    pushed.ok().expect(rt, "memory");
    let notes = written_notes(alloc, plan, script);
    let notes = leaked(rt, alloc, notes.ok().expect(rt, "memory"));
    shown_notes(rt, alloc, notes.as_slice())
}

#[test]
fn diagnostics_of_a_script_come_first(rt: HostRuntime) {
    let alloc = rt.alloc();
    let one = "warning Applied changes may be incomplete;";
    let both =
        "warning Applied changes may be incomplete;warning Applied changes may be incomplete;";
    assert!(rt; notes_with_plan(&rt, alloc, None) == one);
    assert!(rt; notes_with_plan(&rt, alloc, Some(PlanNote::Partial)) == both);
    let unfinished = notes_with_plan(&rt, alloc, Some(PlanNote::Unfinished));
    assert!(rt; unfinished == "error Cannot apply incomplete plan;");
}
