//! Tests of what no clause states: that each call answers, and with which exit status. Readers and
//! writers that fail are in `failing`. The texts are tested on the built program
//! (`examples/findings`).

mod failing;
mod streams;

use input_validate::{
    Form, Name, findings_of, findings_of_plan, findings_of_script, known_names, nearest,
    nearest_addresses,
};
use input_validate_cli::{InputSizes, report_text, validate};
use std::alloc::Global;
use std::process::Abort;

/// A plan that updates one object.
const PLAN: &str = r#"{"format_version":"1.2","resource_changes":[
{"address":"a.b","mode":"managed","type":"a","name":"b","change":{"actions":["update"]}}]}"#;

/// A script that a run refuses, with a member that no run reads.
const SCRIPT: &str = r#"{"changes":[{"address":"a.c","steps":[]}],"outputs":[],"more":1}"#;

#[test]
fn findings_are_printed(rt: HostRuntime) {
    let alloc = rt.alloc();
    let (plan, script) = (PLAN.as_bytes(), Some(SCRIPT.as_bytes()));
    let findings = findings_of(alloc, plan, script, false, Form::Terraform).expect(&rt, "memory");
    let sizes = InputSizes::of(plan, script);
    let text = report_text(alloc, &findings, plan, script, sizes).expect(&rt, "memory");
    assert_eq!(rt;
        text.as_str(),
        "script .changes[0].address: is \"a.c\", which the plan does not change; is \"a.b\" meant?\n\
warning: script .more: is not read\n\
script .outputs: is an array of 0, and has to be an object, or absent\n"
    );
}

#[test]
fn each_input_has_its_findings(rt: HostRuntime) {
    let alloc = rt.alloc();
    let of_plan = findings_of_plan(alloc, b"{}").expect(&rt, "memory");
    let of_script = findings_of_script(alloc, SCRIPT.as_bytes()).expect(&rt, "memory");
    assert_eq!(rt; (of_plan.count(), of_plan.refuses()), (1, true));
    assert_eq!(rt; (of_script.count(), of_script.refuses()), (1, false));
}

#[test]
fn nearest_names_are_listed(rt: HostRuntime) {
    let alloc = rt.alloc();
    let mut names = Vec::new(alloc);
    for name in known_names(Some(Name::Changes), Some(Name::Steps)) {
        names.push(name.text()).expect(&rt, "memory");
    }
    let near = nearest(alloc, "fail", &names, 2).expect(&rt, "memory");
    assert_eq!(rt; (near.len(), near.first().copied()), (1, Some(3)));
}

#[test]
fn nearest_addresses_are_of_the_same_resource(rt: HostRuntime) {
    let alloc = rt.alloc();
    let addresses = [
        r#"module.m["a.b]"].a.web[0]"#,
        "a.wob",
        "module.m.a.web",
        "data.a.web",
    ];
    let near = nearest_addresses(alloc, "a.web[1]", &addresses, 1).expect(&rt, "memory");
    assert_eq!(rt; near.as_slice(), [0, 2].as_slice());
    let near = nearest_addresses(alloc, "a.wab", &addresses, 1).expect(&rt, "memory");
    assert_eq!(rt; near.as_slice(), [1].as_slice());
    let deposed = "a.web (deposed object 4f2c9a1b)";
    let near = nearest_addresses(alloc, deposed, &addresses, 1).expect(&rt, "memory");
    assert_eq!(rt; near.as_slice(), [0, 2].as_slice());
}

/// Fails if the report on this plan is another text.
fn is_reported(rt: &impl Abort, alloc: Global, plan: &[u8], wanted: &str) {
    let findings = findings_of(alloc, plan, None, false, Form::Terraform).expect(rt, "memory");
    let sizes = InputSizes::of(plan, None);
    let text = report_text(alloc, &findings, plan, None, sizes).expect(rt, "memory");
    assert_eq!(rt; text.as_str(), wanted);
}

#[test]
fn saved_plan_is_reported(rt: HostRuntime) {
    let alloc = rt.alloc();
    is_reported(
        &rt,
        alloc,
        b"PK\x03\x04",
        "plan .: is a saved plan: terraform show -json PLANFILE prints it as JSON\n",
    );
    is_reported(
        &rt,
        alloc,
        b"P",
        "plan line 1, column 1: is not JSON, or nested more than 127 deep\n",
    );
    is_reported(
        &rt,
        alloc,
        "[\"é\",\n \"é\",]".as_bytes(),
        "plan line 2, column 6: is not JSON, or nested more than 127 deep\n",
    );
    is_reported(
        &rt,
        alloc,
        b"[\"\xff\"]",
        "plan line 1, column 3: is not JSON, or nested more than 127 deep\n",
    );
}

/// A plan that creates two objects and leaves an output unknown.
const UNKNOWN_OUTPUT: &str = r#"{"format_version":"1.2","resource_changes":[
{"address":"a.b","mode":"managed","type":"a","name":"b","change":{"actions":["create"]}},
{"address":"a.c","mode":"managed","type":"a","name":"c","change":{"actions":["create"]}}],
"output_changes":{"o p":{"actions":["create"],"after_unknown":true}}}"#;

/// Fails if the report on this script for that plan is another text.
fn doubts_are(rt: &impl Abort, alloc: Global, form: Form, script: &str, wanted: &str) {
    let (plan, script) = (UNKNOWN_OUTPUT.as_bytes(), Some(script.as_bytes()));
    let findings = findings_of(alloc, plan, script, true, form).expect(rt, "memory");
    assert!(rt; !findings.script.refuses());
    let sizes = InputSizes::of(plan, script);
    let text = report_text(alloc, &findings, plan, script, sizes).expect(rt, "memory");
    assert_eq!(rt; text.as_str(), wanted);
}

#[test]
fn doubts_are_reported(rt: HostRuntime) {
    let alloc = rt.alloc();
    doubts_are(
        &rt,
        alloc,
        Form::Terraform,
        r#"{"changes":[{"address":"a.b","steps":[{"skipped":true}]}]}"#,
        "warning: script .changes[0].steps[0].skipped: nothing fails, so Terraform would not skip it\n\
warning: plan .output_changes[\"o p\"]: is unknown, and the script tells no value\n",
    );
    doubts_are(
        &rt,
        alloc,
        Form::Applystream,
        r#"{"changes":[{"address":"a.b","steps":[{"seconds":1,"failed":{"summary":"s"}}]}]}"#,
        "warning: script .changes[0].steps[0].failed: fails, and no step waits for it (\"after\")\n",
    );
    doubts_are(
        &rt,
        alloc,
        Form::Applystream,
        r#"{"changes":[{"address":"a.b","steps":[{"seconds":1,"failed":{"summary":"s"}}]},
{"address":"a.c","steps":[{"seconds":1,"after":["a.b"]}]}]}"#,
        "plan and script are accepted\n",
    );
}

/// A script with errors in `planning` alone.
const PLANNING: &str = r#"{"changes":[],
"planning":[{"address":"a","gone":1},{"address":"data.a.b","gone":true,"other":1}]}"#;

/// Fails if the report on this script for a run in that form is another text.
fn planning_is(rt: &impl Abort, alloc: Global, form: Form, wanted: &str) {
    let (plan, script) = (PLAN.as_bytes(), Some(PLANNING.as_bytes()));
    let findings = findings_of(alloc, plan, script, false, form).expect(rt, "memory");
    let sizes = InputSizes::of(plan, script);
    let text = report_text(alloc, &findings, plan, script, sizes).expect(rt, "memory");
    assert_eq!(rt; text.as_str(), wanted);
}

#[test]
fn planning_is_reported(rt: HostRuntime) {
    let alloc = rt.alloc();
    let wanted = "script .planning[0].gone: is 1, and has to be true or false, or absent\n\
script .planning[0].address: is \"a\", which the plan does not know and no resource can have\n\
script .planning[1].gone: stands at a data source, and only an object that is refreshed may have it\n\
warning: script .planning[1].other: is not read\n";
    planning_is(&rt, alloc, Form::TerraformPlan, wanted);
    planning_is(&rt, alloc, Form::TerraformApply, wanted);
    planning_is(
        &rt,
        alloc,
        Form::Terraform,
        "plan and script are accepted\n",
    );
}

/// Fails if the validation ends with another status, or prints an error.
fn ends_with(rt: &impl Abort, alloc: Global, plan: &str, script: Option<&str>, status: u8) {
    let script = match script {
        Some(text) => Some(text.as_bytes()),
        None => None,
    };
    let mut out = Vec::new(alloc);
    let mut faults = Vec::new(alloc);
    let plan = plan.as_bytes();
    let outcome = validate(
        alloc,
        Form::Applystream,
        false,
        plan,
        script,
        InputSizes::of(plan, script),
        &mut out,
        &mut faults,
    );
    assert_eq!(rt; outcome.status, status);
    assert!(rt; faults.is_empty());
}

#[test]
fn findings_have_their_status(rt: HostRuntime) {
    let alloc = rt.alloc();
    ends_with(&rt, alloc, PLAN, None, 0);
    ends_with(&rt, alloc, PLAN, Some(r#"{"changes":[]}"#), 0);
    ends_with(&rt, alloc, PLAN, Some(r#"{"changes":[],"planning":7}"#), 0);
    let ignored = r#"{"changes":[],"change":[]}"#;
    ends_with(&rt, alloc, PLAN, Some(ignored), 1);
    ends_with(&rt, alloc, "{", None, 2);
    ends_with(&rt, alloc, "{", Some(ignored), 2);
    ends_with(&rt, alloc, PLAN, Some("7"), 2);
    let unknown = r#"{"changes":[{"address":"a.x","steps":[]}]}"#;
    ends_with(&rt, alloc, PLAN, Some(unknown), 2);
}
