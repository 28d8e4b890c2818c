//! Messages of provisioners that the script does not have.

use super::*;

const ONE_CREATE: &str =
    r#"{"format_version":"1.2","terraform_version":"1.9.0","resource_changes":[{"address":"null_resource.a","mode":"managed","type":"null_resource","name":"a","change":{"actions":["create"]}}]}"#;

/// The numbers of a provisioner and an output that the script does not have, the script, and the
/// line.
const ABSENT_TEXTS: &str =
    r##"0 0 => {"changes":[]} => {"@level":"info","@message":"null_resource.a: (): ","@module":"terraform.ui","@timestamp":"1970-01-01T00:00:00Z","hook":{"output":"","provisioner":"","resource":{"addr":"null_resource.a","implied_provider":"null","module":"","resource":"null_resource.a","resource_key":null,"resource_name":"a","resource_type":"null_resource"}},"type":"provision_progress"}
1 0 => {"changes":[{"address":"null_resource.a","steps":[{"seconds":0,"provisioners":[{"provisioner":"a","seconds":0,"output":["x"]}]}]}]} => {"@level":"info","@message":"null_resource.a: (): ","@module":"terraform.ui","@timestamp":"1970-01-01T00:00:00Z","hook":{"output":"","provisioner":"","resource":{"addr":"null_resource.a","implied_provider":"null","module":"","resource":"null_resource.a","resource_key":null,"resource_name":"a","resource_type":"null_resource"}},"type":"provision_progress"}
0 1 => {"changes":[{"address":"null_resource.a","steps":[{"seconds":0,"provisioners":[{"provisioner":"a","seconds":0,"output":["x"]}]}]}]} => {"@level":"info","@message":"null_resource.a: (a): ","@module":"terraform.ui","@timestamp":"1970-01-01T00:00:00Z","hook":{"output":"","provisioner":"a","resource":{"addr":"null_resource.a","implied_provider":"null","module":"","resource":"null_resource.a","resource_key":null,"resource_name":"a","resource_type":"null_resource"}},"type":"provision_progress"}"##;

/// Fails when the line of a row differs.
fn is_empty(rt: &impl Abort, alloc: Global, plan: &Plan, row: &str) {
    let (numbers, rest) = parted(rt, row, " => ");
    let (script, wanted) = parted(rt, rest, " => ");
    let script = script_of(rt, alloc, script, plan);
    let event = output_of(rt, numbers);
    let written = line_of(rt, alloc, plan, script, Start::zero(), 0, &event);
    compare_line(rt, numbers, written, wanted);
}

/// Texts that the script does not have are empty.
#[test]
fn absent_texts_of_provisioners_are_empty(rt: HostRuntime) {
    let alloc = rt.alloc();
    let plan = plan_of(&rt, alloc, ONE_CREATE);
    for row in ABSENT_TEXTS.lines() {
        is_empty(&rt, alloc, plan, row);
    }
}

/// An output event, with the numbers of its provisioner and of the output.
fn output_of(rt: &impl Abort, numbers: &str) -> Event {
    let (prov, line) = parted(rt, numbers, " ");
    let (prov, line) = (number_of(rt, prov), number_of(rt, line));
    holds(rt, "a provisioner", prov < 8);
    holds(rt, "an output", line < 100);
    let what = What::ProvisionOutput {
        prov: prov as u8,
        line: line as u8,
    };
    Event {
        worker: 0,
        change: 0,
        step: 0,
        what,
        at: 0,
    }
}
