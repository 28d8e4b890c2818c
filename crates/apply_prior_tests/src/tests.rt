//! What no clause states: that the definitions are the intended ones, and that calls succeed when
//! memory suffices.

use apply_model::{Key, Text};
use apply_prior::{Drift, OutputAction, PlannedOutput, Prior, PriorObject, read_prior};
use std::alloc::Global;
use std::process::Abort;

/// Keeps a value as long as the test runs. A proof grows with each place at which a value is
/// dropped.
fn leaked<'a, T: Drop + 'a>(rt: &impl Abort, alloc: Global, value: T) -> &'a T {
    let leaked = Box::new(alloc, value).expect(rt, "memory");
    &*Box::leak(leaked)
}

fn parted<'a>(rt: &impl Abort, text: &'a str, mark: &str) -> (&'a str, &'a str) {
    text.split_once(mark).expect(rt, "a mark")
}

/// What a plan says, where `inside` stands between `before` and `after`.
fn prior_of(
    rt: &impl Abort,
    alloc: Global,
    before: &str,
    inside: &str,
    after: &str,
) -> &'static Prior {
    let plan = format!(in alloc; "{before}{inside}{after}");
    let plan = leaked(rt, alloc, plan.expect(rt, "memory"));
    leaked(
        rt,
        alloc,
        read_prior(alloc, plan.as_bytes()).ok().expect(rt, "JSON"),
    )
}

/// The text, or `-` when there is none.
fn shown(text: Option<&str>) -> &str {
    match text {
        Some(text) => text,
        None => "-",
    }
}

fn shown_text(text: Option<&Text>) -> &str {
    match text {
        Some(text) => text.as_str(),
        None => "-",
    }
}

fn shown_key(rt: &impl Abort, alloc: Global, key: &Key) -> &'static str {
    let shown = match key {
        Key::None => String::from_str(alloc, "-"),
        Key::Number(number) => format!(in alloc; "{number}"),
        Key::Name(name) => String::from_str(alloc, name.as_str()),
    };
    leaked(rt, alloc, shown.expect(rt, "memory")).as_str()
}

/// The objects as one row: of each its module, its address in it, its instance key, its deposed
/// key, its id, the id before, and what it depends on.
fn row_of_objects(rt: &impl Abort, alloc: Global, objects: &[PriorObject]) -> &'static str {
    let mut row = String::new(alloc);
    for prior in objects {
        let (module, resource) = (prior.object.module(), prior.object.resource());
        let key = shown_key(rt, alloc, prior.object.key());
        let (deposed, id) = (
            shown(prior.object.deposed()),
            shown(prior.object.prior_id()),
        );
        let before = shown_text(prior.id_before.as_ref());
        let written = write!(row, "{module}|{resource}|{key}|{deposed}|{id}|{before}|");
        written.ok().expect(rt, "memory");
        for name in &prior.depends_on {
            let written = write!(row, "{},", name.as_str());
            written.ok().expect(rt, "memory");
        }
        row.push(';').expect(rt, "memory");
    }
    leaked(rt, alloc, row).as_str()
}

/// The drifts as one row: of each its address, its deposed key, how many steps it has, the id
/// before, and where it was moved from.
fn row_of_drifts(rt: &impl Abort, alloc: Global, drifts: &[Drift]) -> &'static str {
    let mut row = String::new(alloc);
    for drift in drifts {
        let (address, deposed) = (drift.change.address(), shown(drift.change.deposed()));
        let (steps, id) = (drift.change.steps().len(), shown(drift.change.prior_id()));
        let previous = match &drift.details.previous {
            Some(previous) => previous.address.as_str(),
            None => "-",
        };
        let written = write!(row, "{address}|{deposed}|{steps}|{id}|{previous};");
        written.ok().expect(rt, "memory");
    }
    leaked(rt, alloc, row).as_str()
}

fn action_name(action: OutputAction) -> &'static str {
    match action {
        OutputAction::NoOp => "noop",
        OutputAction::Create => "create",
        OutputAction::Read => "read",
        OutputAction::Update => "update",
        OutputAction::Delete => "delete",
        OutputAction::Replace => "replace",
    }
}

fn row_of_outputs(rt: &impl Abort, alloc: Global, outputs: &[PlannedOutput]) -> &'static str {
    let mut row = String::new(alloc);
    for output in outputs {
        let (name, action) = (output.name.as_str(), action_name(output.action));
        let sensitive = if output.sensitive { "sensitive" } else { "-" };
        let written = write!(row, "{name} {action} {sensitive};");
        written.ok().expect(rt, "memory");
    }
    leaked(rt, alloc, row).as_str()
}

/// Members of the root module, and the objects that they give.
const OBJECTS: &str = r#" => 
"resources":null => 
"resources":{} => 
"resources":[5,{},null,"x",[]],"child_modules":5 => 
"resources":[{"address":"a.x","mode":"other","type":"a","name":"x"}] => 
"resources":[{"address":"a.x","mode":"managed","type":"","name":"x"}] => 
"resources":[{"address":"a.x","mode":"managed","type":"a","name":5}] => 
"resources":[{"address":"","mode":"managed","type":"a","name":"x"}] => 
"resources":[{"address":"a.x","mode":"managed","type":"a","name":"x","index":1.5}] => 
"resources":[{"address":"a.x","mode":"managed","type":"a","name":"x","index":[]}] => 
"resources":[{"address":"a.x","mode":"managed","type":"a","name":"x","index":9223372036854775808}] => 
"resources":[{"address":"a.x","mode":"managed","type":"a","name":"x","index":null}] => |a.x|-|-|-|-|;
"resources":[{"address":"a.x[7]","mode":"managed","type":"a","name":"x","index":7}] => |a.x[7]|7|-|-|-|;
"resources":[{"address":"a.x[\"k\"]","mode":"managed","type":"a","name":"x","index":"k"}] => |a.x["k"]|k|-|-|-|;
"resources":[{"address":"data.a.x","mode":"data","type":"a","name":"x","values":{"id":"d"}}] => |data.a.x|-|-|d|d|;
"resources":[{"address":"a.x","mode":"managed","type":"a","name":"x","values":{"id":"i"}}] => |a.x|-|-|i|i|;
"resources":[{"address":"a.x","mode":"managed","type":"a","name":"x","values":{"id":"j"},"values":{"id":"i"}}] => |a.x|-|-|i|i|;
"resources":[{"address":"a.x","mode":"managed","type":"a","name":"x","values":{"id":""}}] => |a.x|-|-|-|-|;
"resources":[{"address":"a.x","mode":"managed","type":"a","name":"x","values":{"id":5}}] => |a.x|-|-|-|-|;
"resources":[{"address":"a.x","mode":"managed","type":"a","name":"x","values":{"id":"i"},"sensitive_values":true}] => |a.x|-|-|-|-|;
"resources":[{"address":"a.x","mode":"managed","type":"a","name":"x","values":{"id":"i"},"sensitive_values":{"id":true}}] => |a.x|-|-|-|-|;
"resources":[{"address":"a.x","mode":"managed","type":"a","name":"x","values":{"id":"i"},"sensitive_values":{"id":false,"key":true}}] => |a.x|-|-|i|i|;
"resources":[{"address":"a.x","mode":"managed","type":"a","name":"x","deposed_key":"k"},{"address":"a.x","mode":"managed","type":"a","name":"x","deposed_key":""}] => |a.x|-|k|-|-|;|a.x|-|-|-|-|;
"resources":[{"address":"a.x","mode":"managed","type":"a","name":"x","values":{"id":"1"}},{"address":"a.x","mode":"managed","type":"a","name":"x","values":{"id":"2"},"deposed_key":5}] => |a.x|-|-|1|1|;
"resources":[{"address":"a.x","mode":"managed","type":"a","name":"x","index":1.5},{"address":"a.x","mode":"managed","type":"a","name":"x","values":{"id":"2"}}] => |a.x|-|-|2|2|;
"resources":[{"address":"a.x","mode":"managed","type":"a","name":"x","depends_on":["a.y",5,"module.m.a.z",""]}] => |a.x|-|-|-|-|a.y,module.m.a.z,,;
"resources":[{"address":"a.x","mode":"managed","type":"a","name":"x","depends_on":"a.y"}] => |a.x|-|-|-|-|;
"child_modules":[{"resources":[{"address":"a.x","mode":"managed","type":"a","name":"x"}]}] => 
"child_modules":[{"address":"","resources":[{"address":"a.x","mode":"managed","type":"a","name":"x"}]}] => 
"child_modules":[{"address":"module.x","resources":[{"address":"a.c","mode":"managed","type":"a","name":"c"}]}] => 
"child_modules":[{"address":"module.x","resources":[{"address":"module.x.","mode":"managed","type":"a","name":"c"}]}] => 
"child_modules":[{"address":"module.x","child_modules":[{"address":"module.x.module.y","resources":[{"address":"module.x.module.y.a.c","mode":"managed","type":"a","name":"c"}]}],"resources":[{"address":"module.x.a.b","mode":"managed","type":"a","name":"b"}]},{"address":"module.z[0]","resources":[{"address":"module.z[0].a.d","mode":"managed","type":"a","name":"d"}]}],"resources":[{"address":"a.a","mode":"managed","type":"a","name":"a"}] => |a.a|-|-|-|-|;module.x|a.b|-|-|-|-|;module.x.module.y|a.c|-|-|-|-|;module.z[0]|a.d|-|-|-|-|;
"child_modules":[{"child_modules":[{"address":"module.y","resources":[{"address":"module.y.a.c","mode":"managed","type":"a","name":"c"}]}]}] => "#;

#[test]
fn objects_are_those_of_the_prior_state(rt: HostRuntime) {
    let alloc = rt.alloc();
    let before = "{\"prior_state\":{\"values\":{\"root_module\":{";
    for row in OBJECTS.lines() {
        let (members, wanted) = parted(&rt, row, " => ");
        let prior = prior_of(&rt, alloc, before, members, "}}}}");
        let actual = row_of_objects(&rt, alloc, &prior.objects);
        assert!(rt; actual == wanted, "at {members}: {actual}");
    }
}

/// Items of `resource_drift`, and the drifts that they give.
const DRIFTS: &str = r#" => 
5,null,{},[] => 
{"address":"a.x","mode":"managed","type":"a","name":"x"} => 
{"address":"a.x","mode":"managed","type":"a","name":"x","change":{"actions":["import"]}} => 
{"address":"a.x","mode":"managed","type":"a","name":"x","change":{"actions":["update","create","delete"]}} => 
{"address":"a.x","mode":"managed","type":"a","name":"x","change":{"actions":["update"]},"deposed":5} => 
{"address":"a.x","mode":"managed","type":"a","name":"x","change":{"actions":["update"]},"module_address":"module.m"} => 
{"address":"a.x","mode":"managed","type":"a","name":"x","index":true,"change":{"actions":["update"]}} => 
{"address":"a.x","mode":"managed","type":"a","name":"x","change":{"actions":["no-op"]}} => 
{"address":"a.x","mode":"managed","type":"a","name":"x","change":{"actions":["no-op"]},"previous_address":"nothing"} => 
{"address":"a.x","mode":"managed","type":"a","name":"x","change":{"actions":["no-op"]},"previous_address":"a.w"} => a.x|-|0|-|a.w;
{"address":"a.x","mode":"managed","type":"a","name":"x","change":{"actions":["forget"]}} => a.x|-|0|-|-;
{"address":"a.x","mode":"managed","type":"a","name":"x","change":{"actions":["update"],"before":{"id":"i"}}} => a.x|-|1|i|-;
{"address":"a.x","mode":"managed","type":"a","name":"x","change":{"actions":["update"],"before":{"id":"i"},"before_sensitive":{"id":true}}} => a.x|-|1|-|-;
{"address":"a.x","mode":"managed","type":"a","name":"x","change":{"actions":["update"],"before":{"id":"i"},"before_sensitive":true}} => a.x|-|1|-|-;
{"address":"module.m.a.x","mode":"managed","type":"a","name":"x","change":{"actions":["delete","create"]},"module_address":"module.m","deposed":"k"} => module.m.a.x|k|2|-|-;
{"address":"a.x","mode":"managed","type":"a","name":"x","change":{"actions":["update"]}},{"address":"a.x","mode":"managed","type":"a","name":"x","change":{"actions":["delete"]},"previous_address":"a.v"} => a.x|-|1|-|-;a.x|-|1|-|a.v;"#;

#[test]
fn drifts_follow_the_rules_of_changes(rt: HostRuntime) {
    let alloc = rt.alloc();
    for row in DRIFTS.lines() {
        let (items, wanted) = parted(&rt, row, " => ");
        let prior = prior_of(&rt, alloc, "{\"resource_drift\":[", items, "]}");
        let actual = row_of_drifts(&rt, alloc, &prior.drifts);
        assert!(rt; actual == wanted, "at {items}: {actual}");
    }
}

/// Values of `output_changes`, and the outputs that they give.
const OUTPUTS: &str = r#"null => 
5 => 
[] => 
"x" => 
{} => 
{"a":5,"b":{},"c":{"actions":["import"]},"d":{"actions":[]},"e":{"actions":["forget"]},"f":{"actions":["create","delete","create"]}} => 
{"a":{"actions":["no-op"]},"b":{"actions":["create"]},"c":{"actions":["read"]},"d":{"actions":["update"]},"e":{"actions":["delete"]}} => a noop -;b create -;c read -;d update -;e delete -;
{"a":{"actions":["delete","create"]},"b":{"actions":["create","delete"]},"c":{"actions":["create","create"]}} => a replace -;b replace -;
{"b":{"actions":["update"],"after_sensitive":true},"a":{"actions":["update"],"after_sensitive":{"x":true}},"B":{"actions":["update"],"after_sensitive":false}} => B update -;a update -;b update sensitive;
{"a":{"actions":["create"]},"a":{"actions":["delete"]}} => a delete -;
{"a":{"actions":["create"]},"a":5} => "#;

#[test]
fn outputs_are_in_the_order_of_names(rt: HostRuntime) {
    let alloc = rt.alloc();
    for row in OUTPUTS.lines() {
        let (changes, wanted) = parted(&rt, row, " => ");
        let prior = prior_of(&rt, alloc, "{\"output_changes\":", changes, "}");
        let actual = row_of_outputs(&rt, alloc, &prior.outputs);
        assert!(rt; actual == wanted, "at {changes}: {actual}");
    }
}

/// Elements of the root module, items of `resource_drift`, and the objects that both give.
const DRIFTED: &str =
    r#"{"address":"a.x","mode":"managed","type":"a","name":"x","values":{"id":"new"}} & {"address":"a.x","mode":"managed","type":"a","name":"x","change":{"actions":["update"],"before":{"id":"old"}}} => |a.x|-|-|new|old|;
{"address":"a.x","mode":"managed","type":"a","name":"x","values":{"id":"new"}} & {"address":"a.x","mode":"managed","type":"a","name":"x","change":{"actions":["update"],"before":{"id":"1"}}},{"address":"a.x","mode":"managed","type":"a","name":"x","change":{"actions":["update"],"before":{"id":"2"}}} => |a.x|-|-|new|2|;
{"address":"a.x","mode":"managed","type":"a","name":"x","values":{"id":"new"}} & {"address":"a.x","mode":"managed","type":"a","name":"x","change":{"actions":["update"],"before":{"id":"1"}}},{"address":"a.x","mode":"managed","type":"a","name":"x","change":{"actions":["delete"]}} => |a.x|-|-|new|-|;
{"address":"a.x","mode":"managed","type":"a","name":"x","values":{"id":"new"}} & {"address":"a.x","mode":"managed","type":"a","name":"x","deposed":"k","change":{"actions":["delete"],"before":{"id":"old"}}} => |a.x|-|-|new|new|;|a.x|-|k|-|old|;
{"address":"data.a.x","mode":"data","type":"a","name":"x","values":{"id":"d"}} & {"address":"data.a.x","mode":"data","type":"a","name":"x","change":{"actions":["read"],"before":{"id":"old"}}} => |data.a.x|-|-|d|d|;
 & {"address":"data.a.x","mode":"data","type":"a","name":"x","change":{"actions":["read"],"before":{"id":"old"}}} => 
 & {"address":"module.m.a.b[0]","module_address":"module.m","mode":"managed","type":"a","name":"b","index":0,"change":{"actions":["delete"],"before":{"id":"1"}}},{"address":"a.a","mode":"managed","type":"a","name":"a","change":{"actions":["delete"],"before":{"id":"2"}}},{"address":"module.m.a.b[0]","module_address":"module.m","mode":"managed","type":"a","name":"b","index":0,"change":{"actions":["delete"],"before":{"id":"3"}}} => module.m|a.b[0]|0|-|-|3|;|a.a|-|-|-|2|;
{"address":"a.z","mode":"managed","type":"a","name":"z"} & {"address":"a.b","mode":"managed","type":"a","name":"b","change":{"actions":["no-op"]}},{"address":"a.a","mode":"managed","type":"a","name":"a","change":{"actions":["no-op"]},"previous_address":"a.y"} => |a.z|-|-|-|-|;|a.a|-|-|-|-|;"#;

#[test]
fn drifts_give_ids_and_vanished_objects(rt: HostRuntime) {
    let alloc = rt.alloc();
    let before = "{\"prior_state\":{\"values\":{\"root_module\":{\"resources\":[";
    let between = "]}}},\"resource_drift\":[";
    for row in DRIFTED.lines() {
        let (plan, wanted) = parted(&rt, row, " => ");
        let (elements, items) = parted(&rt, plan, " & ");
        let state = format!(in alloc; "{before}{elements}{between}");
        let state = leaked(&rt, alloc, state.expect(&rt, "memory"));
        let prior = prior_of(&rt, alloc, state.as_str(), items, "]}");
        let actual = row_of_objects(&rt, alloc, &prior.objects);
        assert!(rt; actual == wanted, "at {plan}: {actual}");
    }
}

/// Plans that say nothing of the time before the apply.
const NOTHING: &str = r#"{}
null
5
[]
"x"
{"prior_state":null,"resource_drift":null,"output_changes":null}
{"prior_state":5,"resource_drift":5,"output_changes":5}
{"prior_state":[],"resource_drift":[],"output_changes":[]}
{"prior_state":{},"resource_drift":{},"output_changes":{}}
{"prior_state":"x","resource_drift":"x","output_changes":"x"}
{"prior_state":{"values":[]},"resource_drift":[[]]}
{"prior_state":{"values":{"root_module":[]}}}
{"prior_state":{"values":null}}"#;

#[test]
fn members_of_another_kind_count_as_absent(rt: HostRuntime) {
    let alloc = rt.alloc();
    for plan in NOTHING.lines() {
        let prior = prior_of(&rt, alloc, plan, "", "");
        let nothing = prior.objects.is_empty()
            && prior.drifts.is_empty()
            && prior.outputs.is_empty();
        assert!(rt; nothing, "at {plan}");
    }
    assert!(rt; read_prior(alloc, b"{").is_err(), "no JSON");
}
