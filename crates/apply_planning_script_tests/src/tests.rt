//! What no clause states: that the definitions are the intended ones, and that calls succeed when
//! memory suffices.

use apply_model::{
    Action, Change, ChangeDetails, ChangeParts, Key, Mode, Plan, Severity, Text, relative_address,
};
use apply_plan::ScriptError;
use apply_planning::Told;
use apply_planning_script::{PlanningRules, name_of, told_objects};
use apply_prior::{Drift, PriorObject};
use std::alloc::Global;
use std::process::Abort;

/// Keeps a value as long as the test runs. A proof grows with each place at which a value is
/// dropped.
fn leaked<'a, T: Drop + 'a>(rt: &impl Abort, alloc: Global, value: T) -> &'a T {
    let leaked = Box::new(alloc, value).expect(rt, "memory");
    &*Box::leak(leaked)
}

fn parted<'a>(rt: &impl Abort, text: &'a str, mark: &str) -> (&'a str, &'a str) {
    text.split_once(mark).expect(rt, "a mark")
}

fn text(rt: &impl Abort, alloc: Global, text: &str) -> Text {
    Text::new(alloc, text).expect(rt, "memory")
}

fn option(rt: &impl Abort, alloc: Global, text: Option<&str>) -> Option<Text> {
    Text::of_option(alloc, text).expect(rt, "memory")
}

/// A change of the resource `aws_a.NAME`, or of the data source `data.aws_a.NAME`, in a module.
fn change(
    rt: &impl Abort,
    alloc: Global,
    module: &str,
    mode: Mode,
    address: &str,
    deposed: Option<&str>,
    id: Option<&str>,
) -> Change {
    let name = match address.rsplit_once('.') {
        Some((_, name)) => name,
        None => address,
    };
    let parts = ChangeParts {
        address: text(rt, alloc, address),
        module_address: text(rt, alloc, module),
        mode,
        kind_name: text(rt, alloc, "aws_a"),
        name: text(rt, alloc, name),
        key: Key::None,
        deposed: option(rt, alloc, deposed),
        prior_id: option(rt, alloc, id),
        action: Action::NoOp,
    };
    let relative = relative_address(parts.module_address.as_str(), parts.address.as_str());
    assert!(rt; relative.is_some());
    Change::new(parts)
}

/// An object of the prior state.
fn object(
    rt: &impl Abort,
    alloc: Global,
    mode: Mode,
    address: &str,
    id: Option<&str>,
    before: Option<&str>,
) -> PriorObject {
    PriorObject {
        object: change(rt, alloc, "", mode, address, None, id),
        depends_on: Vec::new(alloc),
        id_before: option(rt, alloc, before),
    }
}

/// The data source `data.aws_a.d`, then `aws_a.w` with the id `i-1`, then `aws_a.gone`, which has
/// vanished and had the id `g-1`.
fn objects(rt: &impl Abort, alloc: Global) -> Vec<PriorObject> {
    let mut objects = Vec::new(alloc);
    let data = object(
        rt,
        alloc,
        Mode::DataSource,
        "data.aws_a.d",
        Some("ami"),
        None,
    );
    objects.push(data).expect(rt, "memory");
    let web = object(
        rt,
        alloc,
        Mode::Managed,
        "aws_a.w",
        Some("i-1"),
        Some("i-1"),
    );
    objects.push(web).expect(rt, "memory");
    let gone = object(rt, alloc, Mode::Managed, "aws_a.gone", None, Some("g-1"));
    objects.push(gone).expect(rt, "memory");
    objects
}

/// A plan with one change, of `aws_a.w`, and its details.
fn plan(rt: &impl Abort, alloc: Global) -> &'static Plan {
    let mut changes = Vec::new(alloc);
    let web = change(rt, alloc, "", Mode::Managed, "aws_a.w", None, Some("i-1"));
    changes.push(web).expect(rt, "memory");
    assert!(rt; changes.len() <= 10_000);
    leaked(rt, alloc, Plan::new(text(rt, alloc, "1.11.4"), changes))
}

fn details(rt: &impl Abort, alloc: Global, forgets: bool) -> &'static Vec<ChangeDetails> {
    let mut details = Vec::new(alloc);
    let of_web = ChangeDetails {
        forgets,
        reason: None,
        importing: None,
        generated_config: None,
        planned_id: None,
        previous: None,
    };
    details.push(of_web).expect(rt, "memory");
    leaked(rt, alloc, details)
}

fn shown(text: &Option<Text>) -> &str {
    match text {
        Some(text) => text.as_str(),
        None => "-",
    }
}

fn shown_failure(told: &Told) -> &str {
    match &told.failure {
        Some(note) => match note.severity {
            Severity::Error => " error",
            Severity::Warning => " warning",
        },
        None => "",
    }
}

/// What a stream tells of an object, as one row.
fn row_of(rt: &impl Abort, alloc: Global, told: &Told) -> &'static str {
    let name = told.name.as_str();
    let start = shown(&told.id_before);
    let end = shown(&told.id_after);
    let seconds = told.seconds;
    let failure = shown_failure(told);
    let row = format!(in alloc; "{name} {start} {end} {seconds}{failure}, ");
    leaked(rt, alloc, row.expect(rt, "memory")).as_str()
}

fn shown_all(rt: &impl Abort, alloc: Global, all: &[Told]) -> &'static str {
    let mut rows = String::new(alloc);
    for told in all {
        rows.push_str(row_of(rt, alloc, told)).expect(rt, "memory");
    }
    leaked(rt, alloc, rows).as_str()
}

fn shown_refusal(rt: &impl Abort, alloc: Global, refusal: ScriptError) -> &'static str {
    let row = format!(in alloc; "{refusal}").expect(rt, "memory");
    leaked(rt, alloc, row).as_str()
}

/// What a stream tells, or the refusal: of each object its name, the ids at the start and at the
/// end, and the seconds, each followed by a blank.
fn told(
    rt: &impl Abort,
    alloc: Global,
    rules: PlanningRules,
    forgets: bool,
    script: &str,
) -> &'static str {
    let plan = plan(rt, alloc);
    let details = details(rt, alloc, forgets);
    let drifts: Vec<Drift> = Vec::new(alloc);
    let bytes = if script.is_empty() {
        None
    } else {
        Some(script.as_bytes())
    };
    let answer = told_objects(
        alloc,
        bytes,
        rules,
        plan,
        details,
        objects(rt, alloc),
        &drifts,
    );
    match &*leaked(rt, alloc, answer) {
        Ok(all) => shown_all(rt, alloc, all),
        Err(refusal) => shown_refusal(rt, alloc, *refusal),
    }
}

/// Scripts and what a stream tells by them: a name, the ids at the start and at the end, the seconds.
const SCRIPTS: &str = r#" => data.aws_a.d - ami 0, aws_a.w i-1 i-1 0, aws_a.gone g-1 - 0,
{"planning":null} => data.aws_a.d - ami 0, aws_a.w i-1 i-1 0, aws_a.gone g-1 - 0,
{"planning":[]} => data.aws_a.d - ami 0, aws_a.w i-1 i-1 0, aws_a.gone g-1 - 0,
{"planning":5} => the script is malformed
{"planning":[5]} => script planning 0 is malformed
{"planning":[{}]} => script planning 0 is malformed
{"planning":[{"address":""}]} => script planning 0 is malformed
{"planning":[{"address":"aws_a.w","seconds":1.0}]} => script planning 0 is malformed
{"planning":[{"address":"aws_a.w","seconds":86401}]} => script planning 0 is malformed
{"planning":[{"address":"aws_a.w","gone":1}]} => script planning 0 is malformed
{"planning":[{"address":"aws_a.w","failed":"x"}]} => script planning 0 is malformed
{"planning":[{"address":"aws_a.w","skipped":true,"seconds":0}]} => script planning 0 is malformed
{"planning":[{"address":"aws_a.w","gone":true,"failed":{"summary":"x"}}]} => script planning 0 is malformed
{"planning":[{"address":"aws_a.w","skipped":false,"seconds":86400}]} => data.aws_a.d - ami 0, aws_a.w i-1 i-1 86400, aws_a.gone g-1 - 0,
{"planning":[{"address":"aws_a.w","skipped":true,"gone":false,"id":"","failed":null}]} => data.aws_a.d - ami 0, aws_a.gone g-1 - 0,
{"planning":[{"address":"aws"},{}]} => script planning 0 names no object
{"planning":[{"address":"aws_x.y"},{"address":"module.m","id":"m-1","gone":true}]} => data.aws_a.d - ami 0, aws_a.w i-1 i-1 0, aws_a.gone g-1 - 0, aws_x.y - - 0, module.m m-1 - 0,
{"planning":[{"address":"data.aws_a.d","gone":true}]} => script planning 0 does not fit its object
{"planning":[{"address":"data.aws_a.d","deposed":"k"}]} => script planning 0 does not fit its object
{"planning":[{"address":"aws_a.w","failed":{"summary":"x","severity":"warning"}}]} => script planning 0 does not fit its object
{"planning":[{"address":"data.aws_a.d","failed":{"summary":"x","severity":"warning"}}]} => data.aws_a.d - ami 0 warning, aws_a.w i-1 i-1 0, aws_a.gone g-1 - 0,
{"planning":[{"address":"aws_a.w"},{"address":"aws_a.w","deposed":""}]} => script planning 1 repeats an earlier one
{"planning":[{"address":"aws_a.w","deposed":"k"}]} => data.aws_a.d - ami 0, aws_a.w i-1 i-1 0, aws_a.gone g-1 - 0, aws_a.w - - 0,
{"planning":[{"address":"aws_a.w","id":"new"},{"address":"aws_a.gone","id":"x","gone":true}]} => data.aws_a.d - ami 0, aws_a.w i-1 new 0, aws_a.gone g-1 - 0,"#;

/// Rules, whether the plan forgets `aws_a.w`, and what a stream tells without a script: `d` of a
/// command that destroys, `n` without a refresh, `p` of a partial plan, `f` where it forgets.
const RULES: &str = "- => data.aws_a.d - ami 0, aws_a.w i-1 i-1 0, aws_a.gone g-1 - 0,
d => data.aws_a.d - ami 0, aws_a.w i-1 i-1 0, aws_a.gone g-1 - 0,
n => data.aws_a.d - ami 0,
dn => 
p => aws_a.w i-1 i-1 0,
pn => 
f => data.aws_a.d - ami 0, aws_a.gone g-1 - 0,
pf => ";

/// The rules of a row of `RULES`.
fn rules(row: &str) -> PlanningRules {
    PlanningRules {
        destroys: row.contains('d'),
        refreshes: !row.contains('n'),
        is_partial: row.contains('p'),
    }
}

#[test]
fn scripts_decide_what_is_told(rt: HostRuntime) {
    let alloc = rt.alloc();
    for row in SCRIPTS.lines() {
        let (script, wanted) = parted(&rt, row, " => ");
        let actual = told(&rt, alloc, rules("-"), false, script);
        assert!(rt; actual.trim_end() == wanted, "at {script}: {actual}");
    }
}

#[test]
fn rules_decide_what_is_told_without_a_script(rt: HostRuntime) {
    let alloc = rt.alloc();
    for row in RULES.lines() {
        let (word, wanted) = parted(&rt, row, " => ");
        let actual = told(&rt, alloc, rules(word), word.contains('f'), "");
        assert!(rt; actual.trim_end() == wanted, "at {word}: {actual}");
    }
}

/// Modules, modes and addresses of objects, and their names.
const NAMES: &str = r#" => aws_a.x => aws_a.x
 => data.aws_a.x => data.aws_a.x
module.m[0] => module.m[0].aws_a.x => module.m.aws_a.x
module.m["a.b"].module.n => module.m["a.b"].module.n.data.aws_a.x => module.m.module.n.data.aws_a.x
module => module.aws_a.x => module.aws_a.x
module.m[01] => module.m[01].aws_a.x => module.m[01].aws_a.x"#;

#[test]
fn names_have_no_keys(rt: HostRuntime) {
    let alloc = rt.alloc();
    for row in NAMES.lines() {
        let (module, rest) = parted(&rt, row, " => ");
        let (address, wanted) = parted(&rt, rest, " => ");
        let mode = if address.contains("data.") {
            Mode::DataSource
        } else {
            Mode::Managed
        };
        let object = change(&rt, alloc, module, mode, address, None, None);
        let object = leaked(&rt, alloc, object);
        let name = leaked(&rt, alloc, name_of(alloc, object).expect(&rt, "memory"));
        assert!(rt; name.as_str() == wanted, "at {address}");
    }
}
