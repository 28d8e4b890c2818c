//! What no clause states: that the definitions are the intended ones, and that calls succeed when
//! memory suffices. The expected lines are those of Terraform 1.11.4, except for their timestamps.
//!
//! A test is proved before it runs, so it is written for a short proof. The functions here are
//! short, and end the test at once when memory is refused. What they make lives until the test
//! ends.

ghost use Rattle.std.specs.Prelude.{◌≡◌, true};

mod messages;
mod notes;
mod planned;

use apply_events::LATEST;
use apply_model::{
    Change, ChangeDetails, Diag, Importing, Key, Note, Plan, PreviousResource, Severity, Text,
};
use apply_plan::read_plan;
use apply_prior::{OutputAction, PlannedOutput};
use apply_text::Start;
use apply_text_planning::{
    PlanTotals, PlanningMessage, forgotten_note, push_message, push_planned, targeting_note,
    unfinished_note,
};
use apply_text_terraform::TerraformBuffer;
use std::alloc::Global;
use std::process::Abort;

/// The objects of the tests, as changes of a plan.
const PLAN: &str = r##"{"format_version":"1.2","terraform_version":"1.11.4","resource_changes":[
{"address":"aws_instance.web","mode":"managed","type":"aws_instance","name":"web","change":{"actions":["update"]}},
{"address":"module.net[\"eu<1>\"].aws_subnet.this[0]","module_address":"module.net[\"eu<1>\"]","mode":"managed","type":"aws_subnet","name":"this","index":0,"change":{"actions":["no-op"]}},
{"address":"data.aws_ami.base","mode":"data","type":"aws_ami","name":"base","change":{"actions":["read"],"before":{"id":"ami-6"}}},
{"address":"aws_vpc.gone","mode":"managed","type":"aws_vpc","name":"gone","change":{"actions":["no-op"]}},
{"address":"aws_a.moved","mode":"managed","type":"aws_a","name":"moved","change":{"actions":["no-op"]}},
{"address":"aws_a.both","mode":"managed","type":"aws_a","name":"both","change":{"actions":["no-op"]}},
{"address":"aws_a.fetched","mode":"managed","type":"aws_a","name":"fetched","change":{"actions":["no-op"]}},
{"address":"aws_a.out","mode":"managed","type":"aws_a","name":"out","change":{"actions":["forget"]}},
{"address":"aws_a.swapped","mode":"managed","type":"aws_a","name":"swapped","change":{"actions":["create","delete"]}},
{"address":"aws_a.changed","mode":"managed","type":"aws_a","name":"changed","change":{"actions":["no-op"]}},
{"address":"aws_db.main","mode":"managed","type":"aws_db","name":"main","change":{"actions":["delete"]}}]}"##;

/// Fails when `is_so` is false. A call makes a proof grow less than an assertion does.
fn holds(rt: &impl Abort, case: &str, is_so: bool)
    ensures { is_so ≡ true }
{
    assert!(rt; is_so, "{case}");
}

/// Keeps a value as long as the test runs. A proof grows with each place at which a value is
/// dropped.
fn leaked<'a, T: Drop + 'a>(rt: &impl Abort, alloc: Global, value: T) -> &'a T {
    let leaked = Box::new(alloc, value).expect(rt, "memory");
    &*Box::leak(leaked)
}

/// Fails when the bytes differ.
fn compare(rt: &impl Abort, case: &str, lines: &TerraformBuffer, wanted: &str) {
    assert!(rt; lines.as_bytes() == wanted.as_bytes(), "at {case}");
}

fn text_of(rt: &impl Abort, alloc: Global, text: &str) -> Text {
    Text::new(alloc, text).expect(rt, "memory")
}

/// The plan with the objects of the tests.
fn plan_of(rt: &impl Abort, alloc: Global) -> &'static Plan {
    let plan = read_plan(alloc, PLAN.as_bytes());
    leaked(rt, alloc, plan.ok().expect(rt, "a plan"))
}

/// The change of that number, counted from 0. Fails when there is none.
fn change(rt: &impl Abort, plan: &'static Plan, number: u32) -> &'static Change {
    holds(rt, "a change", number < plan.len());
    plan.change(number)
}

/// The address that an object had in the root module.
fn root_resource(
    rt: &impl Abort,
    alloc: Global,
    address: &str,
    name: &str,
    key: Key,
) -> PreviousResource {
    PreviousResource {
        address: text_of(rt, alloc, address),
        module_address: text_of(rt, alloc, ""),
        resource: text_of(rt, alloc, address),
        kind_name: text_of(rt, alloc, "aws_a"),
        name: text_of(rt, alloc, name),
        key,
    }
}

/// An import by that id.
fn import_of(rt: &impl Abort, alloc: Global, id: &str) -> Importing {
    Importing {
        id: Some(text_of(rt, alloc, id)),
    }
}

/// Details of a change that state nothing else.
fn details_of(
    rt: &impl Abort,
    alloc: Global,
    forgets: bool,
    previous: Option<PreviousResource>,
    importing: Option<Importing>,
) -> &'static ChangeDetails {
    let details = ChangeDetails {
        forgets,
        reason: None,
        importing,
        generated_config: None,
        planned_id: None,
        previous,
    };
    leaked(rt, alloc, details)
}

/// Appends the line of a message, `clock` seconds after 1970.
fn push(
    rt: &impl Abort,
    alloc: Global,
    lines: &mut TerraformBuffer,
    clock: u64,
    message: PlanningMessage<'_>,
) {
    holds(rt, "in time", clock <= LATEST);
    let mut scratch = String::new(alloc);
    let pushed = push_message(lines, &mut scratch, Start::zero(), clock, message);
    pushed.ok().expect(rt, "memory");
}
