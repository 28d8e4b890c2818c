//! Refreshes, reads and drift.

use super::*;

const REFRESHES: &str =
    r##"{"@level":"info","@message":"aws_instance.web: Refreshing state... [id=i-1]","@module":"terraform.ui","@timestamp":"1970-01-01T00:00:00.000000Z","hook":{"resource":{"addr":"aws_instance.web","module":"","resource":"aws_instance.web","implied_provider":"aws","resource_type":"aws_instance","resource_name":"web","resource_key":null},"id_key":"id","id_value":"i-1"},"type":"refresh_start"}
{"@level":"info","@message":"aws_instance.web: Refresh complete [id=i-1]","@module":"terraform.ui","@timestamp":"1970-01-01T00:00:00.000000Z","hook":{"resource":{"addr":"aws_instance.web","module":"","resource":"aws_instance.web","implied_provider":"aws","resource_type":"aws_instance","resource_name":"web","resource_key":null},"id_key":"id","id_value":"i-1"},"type":"refresh_complete"}
{"@level":"info","@message":"module.net[\"eu\u003c1\u003e\"].aws_subnet.this[0]: Refreshing state... [id=s-1]","@module":"terraform.ui","@timestamp":"1970-01-01T00:00:00.000000Z","hook":{"resource":{"addr":"module.net[\"eu\u003c1\u003e\"].aws_subnet.this[0]","module":"module.net[\"eu\u003c1\u003e\"]","resource":"aws_subnet.this[0]","implied_provider":"aws","resource_type":"aws_subnet","resource_name":"this","resource_key":0},"id_key":"id","id_value":"s-1"},"type":"refresh_start"}
{"@level":"info","@message":"aws_a.changed: Refreshing state... [id=a-1]","@module":"terraform.ui","@timestamp":"1970-01-01T00:00:00.000000Z","hook":{"resource":{"addr":"aws_a.changed","module":"","resource":"aws_a.changed","implied_provider":"aws","resource_type":"aws_a","resource_name":"changed","resource_key":null},"id_key":"id","id_value":"a-1"},"type":"refresh_start"}
{"@level":"info","@message":"aws_a.changed: Refresh complete [id=a-2]","@module":"terraform.ui","@timestamp":"1970-01-01T00:00:00.000000Z","hook":{"resource":{"addr":"aws_a.changed","module":"","resource":"aws_a.changed","implied_provider":"aws","resource_type":"aws_a","resource_name":"changed","resource_key":null},"id_key":"id","id_value":"a-2"},"type":"refresh_complete"}
{"@level":"info","@message":"aws_db.main: Refresh complete [id=d-1]","@module":"terraform.ui","@timestamp":"1970-01-01T00:00:01.000000Z","hook":{"resource":{"addr":"aws_db.main","module":"","resource":"aws_db.main","implied_provider":"aws","resource_type":"aws_db","resource_name":"main","resource_key":null},"id_key":"id","id_value":"d-1"},"type":"refresh_complete"}
{"@level":"info","@message":"aws_vpc.gone: Refresh complete","@module":"terraform.ui","@timestamp":"1970-01-01T00:00:01.000000Z","hook":{"resource":{"addr":"aws_vpc.gone","module":"","resource":"aws_vpc.gone","implied_provider":"aws","resource_type":"aws_vpc","resource_name":"gone","resource_key":null}},"type":"refresh_complete"}
"##;

/// A refresh shows the id that it is given, and no id member when there is none.
#[test]
fn refreshes_have_their_ids(rt: HostRuntime) {
    let alloc = rt.alloc();
    let plan = plan_of(&rt, alloc);
    let web = change(&rt, plan, 0);
    let subnet = change(&rt, plan, 1);
    let gone = change(&rt, plan, 3);
    let changed = change(&rt, plan, 9);
    let main = change(&rt, plan, 10);
    let rows = [
        (0, true, web, Some("i-1")),
        (0, false, web, Some("i-1")),
        (0, true, subnet, Some("s-1")),
        (0, true, changed, Some("a-1")),
        (0, false, changed, Some("a-2")),
        (1, false, main, Some("d-1")),
        (1, false, gone, None),
    ];
    let mut lines = TerraformBuffer::new(alloc);
    for (clock, starts, object, id) in rows {
        let message = if starts {
            PlanningMessage::RefreshStart { object, id }
        } else {
            PlanningMessage::RefreshComplete { object, id }
        };
        push(&rt, alloc, &mut lines, clock, message);
    }
    compare(&rt, "refreshes", &lines, REFRESHES);
}

const READS: &str =
    r##"{"@level":"info","@message":"data.aws_ami.base: Refreshing...","@module":"terraform.ui","@timestamp":"1970-01-01T00:00:00.000000Z","hook":{"resource":{"addr":"data.aws_ami.base","module":"","resource":"data.aws_ami.base","implied_provider":"aws","resource_type":"aws_ami","resource_name":"base","resource_key":null},"action":"read"},"type":"apply_start"}
{"@level":"info","@message":"data.aws_ami.base: Still refreshing... [10s elapsed]","@module":"terraform.ui","@timestamp":"1970-01-01T00:00:10.000000Z","hook":{"resource":{"addr":"data.aws_ami.base","module":"","resource":"data.aws_ami.base","implied_provider":"aws","resource_type":"aws_ami","resource_name":"base","resource_key":null},"action":"read","elapsed_seconds":10},"type":"apply_progress"}
{"@level":"info","@message":"data.aws_ami.base: Refresh complete after 0s [id=ami-7]","@module":"terraform.ui","@timestamp":"1970-01-01T00:00:00.000000Z","hook":{"resource":{"addr":"data.aws_ami.base","module":"","resource":"data.aws_ami.base","implied_provider":"aws","resource_type":"aws_ami","resource_name":"base","resource_key":null},"action":"read","id_key":"id","id_value":"ami-7","elapsed_seconds":0},"type":"apply_complete"}
"##;

/// A read shows its id at its completion alone.
#[test]
fn reads_are_those_of_an_apply(rt: HostRuntime) {
    let alloc = rt.alloc();
    let plan = plan_of(&rt, alloc);
    let object = change(&rt, plan, 2);
    let rows = [
        (0, PlanningMessage::ReadStart { object }),
        (
            10,
            PlanningMessage::ReadProgress {
                object,
                seconds: 10,
            },
        ),
        (
            0,
            PlanningMessage::ReadComplete {
                object,
                seconds: 0,
                id: Some("ami-7"),
            },
        ),
    ];
    let mut lines = TerraformBuffer::new(alloc);
    for (clock, message) in rows {
        push(&rt, alloc, &mut lines, clock, message);
    }
    compare(&rt, "reads", &lines, READS);
}

const DRIFTS: &str =
    r##"{"@level":"info","@message":"aws_instance.web: Drift detected (update)","@module":"terraform.ui","@timestamp":"1970-01-01T00:00:00.000000Z","change":{"resource":{"addr":"aws_instance.web","module":"","resource":"aws_instance.web","implied_provider":"aws","resource_type":"aws_instance","resource_name":"web","resource_key":null},"action":"update"},"type":"resource_drift"}
{"@level":"info","@message":"aws_a.moved: Drift detected (move)","@module":"terraform.ui","@timestamp":"1970-01-01T00:00:00.000000Z","change":{"resource":{"addr":"aws_a.moved","module":"","resource":"aws_a.moved","implied_provider":"aws","resource_type":"aws_a","resource_name":"moved","resource_key":null},"previous_resource":{"addr":"aws_a.old[\"\u003c\"]","module":"","resource":"aws_a.old[\"\u003c\"]","implied_provider":"aws","resource_type":"aws_a","resource_name":"old","resource_key":"\u003c"},"action":"move"},"type":"resource_drift"}
"##;

/// A drift has the previous resource and the action, and neither a reason nor an import.
#[test]
fn a_move_is_a_drift(rt: HostRuntime) {
    let alloc = rt.alloc();
    let plan = plan_of(&rt, alloc);
    let import = import_of(&rt, alloc, "a-9");
    let updated = details_of(&rt, alloc, false, None, Some(import));
    let key = Key::Name(text_of(&rt, alloc, "<"));
    let old = root_resource(&rt, alloc, "aws_a.old[\"<\"]", "old", key);
    let moved = details_of(&rt, alloc, false, Some(old), None);
    let mut lines = TerraformBuffer::new(alloc);
    let (change, details) = (change(&rt, plan, 0), updated);
    push(
        &rt,
        alloc,
        &mut lines,
        0,
        PlanningMessage::Drift { change, details },
    );
    let (change, details) = (super::change(&rt, plan, 4), moved);
    push(
        &rt,
        alloc,
        &mut lines,
        0,
        PlanningMessage::Drift { change, details },
    );
    compare(&rt, "drifts", &lines, DRIFTS);
}
