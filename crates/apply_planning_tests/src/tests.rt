//! Checks that the definitions mean what they should, by rows that were worked out by hand.

ghost use Rattle.std.specs.Prelude.{◌≡◌, ◌≤◌, true, is_some, length};
ghost use Rattle.apply_model.specs.Plan.Address.{relative_address};
ghost use Rattle.apply_planning.specs.PlanningWork.{seconds_in_all};

use apply_model::{
    Action, Change, ChangeParts, Diag, Key, Mode, Note, Severity, Text, relative_address,
};
use apply_planning::{MAX_TOLD, Schedule, Told};
use std::alloc::Global;
use std::process::Abort;

/// Rows of told objects and their events. An object has its name, its seconds, how it ends, and the
/// names that it depends on. Before the arrow stands the number of lanes. Each event has its
/// second, its lane, the object and the kind. Then stand the last second and the lost objects.
const ROWS: &str =
    "a 0 ok b; c 2 ok in 1 => 0 0 a Start; 0 0 a Complete(0); 0 0 c Start; 2 0 c Complete(2); at 2
a 0 ok b; b 0 ok c; c 2 ok in 1 => 0 0 c Start; 2 0 c Complete(2); 2 0 b Start; 2 0 b Complete(0); 2 0 a Start; 2 0 a Complete(0); at 2
a 0 ok b; b 0 ok c; c 2 error in 1 => 0 0 c Start; 2 0 c Errored(2); 2 0 c ErrorNote; at 2 lost a b c
a 0 ok b; b 0 ok a in 1 => at 0 lost a b
c 3 ok c 5 none in 1 => 0 0 c Start; 3 0 c Complete(3); at 3
a 0 ok c; b 0 ok; c 0 ok; d 0 ok a in 1 => 0 0 b Start; 0 0 b Complete(0); 0 0 c Start; 0 0 c Complete(0); 0 0 a Start; 0 0 a Complete(0); 0 0 d Start; 0 0 d Complete(0); at 0
a 0 ok c; b 0 ok; c 0 ok; d 0 ok a in 2 => 0 0 b Start; 0 0 b Complete(0); 0 0 c Start; 0 0 c Complete(0); 0 0 a Start; 0 0 a Complete(0); 0 1 d Start; 0 1 d Complete(0); at 0
a 0 ok c; b 5 ok; c 1 ok; d 0 ok a in 2 => 0 0 b Start; 0 1 c Start; 1 1 c Complete(1); 1 1 a Start; 1 1 a Complete(0); 1 1 d Start; 1 1 d Complete(0); 5 0 b Complete(5); at 5
web 2 ok subnet; ami 12 ok; subnet 3 ok in 2 => 0 0 ami Start; 0 1 subnet Start; 3 1 subnet Complete(3); 3 1 web Start; 5 1 web Complete(2); 10 0 ami Progress(10); 12 0 ami Complete(12); at 12
db 0 ok peer; net 0 ok; peer 4 error in 1 => 0 0 net Start; 0 0 net Complete(0); 0 0 peer Start; 4 0 peer Errored(4); 4 0 peer ErrorNote; at 4 lost db peer
ami 11 warning; web 1 ok ami in 1 => 0 0 ami Start; 10 0 ami Progress(10); 11 0 ami WarnNote; 11 0 web Start; 12 0 web Complete(1); at 12
a 10 ok; b 20 error in 64 => 0 0 a Start; 0 1 b Start; 10 0 a Complete(10); 10 1 b Progress(10); 20 1 b Errored(20); 20 1 b ErrorNote; at 20 lost b
a 2 ok; a 4 ok; b 1 ok a; b 0 ok a b in 2 => 0 0 a Start; 0 1 a Start; 2 0 a Complete(2); 4 1 a Complete(4); 4 0 b Start; 4 1 b Start; 4 1 b Complete(0); 5 0 b Complete(1); at 5
a 2 ok; a 4 error; b 1 ok a; c 1 ok in 1 => 0 0 a Start; 2 0 a Complete(2); 2 0 a Start; 6 0 a Errored(4); 6 0 a ErrorNote; 6 0 c Start; 7 0 c Complete(1); at 7 lost a b
in 3 => at 0";

/// Fails if the condition is false. A call costs a proof less than an assertion.
fn holds(rt: &impl Abort, case: &str, is_so: bool)
    ensures { is_so ≡ true }
{
    assert!(rt; is_so, "{case}");
}

/// Fails if the texts differ.
fn text_is(rt: &impl Abort, case: &str, actual: &str, wanted: &str) {
    assert!(rt; actual == wanted, "{case}: {actual}");
}

/// A copy of the text.
fn text(rt: &impl Abort, alloc: Global, bytes: &str) -> Text {
    Text::new(alloc, bytes).expect(rt, "memory")
}

/// The object of that name.
fn object(rt: &impl Abort, alloc: Global, name: &str) -> Change {
    let parts = ChangeParts {
        address: text(rt, alloc, name),
        module_address: text(rt, alloc, ""),
        mode: Mode::DataSource,
        kind_name: text(rt, alloc, name),
        name: text(rt, alloc, name),
        key: Key::None,
        deposed: None,
        prior_id: None,
        action: Action::NoOp,
    };
    let address = relative_address(parts.module_address.as_str(), parts.address.as_str());
    holds(rt, "an address", address.is_some());
    Change::new(parts)
}

/// How an object ends.
fn failure(rt: &impl Abort, alloc: Global, word: &str) -> Option<Note> {
    if word == "ok" {
        return None;
    }
    let severity = if word == "error" {
        Severity::Error
    } else {
        Severity::Warning
    };
    let diag = Diag {
        summary: text(rt, alloc, word),
        detail: text(rt, alloc, ""),
        range: None,
        snippet: None,
    };
    Some(Note {
        severity,
        diag,
        address: None,
    })
}

/// The object that the row describes.
fn told_of(rt: &impl Abort, alloc: Global, described: &str) -> Told {
    let mut words = described.split(' ');
    let name = words.next().expect(rt, "a name");
    let seconds = words.next().expect(rt, "seconds").parse::<u32>();
    let ending = words.next().expect(rt, "an ending");
    let mut depends_on = Vec::new(alloc);
    for word in words {
        let needed = text(rt, alloc, word);
        holds(rt, "memory", depends_on.push(needed).is_ok());
    }
    Told {
        object: object(rt, alloc, name),
        name: text(rt, alloc, name),
        depends_on,
        id_before: None,
        id_after: None,
        seconds: seconds.ok().expect(rt, "seconds"),
        failure: failure(rt, alloc, ending),
    }
}

/// All objects that the row describes.
fn all_told(rt: &impl Abort, alloc: Global, described: &str) -> Vec<Told> {
    let mut told = Vec::new(alloc);
    if !described.is_empty() {
        for one in described.split("; ") {
            let one = told_of(rt, alloc, one);
            holds(rt, "memory", told.push(one).is_ok());
        }
    }
    told
}

/// The objects take few seconds together.
fn takes_little(rt: &impl Abort, told: &[Told])
    ensures { seconds_in_all told.now ≤ 864000000 }
{
    let mut seconds: u64 = 0;
    for one in told {
        holds(rt, "few seconds", seconds <= 100_000);
        holds(rt, "few seconds", one.seconds <= 100_000);
        seconds += one.seconds as u64;
    }
    holds(rt, "few seconds", seconds <= 100_000);
}

/// The events of the objects, the last second, and the lost objects.
fn described(rt: &impl Abort, alloc: Global, told: &[Told], lanes: u8) -> String {
    let mut text = String::new(alloc);
    holds(rt, "some lanes", 0 < lanes);
    holds(rt, "few objects", told.len() <= MAX_TOLD);
    takes_little(rt, told);
    let schedule = Schedule::new(alloc, told, lanes).ok().expect(rt, "memory");
    let mut events = schedule.events(alloc, told).ok().expect(rt, "memory");
    while let Some(event) = events.next() {
        let one = told.get(event.change as usize).expect(rt, "an object");
        write!(
            text,
            "{} {} {} {:?}; ",
            event.at,
            event.worker,
            one.name.as_str(),
            event.what
        )
        .expect(rt, "memory");
    }
    write!(text, "at {}", schedule.ends_at()).expect(rt, "memory");
    let mut is_first = true;
    for number in 0..told.len() {
        if schedule.is_lost(number as u32) {
            if is_first {
                text.push_str(" lost").expect(rt, "memory");
            }
            is_first = false;
            write!(text, " {}", told[number].name.as_str()).expect(rt, "memory");
        }
    }
    text
}

#[test]
fn objects_in_lanes(rt: HostRuntime) {
    let alloc = rt.alloc();
    for row in ROWS.lines() {
        let (objects, wanted) = row.split_once(" => ").expect(&rt, "a mark");
        let (objects, lanes) = objects.rsplit_once("in ").expect(&rt, "lanes");
        let told = all_told(&rt, alloc, objects.trim_end());
        let lanes = lanes.parse::<u8>().ok().expect(&rt, "lanes");
        let actual = described(&rt, alloc, told.as_slice(), lanes);
        text_is(&rt, row, actual.as_str(), wanted);
    }
}
