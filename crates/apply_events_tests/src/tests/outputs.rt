//! Outputs of provisioners at times that no script states.

ghost use Rattle.std.specs.Prelude.{◌≡◌, ◌≤◌, ◌+◌, ◌∷◌, [], length, vec_len};

use super::*;
use apply_model::{
    Ending, Outcome, Provisioner, Provisioners, ScriptStep, StepOutcomes, Text, TimedText,
    TimedTexts, Waits,
};

/// A text.
fn hi(rt: &impl Abort, alloc: Global) -> Text {
    Text::new(alloc, "hi").ok().expect(rt, "memory")
}

/// Adds a text that comes after so many seconds.
fn add(rt: &impl Abort, alloc: Global, texts: &mut Vec<TimedText>, after: u32)
    ensures { vec_len texts.new ≤ vec_len texts.old + 1 }
{
    let text = hi(rt, alloc);
    texts
        .push(TimedText { after, text })
        .ok()
        .expect(rt, "memory");
}

/// Four texts that come after these seconds.
fn texts(rt: &impl Abort, alloc: Global, times: [u32; 4]) -> TimedTexts
    ensures { length result ≤ 4 }
{
    let mut texts = Vec::new(alloc);
    add(rt, alloc, &mut texts, times[0]);
    add(rt, alloc, &mut texts, times[1]);
    add(rt, alloc, &mut texts, times[2]);
    add(rt, alloc, &mut texts, times[3]);
    TimedTexts::new(texts)
}

/// A list of one item.
fn list_of<T: Drop>(rt: &impl Abort, alloc: Global, item: T) -> Vec<T>
    ensures items { result.items ≡ item ∷ [] }
    ensures few { vec_len result ≤ 1 }
{
    let mut list = Vec::new(alloc);
    list.push(item).ok().expect(rt, "memory");
    list
}

/// A script whose first change has one step. Its provider takes 3 seconds, and its provisioner with
/// these outputs takes 12.
fn provisioned(rt: &impl Abort, alloc: Global, output: TimedTexts) -> &'static Script
    requires { length output ≤ 4 }
{
    let provisioner = Provisioner {
        name: hi(rt, alloc),
        seconds: 12,
        output,
        failed: None,
        may_fail: false,
    };
    let step = ScriptStep::Answered(Outcome {
        seconds: 3,
        provisioners: Provisioners::new(list_of(rt, alloc, provisioner)),
        result: Ending::Done {
            id: None,
            warning: None,
        },
        after: Waits::new(Vec::new(alloc)),
    });
    let steps = Some(StepOutcomes::new(list_of(rt, alloc, step)));
    leaked(rt, alloc, Script::new(list_of(rt, alloc, steps)))
}

/// An output that is too early comes with the output before it. An output that is too late comes
/// with the end.
const OUT_OF_TIME: &str =
    "begins 0; (0, 7, 0, 0, Start); (3, 7, 0, 0, ProvisionStart(0)); (10, 7, 0, 0, Progress(10)); (10, 7, 0, 0, ProvisionOutput { prov: 0, line: 0 }); (10, 7, 0, 0, ProvisionOutput { prov: 0, line: 1 }); (15, 7, 0, 0, ProvisionOutput { prov: 0, line: 2 }); (15, 7, 0, 0, ProvisionOutput { prov: 0, line: 3 }); (15, 7, 0, 0, ProvisionComplete(0)); (15, 7, 0, 0, Complete(15)); counted (1, 0, 0, 0, 0); ended 15;";

#[test]
fn outputs_out_of_time(rt: HostRuntime) {
    let alloc = rt.alloc();
    let texts = texts(&rt, alloc, [7, 5, u32::MAX, 3]);
    let script = provisioned(&rt, alloc, texts);
    let plan = plan_of(&rt, alloc, CREATE);
    let none = leaked(&rt, alloc, Registry::new(alloc));
    events_are(&rt, alloc, plan, script, none, 0, OUT_OF_TIME);
}

/// Fails if texts after these seconds are in time in a provisioner of `seconds` seconds and should
/// not be, or the reverse.
fn are_in_time(rt: &impl Abort, alloc: Global, times: [u32; 4], seconds: u32, wanted: bool) {
    let texts = texts(rt, alloc, times);
    holds(rt, "in time", texts.are_in_time(seconds) == wanted);
}

#[test]
fn outputs_are_in_time_or_not(rt: HostRuntime) {
    let alloc = rt.alloc();
    are_in_time(&rt, alloc, [0, 7, 12, 12], 12, true);
    are_in_time(&rt, alloc, [0, 0, 0, 0], 0, true);
    are_in_time(&rt, alloc, [0, 7, 12, 13], 12, false);
    are_in_time(&rt, alloc, [0, 7, 5, 12], 12, false);
    are_in_time(&rt, alloc, [12, 12, 12, 11], 12, false);
}
