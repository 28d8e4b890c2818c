//! A script with dependencies, and lanes that keep them.

use crate::printing::{answer, begin, leaked};
use crate::readers::plan_of;
use crate::runs::THREE_CREATES;
use apply_events::Lanes;
use apply_hooks::Registry;
use apply_plan::{Plan, Script, read_script};
use std::alloc::Global;
use std::io;
use std::io::ErrorKind;

/// A script of the three creates: the first waits for both others, and the last for the second.
const WAITS: &str =
    r#"{"changes":[{"address":"null_resource.a","steps":[{"seconds":2,"after":["null_resource.b",{"address":"null_resource.c","step":0}]}]},{"address":"null_resource.c","steps":[{"seconds":15,"after":["null_resource.b"]}]}]}"#;

/// Reads the script with dependencies.
pub fn script_with_waits(rt: &impl Print, alloc: Global) -> io::Result<()> {
    let plan = plan_of(alloc, THREE_CREATES)?;
    begin(rt)?;
    answer(rt, &read_script(alloc, WAITS.as_bytes(), plan))
}

/// The script with dependencies, which must be accepted.
fn waits_of(alloc: Global, plan: &Plan) -> io::Result<&'static Script> {
    match read_script(alloc, WAITS.as_bytes(), plan) {
        Ok(script) => Ok(leaked(alloc, script)?),
        Err(_) => Err(io::Error::from(ErrorKind::OutOfMemory)),
    }
}

/// Starts two lanes that apply the three creates.
pub fn start(rt: &impl Print, alloc: Global) -> io::Result<()> {
    let plan = plan_of(alloc, THREE_CREATES)?;
    let script = waits_of(alloc, plan)?;
    let registry = leaked(alloc, Registry::new(alloc))?;
    begin(rt)?;
    match Lanes::start(alloc, plan, script, registry, 2) {
        Ok(lanes) => print_events(rt, lanes),
        Err(error) => println!(rt; "Err({error:?})"),
    }
}

/// More events than the lanes give.
const MOST_EVENTS: usize = 100;

/// Prints the events of the lanes.
fn print_events(rt: &impl Print, mut lanes: Lanes<'_>) -> io::Result<()> {
    println!(rt; "Ok")?;
    for _ in 0..MOST_EVENTS {
        let Some(event) = lanes.next() else {
            break;
        };
        println!(rt; "{event:?}")?;
    }
    Ok(())
}
