//! A program that makes one public call, so that `checks/refuse_calls` can refuse it memory.
//!
//! The line before the answer begins with `call`, and prints what was there before. A call that
//! could not be prepared prints neither line.
#![tactic(auto)]

mod command;
mod lanes;
mod lines;
mod lists;
mod opening;
mod printing;
mod readers;
mod runs;
mod whole_runs;

use std::alloc::Global;
use std::io;
use std::io::ErrorKind;
use std::process::ExitCode;
use std::sync::Wait;
use std::thread::Threads;

/// The exit status of `main` if a call could not be prepared.
const UNPREPARED: u8 = 4;

fn main(rt: HostRuntime) -> ExitCode {
    match answer(&rt, &rt) {
        Ok(()) => ExitCode::from(0),
        Err(_) => ExitCode::from(UNPREPARED),
    }
}

/// Makes the call that the first argument names. `Err` if it names none, or if the call could not
/// be prepared or printed.
fn answer<R: Print + Threads + Wait + Sync>(host: &HostRuntime, rt: &R) -> io::Result<()> {
    let words: Vec<String> = std::env::args(host)?.collect(host.alloc())?;
    let Some(word) = words.get(1) else {
        return Err(io::Error::from(ErrorKind::InvalidInput));
    };
    answer_of(rt, host.alloc(), word.as_str())
}

/// Makes the call with that name. `Err` if it could not be prepared or printed.
fn answer_of<R: Print + Threads + Wait + Sync>(
    rt: &R,
    alloc: Global,
    name: &str,
) -> io::Result<()> {
    match name {
        "read_plan" => readers::quoted_plan(rt, alloc),
        "repeated_change" => readers::repeated_change(rt, alloc),
        "read_script" => readers::script(rt, alloc),
        "read_script_with_waits" => lanes::script_with_waits(rt, alloc),
        "lanes_start" => lanes::start(rt, alloc),
        "rules_push" => lists::rules_push(rt, alloc),
        "registry_add" => lists::registry_add(rt, alloc),
        "version_line" => lines::version(rt, alloc),
        "summary_line" => lines::summary(rt, alloc),
        "event_line" => lines::event(rt, alloc),
        "push_version" => lines::pushed_version(rt, alloc),
        "push_summary" => lines::pushed_summary(rt, alloc),
        "push_event" => lines::pushed_event(rt, alloc),
        "open" => opening::bus(rt, alloc),
        "claims_open" => opening::claims(rt, alloc),
        "read_invocation" => command::words(rt, alloc),
        "read_words" => command::settings(rt, alloc),
        "apply_bytes" => runs::by_one(rt, alloc),
        "apply_bytes_by_eight" => runs::by_eight(rt, alloc),
        "read_all" => whole_runs::input(rt, alloc),
        "run_command" => whole_runs::by_one(rt, alloc),
        "run_command_by_eight" => whole_runs::by_eight(rt, alloc),
        _ => Err(io::Error::from(ErrorKind::InvalidInput)),
    }
}
