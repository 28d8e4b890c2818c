//! Tests of what no clause states: when a panel is drawn, and for which size of the screen.

mod world;

use std::alloc::Global;
use std::cell::Cell;
use std::io;
use std::io::{ErrorKind, Write};
use std::process::Abort;
use std::time::{Clock, Duration};
use stream_ahead::Pace;
use stream_panel::Size;
use stream_watch::{Looks, Watcher};
use stream_watch_cli::{Panel, Screen};
use world::{Taker, World};

/// Two creates are planned, and one of them begins.
const BEGUN: &str = r#"
{"@timestamp":"1970-01-01T00:00:00Z","type":"version","terraform":"1.11.4"}
{"@timestamp":"1970-01-01T00:00:00Z","type":"planned_change","change":{"action":"create","resource":{"addr":"a"}}}
{"@timestamp":"1970-01-01T00:00:00Z","type":"planned_change","change":{"action":"create","resource":{"addr":"b"}}}
{"@timestamp":"1970-01-01T00:00:01Z","type":"apply_start","hook":{"action":"create","resource":{"addr":"a"}}}
"#;

/// What is written while a read waits two seconds, with a frame at its begin and one each second. The
/// screen has 80 columns, then 60, and then 100. The lines of the first panel have 61 columns and 18:
/// on 60 columns they take three rows. On 39 columns there is no panel.
const WRITTEN: &str =
    "\r\u{1b}[J\u{1b}[?7l    1s  ▒▒▒▒▒▒▒▒▒▒░░░░░░░░░░ 0 of 2 done, 1 under way, 1 left
    0s  ▸ create a
\u{1b}[?7h\r\u{1b}[3A\u{1b}[J\u{1b}[?7l    2s  ▒▒▒▒▒▒▒▒▒░░░░░░░░░ 0 of 2 done, 1 under way, 1 left
    1s  ▸ create a
\u{1b}[?7h\r\u{1b}[2A\u{1b}[J\u{1b}[?7l    3s  ▒▒▒▒▒▒▒▒▒▒░░░░░░░░░░ 0 of 2 done, 1 under way, 1 left
    2s  ▸ create a
\u{1b}[?7h\r\u{1b}[3A\u{1b}[J\r\u{1b}[J";

/// Keeps the value until the process ends: a proof grows with each place that drops a value.
fn leaked<'a, T: Drop + 'a>(rt: &impl Abort, alloc: Global, value: T) -> &'a mut T {
    Box::leak(Box::new(alloc, value).expect(rt, "memory"))
}

/// The state after the lines, of which nothing is left to tell.
fn state_after(rt: &impl Abort, alloc: Global, lines: &str) -> &'static mut Watcher {
    let looks = Looks {
        width: None,
        has_colour: false,
        has_panel: true,
    };
    let watcher = leaked(rt, alloc, Watcher::new(alloc, false, looks));
    for line in lines.trim().lines() {
        watcher.text(line.as_bytes()).expect(rt, "memory");
    }
    watcher.clear();
    watcher
}

#[test]
fn each_frame_has_the_size_of_its_time(rt: HostRuntime) {
    let alloc = rt.alloc();
    let world: &'static World = leaked(&rt, alloc, World::new());
    let watcher = state_after(&rt, alloc, BEGUN);
    let output = leaked(&rt, alloc, Taker::new(WRITTEN));
    let panel = Panel::new(alloc, world, Some(world), world, None, false);
    let panel = leaked(&rt, alloc, panel);
    panel.note_line(4);
    let waited = panel.wait(watcher, output);
    assert!(rt; waited.is_ok());
    world.narrow();
    let waited = panel.wait(watcher, output);
    assert!(rt; waited.is_ok());
    panel.leave(output);
    assert!(rt; output.has_all());
}
