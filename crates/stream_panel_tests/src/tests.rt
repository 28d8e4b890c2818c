//! Tests of what no clause states: that the definitions are the intended ones, and that calls
//! succeed with enough memory. Whole panels of real streams stand in `examples/panels`.

use std::alloc::Global;
use std::process::Abort;
use stream_panel::{Canvas, Size, View, has_room, push_frame, push_panel, rows_taken};
use stream_watch::{Looks, Watcher};
use term_words::MessageText;

/// Two creates are planned, and one of them begins.
const BEGUN: &str = r#"
{"@timestamp":"1970-01-01T00:00:00Z","type":"version","terraform":"1.11.4"}
{"@timestamp":"1970-01-01T00:00:00Z","type":"planned_change","change":{"action":"create","resource":{"addr":"a"}}}
{"@timestamp":"1970-01-01T00:00:00Z","type":"planned_change","change":{"action":"create","resource":{"addr":"b"}}}
{"@timestamp":"1970-01-01T00:00:01Z","type":"apply_start","hook":{"action":"create","resource":{"addr":"a"}}}
"#;

/// The frame of these lines 2.5 seconds later, without the lines that were told.
const BEGUN_FRAME: &str =
    "\r\u{1b}[J\u{1b}[?7l    3s  ▒▒▒▒▒▒▒▒▒▒░░░░░░░░░░ 0 of 2 done, 1 under way, 1 left
    2s  ▸ create a
\u{1b}[?7h";

/// The create ends.
const ENDED: &str = r#"
{"@timestamp":"1970-01-01T00:00:09Z","type":"apply_complete","hook":{"action":"create","resource":{"addr":"a"}}}
"#;

/// The frame with the line that is told of it. A panel of two lines stands before it.
const ENDED_FRAME: &str = "\r\u{1b}[2A\u{1b}[J    9s  ✓ create a in 8s (1 of 2)
\u{1b}[?7l    9s  ██████████░░░░░░░░░░ 1 of 2 done, 0 under way, 1 left
\u{1b}[?7h";

/// The frame that takes the panel away.
const LAST_FRAME: &str = "\r\u{1b}[1A\u{1b}[J";

/// A frame one second after `BEGUN_FRAME`, in a terminal of 60 columns. The first line of the panel
/// that stands has 61 columns, and takes two rows by then.
const NARROW_FRAME: &str =
    "\r\u{1b}[3A\u{1b}[J\u{1b}[?7l    4s  ▒▒▒▒▒▒▒▒▒░░░░░░░░░ 0 of 2 done, 1 under way, 1 left
    3s  ▸ create a
\u{1b}[?7h";

/// A frame one more second later, in a terminal of 100 columns.
const WIDE_FRAME: &str =
    "\r\u{1b}[2A\u{1b}[J\u{1b}[?7l    5s  ▒▒▒▒▒▒▒▒▒▒░░░░░░░░░░ 0 of 2 done, 1 under way, 1 left
    4s  ▸ create a
\u{1b}[?7h";

/// The frame that takes that panel away in a terminal of 20 columns: its lines have 61 and 18.
const NARROWEST_FRAME: &str = "\r\u{1b}[5A\u{1b}[J";

/// Before the first line.
const WAITING: &str = "    3s  waiting for the first line
";

/// One create took two seconds, and five steps run.
const MANY: &str = r#"
{"@timestamp":"1970-01-01T00:00:00Z","type":"apply_start","hook":{"action":"create","resource":{"addr":"t.a","resource_type":"t"}}}
{"@timestamp":"1970-01-01T00:00:02Z","type":"apply_complete","hook":{"action":"create","resource":{"addr":"t.a","resource_type":"t"}}}
{"@timestamp":"1970-01-01T00:00:02Z","type":"apply_start","hook":{"action":"create","resource":{"addr":"t.b","resource_type":"t"}}}
{"@timestamp":"1970-01-01T00:00:02Z","type":"apply_start","hook":{"action":"delete","resource":{"addr":"t.c","resource_type":"t"}}}
{"@timestamp":"1970-01-01T00:00:02Z","type":"apply_start","hook":{"action":"update","resource":{"addr":"t.d","resource_type":"t"}}}
{"@timestamp":"1970-01-01T00:00:02Z","type":"apply_start","hook":{"action":"create","resource":{"addr":"t.e","resource_type":"t"}}}
{"@timestamp":"1970-01-01T00:00:05Z","type":"apply_start","hook":{"action":"create","resource":{"addr":"t.f","resource_type":"t"}}}
"#;

/// Their panel in a terminal of 10 rows and 60 columns, with colours.
const MANY_PANEL: &str = "\u{1b}[2m    5s\u{1b}[0m  \u{1b}[1m1 done, 5 under way\u{1b}[0m
    3s  \u{1b}[32m▸\u{1b}[0m create t.b                            \u{1b}[33m  others 2s\u{1b}[0m
    3s  \u{1b}[35m▸\u{1b}[0m delete t.c
    3s  \u{1b}[33m▸\u{1b}[0m update t.d
          \u{1b}[2mand 2 more\u{1b}[0m
";

/// The state before the first line of a stream that a panel shows.
fn beginning(alloc: Global) -> Watcher {
    let looks = Looks {
        width: None,
        has_colour: false,
        has_panel: true,
    };
    Watcher::new(alloc, false, looks)
}

/// Reads the lines.
fn read(rt: &impl Abort, watcher: &mut Watcher, lines: &str) {
    for line in lines.trim().lines() {
        watcher.text(line.as_bytes()).expect(rt, "memory");
    }
}

/// A panel of so many columns and rows, so many microseconds after the last message.
fn view(columns: usize, rows: usize, has_colour: bool, since: u64) -> View {
    View {
        size: Size { columns, rows },
        width: None,
        has_colour,
        since,
        is_waiting: false,
    }
}

/// Fails unless the panel has these lines.
fn shows(rt: &impl Abort, alloc: Global, watcher: &Watcher, view: View, lines: &str) {
    let mut out = Canvas::new(alloc);
    push_panel(&mut out, watcher, view);
    assert!(rt; out.text().is_whole());
    assert_eq!(rt; out.text().as_bytes(), lines.as_bytes());
    assert_eq!(rt; out.into_widths().len(), lines.lines().count());
}

/// Draws the panel, and fails unless the frame of what was told and of the panel has these bytes.
/// Returns how many columns the lines of the panel have.
fn draws(
    rt: &impl Abort,
    alloc: Global,
    watcher: &Watcher,
    standing: &[usize],
    view: View,
    frame: &str,
) -> Vec<usize> {
    let mut panel = Canvas::new(alloc);
    push_panel(&mut panel, watcher, view);
    writes(
        rt,
        alloc,
        view.size.columns,
        standing,
        watcher.told(),
        panel.text(),
        frame,
    );
    panel.into_widths()
}

/// Fails unless the frame has these bytes.
fn writes(
    rt: &impl Abort,
    alloc: Global,
    columns: usize,
    standing: &[usize],
    told: &[u8],
    panel: &MessageText,
    frame: &str,
) {
    let mut out = MessageText::new(alloc);
    push_frame(&mut out, columns, standing, told, panel);
    assert!(rt; out.is_whole());
    assert_eq!(rt; out.as_bytes(), frame.as_bytes());
}

#[test]
fn a_frame_has_what_was_told_and_the_panel(rt: HostRuntime) {
    let alloc = rt.alloc();
    let mut watcher = beginning(alloc);
    read(&rt, &mut watcher, BEGUN);
    watcher.clear();
    let begun = view(80, 24, false, 2_500_000);
    let standing = draws(&rt, alloc, &watcher, &[], begun, BEGUN_FRAME);
    read(&rt, &mut watcher, ENDED);
    let ended = view(80, 24, false, 0);
    let standing = draws(&rt, alloc, &watcher, &standing, ended, ENDED_FRAME);
    let none = MessageText::new(alloc);
    writes(&rt, alloc, 80, &standing, &[], &none, LAST_FRAME);
}

#[test]
fn a_frame_goes_up_over_broken_lines(rt: HostRuntime) {
    let alloc = rt.alloc();
    let mut watcher = beginning(alloc);
    read(&rt, &mut watcher, BEGUN);
    watcher.clear();
    let at_80 = view(80, 24, false, 2_500_000);
    let standing = draws(&rt, alloc, &watcher, &[], at_80, BEGUN_FRAME);
    let at_60 = view(60, 16, false, 3_500_000);
    let standing = draws(&rt, alloc, &watcher, &standing, at_60, NARROW_FRAME);
    let at_100 = view(100, 30, false, 4_500_000);
    let standing = draws(&rt, alloc, &watcher, &standing, at_100, WIDE_FRAME);
    let none = MessageText::new(alloc);
    writes(&rt, alloc, 20, &standing, &[], &none, NARROWEST_FRAME);
}

#[test]
fn a_line_takes_a_row_for_each_width_of_the_terminal(rt: HostRuntime) {
    assert_eq!(rt; rows_taken(20, &[0, 1, 20, 21, 40, 41]), 10);
    assert_eq!(rt; rows_taken(80, &[]), 0);
}

#[test]
fn before_the_first_line_a_panel_waits(rt: HostRuntime) {
    let alloc = rt.alloc();
    let watcher = beginning(alloc);
    let view = View {
        is_waiting: true,
        ..view(80, 24, false, 3_000_000)
    };
    shows(&rt, alloc, &watcher, view, WAITING);
}

#[test]
fn steps_without_room_are_counted(rt: HostRuntime) {
    let alloc = rt.alloc();
    let mut watcher = beginning(alloc);
    read(&rt, &mut watcher, MANY);
    shows(&rt, alloc, &watcher, view(60, 10, true, 0), MANY_PANEL);
}

#[test]
fn a_small_terminal_has_no_room(rt: HostRuntime) {
    assert!(rt;
        has_room(Size {
            columns: 40,
            rows: 8
        })
    );
    assert!(rt;
        !has_room(Size {
            columns: 39,
            rows: 8
        })
    );
    assert!(rt;
        !has_room(Size {
            columns: 40,
            rows: 7
        })
    );
}
