//! Timestamps and durations as text.

use super::*;

/// A text, and the start that it gives or the reason why it gives none.
const STARTS: &str = r#"1970-01-01T00:00:00Z => Start { seconds: 0 }
1970-01-01T00:00:01Z => Start { seconds: 1 }
1970-01-01T00:00:00.999999999Z => Start { seconds: 0 }
1969-12-31T23:59:59Z => the moment is out of range
1969-12-31T23:59:59.5Z => the moment is out of range
1969-12-31T23:59:59.999999999Z => the moment is out of range
9000-01-01T00:00:00Z => the moment is out of range
8999-12-31T23:59:59Z => Start { seconds: 221845391999 }
8999-12-31T23:59:59.999999999Z => Start { seconds: 221845391999 }
9999-12-30T22:00:00Z => the moment is out of range
-000001-01-01T00:00:00Z => the moment is out of range
not a time => the moment is not a moment
 => the moment is not a moment
2021-05-25 => the moment is not a moment
2021-05-25T13:32:41 => the moment is not a moment
2021-02-29T00:00:00Z => the moment is not a moment
2021-05-25T13:32:41Zx => the moment is not a moment
 2021-05-25T13:32:41Z => the moment is not a moment
2021-05-25T13:32:41.275359-04:00 => Start { seconds: 1621963961 }
2021-05-25T17:32:41+00:00 => Start { seconds: 1621963961 }
2021-05-25t17:32:41z => Start { seconds: 1621963961 }
2020-02-29T23:59:59Z => Start { seconds: 1583020799 }
1970-01-01T01:00:00+01:00 => Start { seconds: 0 }
1970-01-01T00:59:59+01:00 => the moment is out of range
8999-12-31T23:59:59-00:01 => the moment is out of range"#;

/// A start, the seconds after it, and the timestamp.
const MOMENTS: &str = r#"1970-01-01T00:00:00Z 0 => 1970-01-01T00:00:00Z
1970-01-01T00:00:00Z 1 => 1970-01-01T00:00:01Z
1970-01-01T00:00:00Z 59 => 1970-01-01T00:00:59Z
1970-01-01T00:00:00Z 60 => 1970-01-01T00:01:00Z
1970-01-01T00:00:00Z 3600 => 1970-01-01T01:00:00Z
1970-01-01T00:00:00Z 86399 => 1970-01-01T23:59:59Z
1970-01-01T00:00:00Z 86400 => 1970-01-02T00:00:00Z
1970-12-31T00:00:00Z 0 => 1970-12-31T00:00:00Z
1970-12-31T00:00:00Z 86399 => 1970-12-31T23:59:59Z
1971-01-01T00:00:00Z 0 => 1971-01-01T00:00:00Z
1971-01-01T00:00:00Z 86399 => 1971-01-01T23:59:59Z
1972-02-28T00:00:00Z 0 => 1972-02-28T00:00:00Z
1972-02-28T00:00:00Z 86399 => 1972-02-28T23:59:59Z
1972-02-29T00:00:00Z 0 => 1972-02-29T00:00:00Z
1972-02-29T00:00:00Z 86399 => 1972-02-29T23:59:59Z
1972-03-01T00:00:00Z 0 => 1972-03-01T00:00:00Z
1972-03-01T00:00:00Z 86399 => 1972-03-01T23:59:59Z
1999-12-31T00:00:00Z 0 => 1999-12-31T00:00:00Z
1999-12-31T00:00:00Z 86399 => 1999-12-31T23:59:59Z
2000-02-29T00:00:00Z 0 => 2000-02-29T00:00:00Z
2000-02-29T00:00:00Z 86399 => 2000-02-29T23:59:59Z
2000-03-01T00:00:00Z 0 => 2000-03-01T00:00:00Z
2000-03-01T00:00:00Z 86399 => 2000-03-01T23:59:59Z
2000-12-31T00:00:00Z 0 => 2000-12-31T00:00:00Z
2000-12-31T00:00:00Z 86399 => 2000-12-31T23:59:59Z
2001-01-01T00:00:00Z 0 => 2001-01-01T00:00:00Z
2001-01-01T00:00:00Z 86399 => 2001-01-01T23:59:59Z
2021-05-25T00:00:00Z 0 => 2021-05-25T00:00:00Z
2021-05-25T00:00:00Z 86399 => 2021-05-25T23:59:59Z
2026-11-22T00:00:00Z 0 => 2026-11-22T00:00:00Z
2026-11-22T00:00:00Z 86399 => 2026-11-22T23:59:59Z
2100-02-28T00:00:00Z 0 => 2100-02-28T00:00:00Z
2100-02-28T00:00:00Z 86399 => 2100-02-28T23:59:59Z
2100-03-01T00:00:00Z 0 => 2100-03-01T00:00:00Z
2100-03-01T00:00:00Z 86399 => 2100-03-01T23:59:59Z
2400-02-29T00:00:00Z 0 => 2400-02-29T00:00:00Z
2400-02-29T00:00:00Z 86399 => 2400-02-29T23:59:59Z
4000-02-29T00:00:00Z 0 => 4000-02-29T00:00:00Z
4000-02-29T00:00:00Z 86399 => 4000-02-29T23:59:59Z
8999-12-31T00:00:00Z 0 => 8999-12-31T00:00:00Z
8999-12-31T00:00:00Z 86399 => 8999-12-31T23:59:59Z
1973-01-31T23:59:59Z 1 => 1973-02-01T00:00:00Z
1973-04-30T23:59:59Z 1 => 1973-05-01T00:00:00Z
1973-06-30T23:59:59Z 1 => 1973-07-01T00:00:00Z
1973-09-30T23:59:59Z 1 => 1973-10-01T00:00:00Z
1973-11-30T23:59:59Z 1 => 1973-12-01T00:00:00Z
1973-07-31T23:59:59Z 1 => 1973-08-01T00:00:00Z
1973-08-31T23:59:59Z 1 => 1973-09-01T00:00:00Z
1973-10-31T23:59:59Z 1 => 1973-11-01T00:00:00Z
8999-12-31T23:59:59Z 86400 => 9000-01-01T23:59:59Z
1970-01-01T00:00:00Z 1728000000 => 2024-10-04T00:00:00Z
8999-12-31T23:59:59Z 1728000000 => 9054-10-04T23:59:59Z"#;

/// A number of seconds, and how it is printed.
const DURATIONS: &str = r#"0 => 0s
1 => 1s
9 => 9s
10 => 10s
59 => 59s
60 => 1m0s
61 => 1m1s
599 => 9m59s
600 => 10m0s
3599 => 59m59s
3600 => 1h0m0s
3605 => 1h0m5s
3660 => 1h1m0s
35999 => 9h59m59s
36000 => 10h0m0s
86399 => 23h59m59s
86400 => 24h0m0s
90061 => 25h1m1s
4294967295 => 1193046h28m15s"#;

/// The result of reading the text, as text.
fn start_read(rt: &impl Abort, alloc: Global, text: &str) -> &'static str {
    match Start::read(text) {
        Ok(start) => printed(rt, alloc, &start),
        Err(error) => shown(rt, alloc, &error),
    }
}

/// The `Debug` text of a start.
fn printed(rt: &impl Abort, alloc: Global, start: &Start) -> &'static str {
    let text = format!(in alloc; "{start:?}").expect(rt, "memory");
    leaked(rt, alloc, text).as_str()
}

#[test]
fn starts_are_read(rt: HostRuntime) {
    for row in STARTS.lines() {
        let (text, wanted) = parted(&rt, row, " => ");
        let actual = start_read(&rt, rt.alloc(), text);
        compare(&rt, text, actual, wanted);
    }
}

/// The summary of an apply without changes. `%` stands for its timestamp.
const NOTHING_DONE: &str =
    r#"{"@level":"info","@message":"Apply complete! Resources: 0 added, 0 changed, 0 destroyed.","@module":"terraform.ui","@timestamp":"%","changes":{"add":0,"change":0,"operation":"apply","remove":0},"type":"change_summary"}"#;

/// Fails when the summary, so many seconds after a start, has another timestamp.
fn is_printed(rt: &impl Abort, alloc: Global, moment: &str, wanted: &str) {
    let (start, seconds) = parted(rt, moment, " ");
    let (start, seconds) = (start_of(rt, start), number_of(rt, seconds) as u64);
    let counts = Counts::new();
    let actual = summary_of(rt, alloc, start, seconds, Operation::Apply, &counts);
    let wanted = put(rt, alloc, NOTHING_DONE, "%", wanted);
    compare_line(rt, moment, actual, wanted);
}

#[test]
fn moments_are_printed(rt: HostRuntime) {
    for row in MOMENTS.lines() {
        let (moment, wanted) = parted(&rt, row, " => ");
        is_printed(&rt, rt.alloc(), moment, wanted);
    }
}

/// The text of a duration in seconds.
fn duration_of(rt: &impl Abort, alloc: Global, seconds: &str) -> &'static str {
    let text = elapsed_text(alloc, number_of(rt, seconds)).expect(rt, "memory");
    leaked(rt, alloc, text).as_str()
}

#[test]
fn durations_are_printed(rt: HostRuntime) {
    for row in DURATIONS.lines() {
        let (seconds, wanted) = parted(&rt, row, " => ");
        let actual = duration_of(&rt, rt.alloc(), seconds);
        compare(&rt, seconds, actual, wanted);
    }
}
