//! First lines of streams, with the plan's Terraform version and the start of the apply.

use super::*;

/// A plan, a start, and the first line. The second row has the version and the timestamp of an
/// example in Terraform's documentation.
const VERSIONS: &str =
    r#"{"format_version":"1.2","terraform_version":"1.9.0"} => 1970-01-01T00:00:00Z => {"@level":"info","@message":"Terraform 1.9.0","@module":"terraform.ui","@timestamp":"1970-01-01T00:00:00Z","terraform":"1.9.0","type":"version","ui":"1.0"}
{"format_version":"1.0","terraform_version":"0.15.4"} => 2021-05-25T13:32:41.275359-04:00 => {"@level":"info","@message":"Terraform 0.15.4","@module":"terraform.ui","@timestamp":"2021-05-25T17:32:41Z","terraform":"0.15.4","type":"version","ui":"1.0"}
{"format_version":"1.2","terraform_version":"1.12.0-beta2","resource_changes":[{"address":"a_b.c","mode":"managed","type":"a_b","name":"c","change":{"actions":["create"]}}]} => 8999-12-31T23:59:59Z => {"@level":"info","@message":"Terraform 1.12.0-beta2","@module":"terraform.ui","@timestamp":"8999-12-31T23:59:59Z","terraform":"1.12.0-beta2","type":"version","ui":"1.0"}
{"format_version":"1.2"} => 1970-01-01T00:00:00Z => {"@level":"info","@message":"Terraform 0.0.0","@module":"terraform.ui","@timestamp":"1970-01-01T00:00:00Z","terraform":"0.0.0","type":"version","ui":"1.0"}
{"format_version":"1.2","terraform_version":null} => 1970-01-01T00:00:00Z => {"@level":"info","@message":"Terraform 0.0.0","@module":"terraform.ui","@timestamp":"1970-01-01T00:00:00Z","terraform":"0.0.0","type":"version","ui":"1.0"}
{"format_version":"1.2","terraform_version":""} => 1970-01-01T00:00:00Z => {"@level":"info","@message":"Terraform ","@module":"terraform.ui","@timestamp":"1970-01-01T00:00:00Z","terraform":"","type":"version","ui":"1.0"}
{"format_version":"1.2","terraform_version":"\"1\\9\"\t\u0001\u00e9/"} => 1970-01-01T00:00:00Z => {"@level":"info","@message":"Terraform \"1\\9\"\t\u0001é/","@module":"terraform.ui","@timestamp":"1970-01-01T00:00:00Z","terraform":"\"1\\9\"\t\u0001é/","type":"version","ui":"1.0"}"#;

/// The version line as a single line.
fn first_line(rt: &impl Abort, alloc: Global, plan: &Plan, start: Start) -> &'static str {
    let line = version_line(alloc, plan, start).expect(rt, "memory");
    leaked(rt, alloc, line).as_str()
}

/// Fails when two calls of `push_version` do not append the line twice.
fn is_written_twice(rt: &impl Abort, alloc: Global, plan: &Plan, start: Start, line: &str) {
    let mut buffer = LineBuffer::new(alloc);
    for _ in 0..2 {
        holds(rt, "memory", buffer.push_version(plan, start).is_ok());
    }
    let wanted = put(rt, alloc, "%%", "%", line);
    holds(rt, line, buffer.as_bytes() == wanted.as_bytes());
}

/// Fails when a row's stream starts with another line.
fn begins_so(rt: &impl Abort, alloc: Global, row: &str) {
    let (text, rest) = parted(rt, row, " => ");
    let (start, wanted) = parted(rt, rest, " => ");
    let (plan, start) = (plan_of(rt, alloc, text), start_of(rt, start));
    let line = first_line(rt, alloc, plan, start);
    compare_line(rt, text, line, wanted);
    is_written_twice(rt, alloc, plan, start, line);
}

#[test]
fn versions_are_written_first(rt: HostRuntime) {
    for row in VERSIONS.lines() {
        begins_so(&rt, rt.alloc(), row);
    }
}
