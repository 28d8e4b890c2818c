//! The report of runs that succeeded: the stream, the steps, the events and the bytes.

use super::*;

/// Fails if one worker under these hooks writes another stream of the run, or gives another report.
pub(super) fn runs_so<R: Threads + Wait + Sync + Abort>(
    rt: &R,
    alloc: Global,
    registry: &Registry,
    run: &str,
    counts: Counts,
    taken: u64,
) {
    let (plan, script, stream) = parts_of(rt, run);
    let options = options(1, 64);
    let (sink, end) = apply_into_memory(rt, alloc, plan, script, registry, options, &NoGate);
    has_written(rt, sink, stream, stream.len(), end, counts, taken);
}

/// A plan without changes.
const EMPTY: &str = r#"{"format_version":"1.0"}
no script
{"@level":"info","@message":"Terraform 0.0.0","@module":"terraform.ui","@timestamp":"1970-01-01T00:00:00Z","terraform":"0.0.0","type":"version","ui":"1.0"}
{"@level":"info","@message":"Apply complete! Resources: 0 added, 0 changed, 0 destroyed.","@module":"terraform.ui","@timestamp":"1970-01-01T00:00:00Z","changes":{"add":0,"change":0,"operation":"apply","remove":0},"type":"change_summary"}
"#;

/// Tests no change, a create, and a replacement whose second step fails.
#[test]
fn reports_of_whole_runs(rt: HostRuntime) {
    let (alloc, registry) = (rt.alloc(), no_hooks(&rt, rt.alloc()));
    runs_so(&rt, alloc, registry, EMPTY, counts(0, 0, 0, 0, 0), 0);
    runs_so(&rt, alloc, registry, ONE_CREATE, counts(1, 0, 0, 0, 0), 2);
    runs_so(
        &rt,
        alloc,
        registry,
        FAILED_DESTROY,
        counts(1, 0, 0, 1, 0),
        5,
    );
}
