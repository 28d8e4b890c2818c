//! Characters that are escaped.

use super::*;

const PLAN: &str =
    r##"{"format_version":"1.2","terraform_version":"<1>&\u2028\u2029\u2030\u007f\ufeff\t\"/é","resource_changes":[]}"##;

const LINE: &str =
    "{\"@level\":\"info\",\"@message\":\"Terraform \\u003c1\\u003e\\u0026\\u2028\\u2029\u{2030}\u{7f}\u{feff}\\t\\\"/é\",\"@module\":\"terraform.ui\",\"@timestamp\":\"1970-01-01T00:00:00.000000Z\",\"terraform\":\"\\u003c1\\u003e\\u0026\\u2028\\u2029\u{2030}\u{7f}\u{feff}\\t\\\"/é\",\"type\":\"version\",\"ui\":\"1.2\"}\n";

/// `<`, `>`, `&`, U+2028 and U+2029 are escaped in every text. Other characters stand as in any
/// JSON.
#[test]
fn five_characters_have_an_escape(rt: HostRuntime) {
    let alloc = rt.alloc();
    let plan = plan_of(&rt, alloc, PLAN);
    let mut lines = TerraformBuffer::new(alloc);
    let pushed = lines.push_version(plan, Start::zero());
    pushed.ok().expect(&rt, "memory");
    compare(&rt, "the version", lines.as_bytes(), LINE);
}

/// After `clear` the buffer is empty, and writes the same line again.
#[test]
fn lines_can_be_dropped(rt: HostRuntime) {
    let alloc = rt.alloc();
    let plan = plan_of(&rt, alloc, PLAN);
    let mut lines = TerraformBuffer::with_room(alloc).expect(&rt, "memory");
    let pushed = lines.push_version(plan, Start::zero());
    pushed.ok().expect(&rt, "memory");
    lines.clear();
    compare(&rt, "nothing", lines.as_bytes(), "");
    let pushed = lines.push_version(plan, Start::zero());
    pushed.ok().expect(&rt, "memory");
    compare(&rt, "the version again", lines.as_bytes(), LINE);
}
