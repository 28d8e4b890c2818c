//! Diagnostics.

use super::*;

/// Appends the line of a diagnostic.
fn push_note(rt: &impl Abort, alloc: Global, lines: &mut TerraformBuffer, clock: u64, note: Note) {
    holds(rt, "in time", clock <= LATEST);
    let note = leaked(rt, alloc, note);
    let pushed = lines.push_note(Start::zero(), clock, note);
    pushed.ok().expect(rt, "memory");
}

const NOTES: &str =
    r##"{"@level":"warn","@message":"Warning: Resource targeting is in effect","@module":"terraform.ui","@timestamp":"1970-01-01T00:00:00.000000Z","diagnostic":{"severity":"warning","summary":"Resource targeting is in effect","detail":"You are creating a plan with the -target option, which means that the result of this plan may not represent all of the changes requested by the current configuration.\n\nThe -target option is not for routine use, and is provided only for exceptional situations such as recovering from errors or mistakes, or when Terraform specifically suggests to use it as part of an error message."},"type":"diagnostic"}
{"@level":"warn","@message":"Warning: Some objects will no longer be managed by Terraform","@module":"terraform.ui","@timestamp":"1970-01-01T00:00:00.000000Z","diagnostic":{"severity":"warning","summary":"Some objects will no longer be managed by Terraform","detail":"If you apply this plan, Terraform will discard its tracking information for the following objects, but it will not delete them:\n - aws_a.out\n\nAfter applying this plan, Terraform will no longer manage these objects. You will need to import them into Terraform to manage them again."},"type":"diagnostic"}
{"@level":"error","@message":"Error: The plan ended with an error","@module":"terraform.ui","@timestamp":"1970-01-01T00:00:00.000000Z","diagnostic":{"severity":"error","summary":"The plan ended with an error","detail":"The plan's JSON says that its making ended with an error, and not with which; a script can tell it."},"type":"diagnostic"}
"##;

/// The three diagnostics of a plan.
#[test]
fn a_plan_has_its_notes(rt: HostRuntime) {
    let alloc = rt.alloc();
    let plan = plan_of(&rt, alloc);
    let mut details = Vec::new(alloc);
    for number in 0..plan.len() {
        let one = ChangeDetails {
            forgets: number == 7,
            reason: None,
            importing: None,
            generated_config: None,
            planned_id: None,
            previous: None,
        };
        details.push(one).ok().expect(&rt, "memory");
    }
    let details = leaked(&rt, alloc, details);
    let mut lines = TerraformBuffer::new(alloc);
    let note = targeting_note(alloc).ok().expect(&rt, "memory");
    push_note(&rt, alloc, &mut lines, 0, note);
    let note = forgotten_note(alloc, plan, details.as_slice());
    let note = note.ok().expect(&rt, "memory").expect(&rt, "a note");
    push_note(&rt, alloc, &mut lines, 0, note);
    let note = unfinished_note(alloc).ok().expect(&rt, "memory");
    push_note(&rt, alloc, &mut lines, 0, note);
    compare(&rt, "notes", &lines, NOTES);
}

/// Without an object to forget there is no such diagnostic. Changes without details count as kept.
#[test]
fn nothing_is_forgotten(rt: HostRuntime) {
    let plan = plan_of(&rt, rt.alloc());
    let note = forgotten_note(rt.alloc(), plan, &[]);
    assert!(rt; note.ok().expect(&rt, "memory").is_none());
}

const FAILED: &str =
    r##"{"@level":"error","@message":"Error: reading VPC: denied","@module":"terraform.ui","@timestamp":"1970-01-01T00:00:04.000000Z","diagnostic":{"severity":"error","summary":"reading VPC: denied","detail":"\u003c403\u003e","address":"aws_vpc.peer","range":{"filename":"main.tf","start":{"line":2,"column":28,"byte":59},"end":{"line":2,"column":29,"byte":60}}},"type":"diagnostic"}
"##;

/// The diagnostic of a refresh that failed has an address and a range.
#[test]
fn a_refresh_fails(rt: HostRuntime) {
    let alloc = rt.alloc();
    let range =
        r##"{"filename":"main.tf","start":{"line":2,"column":28,"byte":59},"end":{"line":2,"column":29,"byte":60}}"##;
    let note = Note {
        severity: Severity::Error,
        diag: Diag {
            summary: text_of(&rt, alloc, "reading VPC: denied"),
            detail: text_of(&rt, alloc, "<403>"),
            range: Some(text_of(&rt, alloc, range)),
            snippet: None,
        },
        address: Some(text_of(&rt, alloc, "aws_vpc.peer")),
    };
    let mut lines = TerraformBuffer::new(alloc);
    push_note(&rt, alloc, &mut lines, 4, note);
    compare(&rt, "a failure", &lines, FAILED);
}
