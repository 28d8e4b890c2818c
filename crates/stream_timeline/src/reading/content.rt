//! What a message states about steps, by the members of its line (Machine-Readable UI, "Message
//! Types").

ghost use Rattle.std.specs.Prelude.{◌≡◌};
ghost use Rattle.stream_timeline.specs.SlotContents.{begin_in, content_in, diagnostic_content_in, end_in, provisioner_begin_in, provisioner_content_in, provisioner_end_in, refresh_begin_in, refresh_content_in, refresh_end_in, severity_content_in, step_content_in, summary_content_in, totals_of};

use crate::reading::texts::text_or_empty;
use crate::reading::totals::Totals;
use apply_json::is_text;
use stream_message::{ChangesSlots, DiagnosticSlots, HookSlots, Kind, LineSlots, Stage};

/// What a message states. Its texts are borrowed from its line.
#[derive(Clone, Copy)]
pub enum Content<'a> {
    /// A step with this address and action begins.
    Begins {
        address: &'a str,
        action: &'a str,
    },
    /// A step with this address and action ends.
    Ends {
        address: &'a str,
        action: &'a str,
        failed: bool,
    },
    /// A provisioner begins in the newest open step at this address.
    BeginsProvisioner {
        address: &'a str,
        name: &'a str,
    },
    /// A provisioner ends in the newest open step at this address.
    EndsProvisioner {
        address: &'a str,
        failed: bool,
    },
    Error {
        diagnostic: DiagnosticSlots<'a>,
    },
    Warning {
        diagnostic: DiagnosticSlots<'a>,
    },
    /// The version of Terraform.
    Version {
        text: &'a str,
    },
    /// The summary of a plan.
    PlanSummary {
        totals: Totals,
    },
    /// The summary of an apply or a destroy.
    Summary {
        totals: Totals,
    },
    /// A message that only contributes its timestamp.
    Other,
    /// A message about a step or a provisioner without its address or action, or a diagnostic of
    /// another severity. The time line counts it as passed over.
    Unusable,
}

/// The totals in `changes`. Without `changes` no total is known.
fn totals_of(changes: &ChangesSlots<'_>) -> Totals
    ensures { result ≡ totals_of changes.now }
{
    Totals {
        added: changes.added(),
        changed: changes.changed(),
        removed: changes.removed(),
        imported: changes.imported(),
    }
}

impl<'a> Content<'a> {
    ghost use Rattle.stream_timeline.specs.ContentViews.{content_view};

    /// The content of `apply_start` and `ephemeral_op_start`.
    fn of_begin(hook: &HookSlots<'a>) -> Content<'a>
        ensures { content_view result ≡ begin_in hook.now }
    {
        let Some(address) = hook.address() else {
            return Content::Unusable;
        };
        match hook.action() {
            Some(action) => Content::Begins { address, action },
            None => Content::Unusable,
        }
    }

    /// The content of a message that ends a step.
    fn of_end(hook: &HookSlots<'a>, failed: bool) -> Content<'a>
        ensures { content_view result ≡ end_in failed hook.now }
    {
        let Some(address) = hook.address() else {
            return Content::Unusable;
        };
        match hook.action() {
            Some(action) => Content::Ends {
                address,
                action,
                failed,
            },
            None => Content::Unusable,
        }
    }

    /// The content of `refresh_start`. It has no action; `refresh` stands for it.
    fn of_refresh_begin(hook: &HookSlots<'a>) -> Content<'a>
        ensures { content_view result ≡ refresh_begin_in hook.now }
    {
        match hook.address() {
            Some(address) => Content::Begins {
                address,
                action: "refresh",
            },
            None => Content::Unusable,
        }
    }

    /// The content of `refresh_complete`.
    fn of_refresh_end(hook: &HookSlots<'a>) -> Content<'a>
        ensures { content_view result ≡ refresh_end_in hook.now }
    {
        match hook.address() {
            Some(address) => Content::Ends {
                address,
                action: "refresh",
                failed: false,
            },
            None => Content::Unusable,
        }
    }

    /// The content of `provision_start`. A missing name is the empty text.
    fn of_provisioner_begin(hook: &HookSlots<'a>) -> Content<'a>
        ensures { content_view result ≡ provisioner_begin_in hook.now }
    {
        match hook.address() {
            Some(address) => Content::BeginsProvisioner {
                address,
                name: text_or_empty(hook.provisioner()),
            },
            None => Content::Unusable,
        }
    }

    /// The content of `provision_complete` and `provision_errored`.
    fn of_provisioner_end(hook: &HookSlots<'a>, failed: bool) -> Content<'a>
        ensures { content_view result ≡ provisioner_end_in failed hook.now }
    {
        match hook.address() {
            Some(address) => Content::EndsProvisioner { address, failed },
            None => Content::Unusable,
        }
    }

    /// The content of a message about a step with an action.
    fn of_step(stage: Stage, hook: &HookSlots<'a>) -> Content<'a>
        ensures { content_view result ≡ step_content_in stage hook.now }
    {
        match stage {
            Stage::Start => Content::of_begin(hook),
            Stage::Progress => Content::Other,
            Stage::Complete => Content::of_end(hook, false),
            Stage::Errored => Content::of_end(hook, true),
        }
    }

    /// The content of a message about a refresh.
    fn of_refresh(stage: Stage, hook: &HookSlots<'a>) -> Content<'a>
        ensures { content_view result ≡ refresh_content_in stage hook.now }
    {
        match stage {
            Stage::Start => Content::of_refresh_begin(hook),
            Stage::Complete => Content::of_refresh_end(hook),
            Stage::Progress | Stage::Errored => Content::Other,
        }
    }

    /// The content of a message about a provisioner.
    fn of_provisioner(stage: Stage, hook: &HookSlots<'a>) -> Content<'a>
        ensures { content_view result ≡ provisioner_content_in stage hook.now }
    {
        match stage {
            Stage::Start => Content::of_provisioner_begin(hook),
            Stage::Progress => Content::Other,
            Stage::Complete => Content::of_provisioner_end(hook, false),
            Stage::Errored => Content::of_provisioner_end(hook, true),
        }
    }

    /// The content of a diagnostic with this severity.
    fn of_severity(severity: &str, diagnostic: DiagnosticSlots<'a>) -> Content<'a>
        ensures { content_view result ≡ severity_content_in severity.now diagnostic.entry }
    {
        if is_text(severity, "error") {
            Content::Error { diagnostic }
        } else if is_text(severity, "warning") {
            Content::Warning { diagnostic }
        } else {
            Content::Unusable
        }
    }

    /// The content of `diagnostic`.
    fn of_diagnostic(diagnostic: DiagnosticSlots<'a>) -> Content<'a>
        ensures { content_view result ≡ diagnostic_content_in diagnostic.entry }
    {
        match diagnostic.severity() {
            Some(severity) => Content::of_severity(severity, diagnostic),
            None => Content::Unusable,
        }
    }

    /// The content of `change_summary`.
    fn of_summary(changes: &ChangesSlots<'a>) -> Content<'a>
        ensures { content_view result ≡ summary_content_in changes.now }
    {
        if is_text(text_or_empty(changes.operation()), "plan") {
            Content::PlanSummary {
                totals: totals_of(changes),
            }
        } else {
            Content::Summary {
                totals: totals_of(changes),
            }
        }
    }

    /// The content of a message of this kind.
    pub fn of(kind: Kind, line: &LineSlots<'a>) -> Content<'a>
        ensures { content_view result ≡ content_in kind line.now }
    {
        match kind {
            Kind::Apply(stage) | Kind::Ephemeral(stage) => Content::of_step(stage, &line.hook),
            Kind::Refresh(stage) => Content::of_refresh(stage, &line.hook),
            Kind::Provision(stage) => Content::of_provisioner(stage, &line.hook),
            Kind::Diagnostic => Content::of_diagnostic(line.diagnostic),
            Kind::Version => Content::Version {
                text: text_or_empty(line.version()),
            },
            Kind::Summary => Content::of_summary(&line.changes),
            Kind::Planned | Kind::Outputs | Kind::Other => Content::Other,
        }
    }
}
