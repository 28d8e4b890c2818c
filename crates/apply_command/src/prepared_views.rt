//! What a command prints and applies, as the lines of its stream need it.

ghost use Rattle.std.specs.Prelude.{◌≡◌};
ghost use Rattle.apply_command.specs.Lines.{extras_view, head_view, prepared_extras, prepared_head, prepared_plan, prepared_script};
ghost use Rattle.apply_writer.specs.Stream.Terraform.{contains_error};

use crate::command_head::CommandHead;
use crate::prepared::Prepared;
use apply_model::{Plan, Script};
use apply_run::{FormReport, Report};
use apply_text::Start;
use apply_writer::TerraformExtras;

impl Prepared {
    /// The plan that is applied.
    pub fn applied(&self) -> &Plan
        ensures { result.now ≡ prepared_plan self.now }
    {
        if self.applies {
            &self.plan
        } else {
            &self.no_changes
        }
    }

    /// The script for it.
    pub fn applied_script(&self) -> &Script
        ensures { result.now ≡ prepared_script self.now }
    {
        if self.applies {
            &self.script
        } else {
            &self.no_script
        }
    }

    /// What the lines before the apply are made of, where the planning begins at `start`.
    pub fn head(&self, start: Start) -> CommandHead<'_>
        ensures { head_view result ≡ prepared_head self.now start }
    {
        CommandHead {
            plan: &self.plan,
            details: &self.details,
            drifts: &self.drifts,
            outputs: &self.planned_outputs,
            told: &self.told,
            totals: self.totals,
            start,
            took: self.took,
        }
    }

    /// What the stream shows behind the head beyond the steps.
    pub fn extras(&self) -> TerraformExtras<'_>
        ensures { extras_view result ≡ prepared_extras self.now }
    {
        TerraformExtras {
            details: &self.details,
            notes: &self.notes,
            outputs: &self.outputs,
        }
    }

    /// The report of a run.
    pub fn report(&self, run: Report) -> FormReport
        ensures run { result.run ≡ run }
        ensures error { result.contains_error ≡ contains_error self.now.notes.items run.counts }
    {
        let contains_error = self.extras().contains_error(&run.counts);
        FormReport {
            run,
            contains_error,
        }
    }
}
