//! A job of the main command.

use apply_cli_args::Settings;
use apply_hooks::Registry;
use apply_text_terraform::{Command, Form};

/// What the main command applies to a plan.
#[derive(Clone, Copy)]
pub struct Job<'a, 's> {
    /// The settings of the apply.
    pub settings: &'a Settings,
    /// The form of the stream.
    pub form: Form,
    /// The command of Terraform whose stream is written; each but `Saved` has Terraform's form.
    pub command: Command,
    /// Whether a command that plans refreshes objects.
    pub refresh: bool,
    /// The hooks.
    pub registry: &'a Registry,
    /// The bytes of a script. Without them each step succeeds after 0 seconds.
    pub script: Option<&'s [u8]>,
}
