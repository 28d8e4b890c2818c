use apply_hooks::Phase;

/// The kinds of events of a step (Machine-Readable UI, "Operation Messages"; the hooks before and
/// after each action).
#[derive(Clone, Copy, Debug, PartialEq, Eq)]
pub enum What {
    /// The step starts (`apply_start`).
    Start,
    /// The step goes on, so many seconds after its start (`apply_progress`). The number is a
    /// multiple of 10.
    Progress(u32),
    /// The step completes, so many seconds after its start (`apply_complete`).
    Complete(u32),
    /// The step fails, so many seconds after its start (`apply_errored`).
    Errored(u32),
    /// The error of the step (`diagnostic`).
    ErrorNote,
    /// The warning of the provider (`diagnostic`). For a read that only warns, it comes in place of
    /// the end.
    WarnNote,
    /// A hook halts the change: none of its further steps begins.
    Halted {
        /// When the hook was asked.
        phase: Phase,
        /// The number of the first hook that halted, counted from 0 in the registry: at most 31.
        hook: u8,
    },
    /// The provisioner of that number begins (`provision_start`). Numbers count from 0 in the step.
    ProvisionStart(u8),
    /// A provisioner prints a text (`provision_progress`).
    ProvisionOutput {
        /// The number of the provisioner.
        prov: u8,
        /// The number of the text, counted from 0 in the provisioner.
        line: u8,
    },
    /// The provisioner of that number completes (`provision_complete`).
    ProvisionComplete(u8),
    /// The provisioner of that number fails (`provision_errored`). The step fails with it, unless
    /// the provisioner may fail.
    ProvisionErrored(u8),
}
