//! A provisioner of a step.

ghost use Rattle.std.specs.Prelude.{◌≡◌, ℤ, IfOk, is_none};
ghost use Rattle.stream_timeline.specs.Steps.{begun_provisioner, ended_provisioner, ended_with_step};

use std::alloc::{AllocError, Global};
use std::marker::Model;

/// A provisioner of a step. Contracts see its name, its begin and end, and whether it failed.
#[derive(Drop)]
pub struct Provisioner {
    name: String,
    begin: i64,
    end: Option<i64>,
    failed: bool,
}

// The memory bound of the crate counts 32 bytes for a provisioner next to its name.
const _: () = prove!(size_of::<Provisioner>() == size_of::<String>() + 32);

impl Model for Provisioner {
    ghost use Rattle.std.specs.Prelude.{string_bytes};
    ghost use Rattle.stream_timeline.specs.Steps.{ProvisionerRead};

    ghost Value = { ProvisionerRead };

    ghost view = { λ p. record { name = string_bytes p.name; begin = p.begin; end = p.end; failed = p.failed } };
}

impl Provisioner {
    /// A provisioner that begins at `time`. `Err` means that memory was refused.
    pub(crate) fn begun(alloc: Global, name: &str, time: i64) -> Result<Provisioner, AllocError>
        ensures { IfOk result (λ provisioner. provisioner ≡ begun_provisioner name.now time) }
    {
        Ok(Provisioner {
            name: String::from_str(alloc, name)?,
            begin: time,
            end: None,
            failed: false,
        })
    }

    /// Ends the provisioner at `time`, but not before its begin.
    pub(crate) fn end_at(&mut self, time: i64, failed: bool)
        ensures { self.new ≡ ended_provisioner time failed self.old }
    {
        self.end = Some(self.begin.max(time));
        self.failed = failed;
    }

    /// Ends the provisioner together with its step, unless it has ended.
    pub(crate) fn end_with_step(&mut self, time: i64)
        ensures { self.new ≡ ended_with_step time self.old }
    {
        if self.end.is_none() {
            self.end = Some(self.begin.max(time));
        }
    }

    /// The name; empty if the stream states none.
    pub fn name(&self) -> &str
        ensures { result.now ≡ self.now.name }
    {
        self.name.as_str()
    }

    /// The begin, in microseconds since the start of 1970.
    pub fn begin(&self) -> i64
        ensures { result ≡ self.now.begin }
    {
        self.begin
    }

    /// The end, in microseconds since the start of 1970. `None` if neither the provisioner nor its
    /// step has ended.
    pub fn end(&self) -> Option<i64>
        ensures { result ≡ self.now.end }
    {
        self.end
    }

    /// Whether the provisioner failed.
    pub fn has_failed(&self) -> bool
        ensures { result ≡ self.now.failed }
    {
        self.failed
    }
}
