//! How the last provisioner of a step stands.

ghost use Rattle.std.specs.Prelude.{◌≡◌};
ghost use Rattle.stream_record_outcomes.specs.Provisioners.{ended_with, fails_its_step, has_provisioner, last_after, last_provisioner};

use stream_record_steps::{Stated, StepFact};

/// How the last provisioner of a step stands.
#[derive(Clone, Copy, Debug, PartialEq, Eq)]
pub enum LastProvisioner {
    /// No provisioner began.
    Absent,
    UnderWay,
    Ended,
    Failed,
}

impl LastProvisioner {
    pub fn is_present(self) -> bool
        ensures { result ≡ has_provisioner self }
    {
        match self {
            LastProvisioner::Absent => false,
            LastProvisioner::UnderWay | LastProvisioner::Ended | LastProvisioner::Failed => true,
        }
    }

    /// Whether it is why its step failed, if the step did: it failed, or has no end.
    pub fn fails_its_step(self) -> bool
        ensures { result ≡ fails_its_step self }
    {
        match self {
            LastProvisioner::UnderWay | LastProvisioner::Failed => true,
            LastProvisioner::Absent | LastProvisioner::Ended => false,
        }
    }

    /// After the end of a provisioner, if one began.
    fn ended_with(self, end: LastProvisioner) -> LastProvisioner
        ensures { result ≡ ended_with end self }
    {
        match self {
            LastProvisioner::Absent => LastProvisioner::Absent,
            LastProvisioner::UnderWay | LastProvisioner::Ended | LastProvisioner::Failed => end,
        }
    }

    /// After a fact more.
    fn after(self, stated: &Stated) -> LastProvisioner
        ensures { result ≡ last_after self stated.now }
    {
        match stated {
            Stated::Progress { .. } | Stated::Wrote { .. } => self,
            Stated::ProvisionerBegan { .. } => LastProvisioner::UnderWay,
            Stated::ProvisionerEnded => self.ended_with(LastProvisioner::Ended),
            Stated::ProvisionerFailed => self.ended_with(LastProvisioner::Failed),
        }
    }
}

/// How the last provisioner of a step with these facts stands.
pub fn last_provisioner(facts: &[StepFact]) -> LastProvisioner
    ensures { result ≡ last_provisioner facts.now }
{
    let mut last = LastProvisioner::Absent;
    for fact in facts {
        last = last.after(&fact.stated);
    }
    last
}
