//! How a plan is made.

ghost use Rattle.std.specs.Prelude.{◌≡◌};
ghost use Rattle.apply_planning_script.specs.Rules.{is_read};

/// How a plan is made.
#[derive(Clone, Copy, Debug)]
pub struct PlanningRules {
    /// Whether the command destroys all that there is.
    pub destroys: bool,
    /// Whether objects are refreshed.
    pub refreshes: bool,
    /// Whether the plan covers only a part of the configuration.
    pub is_partial: bool,
}

impl PlanningRules {
    /// Whether data sources are read.
    pub(crate) fn reads(self) -> bool
        ensures { result ≡ is_read self }
    {
        (self.refreshes || !self.destroys) && !self.is_partial
    }
}
