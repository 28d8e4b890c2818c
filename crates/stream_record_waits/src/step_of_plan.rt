//! The steps of a plan, with what a stream reports of them.

/// A step of a plan. Steps are numbered from 0 in the order of the plan.
#[derive(Clone, Copy, Debug)]
pub struct StepOfPlan {
    /// Whether it is the first step of its change. Otherwise the step before it is of the same
    /// change.
    pub is_first: bool,
    /// How it ran. `None` where it did not begin.
    pub run: Option<StepRun>,
}

/// How a step ran that began.
#[derive(Clone, Copy, Debug)]
pub struct StepRun {
    /// The line of its start.
    pub line: u64,
    /// The line of the message about a step that came before its start.
    pub previous: Option<u64>,
    /// The line of its end.
    pub end: Option<u64>,
    /// What became of it.
    pub fate: RunFate,
    /// The seconds that it took.
    pub seconds: u32,
}

/// What became of a step that began.
#[derive(Clone, Copy, Debug)]
pub enum RunFate {
    /// It completed, or has no end.
    Done,
    /// It is a read that only warned.
    Warned,
    /// It failed.
    Failed,
}

impl StepOfPlan {
    ghost use Rattle.std.specs.Prelude.{◌≡◌, is_some};
    ghost use Rattle.stream_record_waits.specs.Steps.{has_failed};

    /// Whether the step began.
    pub fn has_begun(&self) -> bool
        ensures { result ≡ is_some self.now.run }
    {
        self.run.is_some()
    }

    /// Whether the step failed.
    pub fn has_failed(&self) -> bool
        ensures { result ≡ has_failed self.now }
    {
        match self.run {
            Some(run) => match run.fate {
                RunFate::Done => false,
                RunFate::Warned => false,
                RunFate::Failed => true,
            },
            None => false,
        }
    }
}

impl StepRun {
    ghost use Rattle.std.specs.Prelude.{◌≡◌};
    ghost use Rattle.stream_record_waits.specs.Steps.{completion, done_line};

    /// The line after which the step is done. `None` where it failed or has no end.
    pub fn done_line(&self) -> Option<u64>
        ensures { result ≡ done_line self.now }
    {
        match self.fate {
            RunFate::Done => self.end,
            RunFate::Warned => Some(self.line),
            RunFate::Failed => None,
        }
    }

    /// The line of its end, where it completed.
    pub fn completion(&self) -> Option<u64>
        ensures { result ≡ completion self.now }
    {
        match self.fate {
            RunFate::Done => self.end,
            RunFate::Warned => None,
            RunFate::Failed => None,
        }
    }
}
