//! How a step ends, before its texts are copied.

ghost use Rattle.std.specs.Prelude.{◌≡◌, IfOk, option_map};
ghost use Rattle.apply_json.specs.ShallowView.{shallow_view};
ghost use Rattle.apply_plan.specs.Script.Entry.{is_bare};
ghost use Rattle.apply_plan.specs.Script.Members.{ending_read};
ghost use Rattle.apply_model.specs.Script.Outcome.{is_failed, is_warned};
ghost use Rattle.apply_plan.specs.Script.RawView.{ending_view};

use crate::script::raw_diag::RawDiag;
use crate::script::raw_failure::RawFailure;
use crate::zip_results::zip_results;
use apply_json::{Shallow, non_empty};
use apply_model::{Ending, Text};
use std::alloc::{AllocError, Global};

/// How a step ends.
pub enum RawEnding<'a> {
    Done {
        id: Option<&'a str>,
        warning: Option<RawDiag<'a>>,
    },
    Failed(RawFailure<'a>),
}

// Not derived: a value that holds this one is then dropped by a call.
impl<'a> Drop for RawEnding<'a> {
    fn drop(self) {
        match self {
            RawEnding::Done { id: _, warning: _ } => {}
            RawEnding::Failed(_) => {}
        }
    }
}

impl<'a> RawEnding<'a> {
    /// Checks the members of a step that state its ending.
    ///
    /// `None` means that one is invalid, or that a failure has an id or a warning next to it.
    pub fn of_members(
        id: Shallow<'a>,
        warning: Option<Option<RawDiag<'a>>>,
        failed: Option<Option<RawFailure<'a>>>,
    ) -> Option<RawEnding<'a>>
        ensures { option_map ending_view result ≡ ending_read (shallow_view id.entry) warning.entry failed.entry }
    {
        match (id.text_or(""), warning, failed) {
            (Some(id), Some(warning), Some(None)) => Some(RawEnding::Done {
                id: non_empty(id),
                warning,
            }),
            (Some(""), Some(None), Some(Some(failure))) => Some(RawEnding::Failed(failure)),
            _ => None,
        }
    }

    /// Whether the provider fails, and the step with it.
    pub fn is_failed(&self) -> bool
        ensures { result ≡ is_failed (ending_view self.now) }
    {
        match self {
            RawEnding::Failed(failure) => !failure.only_warns,
            RawEnding::Done { .. } => false,
        }
    }

    /// Whether the provider fails with only a warning.
    pub fn is_warned(&self) -> bool
        ensures { result ≡ is_warned (ending_view self.now) }
    {
        match self {
            RawEnding::Failed(failure) => failure.only_warns,
            RawEnding::Done { .. } => false,
        }
    }

    /// Whether the ending has no id, warning or failure.
    pub fn is_bare(&self) -> bool
        ensures { result ≡ is_bare (ending_view self.now) }
    {
        match self {
            RawEnding::Done { id, warning } => id.is_none() && warning.is_none(),
            RawEnding::Failed(_) => false,
        }
    }

    /// The ending, with copies of its texts. `Err` means that memory was refused.
    pub fn copied(&self, alloc: Global) -> Result<Ending, AllocError>
        ensures { IfOk result (λ copy. copy ≡ ending_view self.now) }
    {
        match self {
            RawEnding::Done { id, warning } => {
                let id = Text::of_option(alloc, *id);
                let warning = RawDiag::copied_option(alloc, warning);
                match zip_results(id, warning) {
                    Ok((id, warning)) => Ok(Ending::Done { id, warning }),
                    Err(refused) => Err(refused),
                }
            }
            RawEnding::Failed(failure) => failure.copied(alloc),
        }
    }
}
