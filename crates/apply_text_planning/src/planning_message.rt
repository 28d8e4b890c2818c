//! The messages about a planning and about a plan.

use crate::plan_totals::PlanTotals;
use apply_model::{Change, ChangeDetails};
use apply_prior::PlannedOutput;

/// A message about a planning or about a plan (Machine-Readable UI).
#[derive(Clone, Copy, Drop)]
pub enum PlanningMessage<'a> {
    /// The refresh of an object starts. `id` is the id that the message shows.
    RefreshStart {
        object: &'a Change,
        id: Option<&'a str>,
    },
    /// The refresh of an object is complete. `id` is the id that the message shows.
    RefreshComplete {
        object: &'a Change,
        id: Option<&'a str>,
    },
    /// The read of a data source starts. The message shows no id.
    ReadStart {
        object: &'a Change,
    },
    /// The read of a data source still runs, after that many seconds.
    ReadProgress {
        object: &'a Change,
        seconds: u32,
    },
    /// The read of a data source is complete, after that many seconds. `id` is the id that the
    /// message shows.
    ReadComplete {
        object: &'a Change,
        seconds: u32,
        id: Option<&'a str>,
    },
    /// An object has changed outside of Terraform, or was moved. The message shows the action and
    /// the resource that the object was before. It shows no reason and no import.
    Drift {
        change: &'a Change,
        details: &'a ChangeDetails,
    },
    /// A change is planned. `word` is the planned action.
    Planned {
        change: &'a Change,
        word: &'a str,
        details: &'a ChangeDetails,
    },
    /// The plan's summary.
    Summary {
        totals: PlanTotals,
    },
    /// The planned changes of outputs, in this order.
    Outputs {
        outputs: &'a [PlannedOutput],
    },
}
