//! Why there is no picture.

ghost use Rattle.std.specs.Prelude.{◌≡◌};
ghost use Rattle.stream_view.specs.Viewed.{unselected};

use crate::draw_fault::DrawFault;
use stream_runs::{MissingRun, RunFault};
use stream_timeline::TimelineFault;
use thiserror::Error;

/// Why there is no picture, or only part of one.
#[derive(Clone, Copy, Debug, Drop, Error, PartialEq, Eq)]
pub enum PictureFault {
    /// The stream could not be read into a time line. Nothing was written.
    #[error("{0}")]
    NoTimeline(TimelineFault),
    /// The run that was chosen is not there. Nothing was written.
    #[error("{0}")]
    NoRun(MissingRun),
    /// The picture could not be drawn to its end.
    #[error("{0}")]
    Undrawn(DrawFault),
}

impl From<RunFault> for PictureFault {
    ghost from_gives = { λ given fault. fault ≡ unselected given };

    fn from(given: RunFault) -> PictureFault {
        match given {
            RunFault::Missing(missing) => PictureFault::NoRun(missing),
            RunFault::TooLong(line) => PictureFault::NoTimeline(TimelineFault::TooLong(line)),
            RunFault::TooMany => PictureFault::NoTimeline(TimelineFault::TooManyLines),
            RunFault::Unread(failed) => PictureFault::NoTimeline(TimelineFault::Unread(failed)),
            RunFault::Memory => PictureFault::NoTimeline(TimelineFault::Memory),
        }
    }
}
