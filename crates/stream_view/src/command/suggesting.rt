//! Reports which option draws one run, where several were drawn as one.

ghost use Rattle.std.specs.Io.KnownBytes.{Keeps};
ghost use Rattle.stream_view.specs.Viewed.{HasOneRun};

use crate::command::drawn::Drawn;
use std::io::Write;
use stream_runs::SeveralRuns;
use stream_tool::report;

/// Reports how many runs were drawn as one, and which option takes one of them. Nothing is reported
/// where fewer than two runs begin in the input, or one was chosen. A failed write is ignored.
pub fn suggest<E: Write>(faults: &mut E, drawn: Drawn)
    ensures { HasOneRun drawn → Keeps (E.contents faults.old) (E.contents faults.new) }
{
    match drawn.runs {
        Some(runs) if runs > 1 => report(faults, SeveralRuns { runs }),
        _ => {}
    }
}
