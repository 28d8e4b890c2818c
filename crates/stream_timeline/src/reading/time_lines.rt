//! Reads lines that only contribute their timestamp, such as those of progress.

ghost use Rattle.std.specs.Prelude.{◌≡◌, IfSome, Some, false};
ghost use Rattle.stream_message.specs.Runs.{is_version_text};
ghost use Rattle.stream_timeline.specs.Messages.{message_of};
ghost use Rattle.stream_timeline.specs.SlotContents.{is_progress, is_time_only, time_only, time_only_in};

use apply_json::Scratch;
use std::alloc::Global;
use stream_message::{Kind, LineHead, Stage, read_head};

/// The longest line that is read twice where its type and timestamp do not suffice, in bytes.
const MAX_LEN: usize = 65_536;

/// Returns the timestamp of a line that only contributes its timestamp, in microseconds since the
/// start of 1970. `None` if the line has to be read with all members: because its message states
/// more, because it is no message, because it is long, or because memory was refused.
pub fn time_in(alloc: Global, scratch: &mut Scratch, line: &[u8]) -> Option<i64>
    ensures time { IfSome result (λ time. message_of line.now ≡ Some (time_only time)) }
    ensures no_run { IfSome result (λ time. is_version_text line.now ≡ false) }
{
    if line.len() > MAX_LEN {
        return None;
    }
    match read_head(alloc, scratch, line) {
        Ok(head) => time_of(&head),
        Err(_) => None,
    }
}

/// Returns the timestamp, if the kind of the message contributes nothing else.
fn time_of(head: &LineHead<'_>) -> Option<i64>
    ensures { result ≡ time_only_in head.now }
{
    if is_time_only(head.kind()?) {
        head.time()
    } else {
        None
    }
}

/// Whether messages of this kind only contribute their timestamp.
fn is_time_only(kind: Kind) -> bool
    ensures { result ≡ is_time_only kind }
{
    match kind {
        Kind::Apply(stage) | Kind::Provision(stage) | Kind::Ephemeral(stage) => is_progress(stage),
        Kind::Planned | Kind::Outputs | Kind::Other => true,
        Kind::Version | Kind::Refresh(_) | Kind::Summary | Kind::Diagnostic => false,
    }
}

/// Whether a stage is neither a start nor an end.
fn is_progress(stage: Stage) -> bool
    ensures { result ≡ is_progress stage }
{
    match stage {
        Stage::Progress => true,
        Stage::Start | Stage::Complete | Stage::Errored => false,
    }
}
