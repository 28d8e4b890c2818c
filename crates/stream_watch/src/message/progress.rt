//! Reads messages of progress, which are most lines of a long stream, without building a tree.

ghost use Rattle.std.specs.Prelude.{◌≡◌, IfOk, IfSome, true};
ghost use Rattle.serde_json.specs.Data.{Data};
ghost use Rattle.apply_json.specs.ShallowView.{members_in};
ghost use Rattle.stream_message.specs.Slots.{HoldsLine};
ghost use Rattle.stream_message.specs.declared.selection.Selection.{Selection as selection_type};
ghost use Rattle.stream_watch.specs.ProgressMessage.{HasProgress, IsProgress, is_progress_kind};
ghost use Rattle.stream_watch.specs.Telling.{TellsProgress};

use crate::message::reading::text_in;
use apply_json::{JsonFault, Scratch};
use memchr::memmem;
use std::alloc::{AllocError, Global};
use stream_message::{Kind, LineSlots, Selection, Stage, read_line};

/// The end of the types of progress, which stands in almost each message of them.
const MARK: &[u8; 9] = b"_progress";

/// The members that are read.
const SELECTION: Selection = Selection {
    version: false,
    hook: true,
    change: false,
    changes: false,
    diagnostic: false,
    diagnostic_texts: false,
};

/// A message of progress of a step. It tells nothing by itself.
#[derive(Clone, Copy)]
pub struct ProgressMessage {
    /// Its moment, in microseconds since the start of 1970, where it has one.
    pub moment: Option<i64>,
}

/// Reads the message of a line, if it is progress of a step and names what its row needs. With
/// `find` the line is that of a log. `scratch` grows to the length of the line.
///
/// `None` for all other lines, and for progress whose type is written with escapes. `Err` where
/// memory is refused.
pub fn read_progress(
    alloc: Global,
    scratch: &mut Scratch,
    find: bool,
    line: &[u8],
) -> Result<Option<ProgressMessage>, AllocError>
    ensures { IfOk result (λ found. IfSome found (λ message. TellsProgress find line.now message.moment)) }
{
    match text_in(find, line) {
        Some(text) => progress_in(alloc, scratch, text),
        None => Ok(None),
    }
}

/// Reads the message of a text, as [`read_progress`] does.
fn progress_in(
    alloc: Global,
    scratch: &mut Scratch,
    text: &[u8],
) -> Result<Option<ProgressMessage>, AllocError>
    ensures { IfOk result (λ found. IfSome found (λ message. HasProgress text.now message.moment)) }
{
    if memmem::find(text, MARK).is_none() {
        return Ok(None);
    }
    let mut line = LineSlots::new(SELECTION);
    match read_line(alloc, scratch, text, &mut line) {
        Ok(()) => Ok(progress_of(&line)),
        Err(JsonFault::Memory) => Err(AllocError),
        Err(JsonFault::TooLarge | JsonFault::NotJson) => Ok(None),
    }
}

/// Returns what the members of a line state, if they are those of progress.
fn progress_of(line: &LineSlots<'_>) -> Option<ProgressMessage>
    ensures { IfSome result (λ message. (selection : selection_type) (tree : Data) → selection.hook ≡ true
        → HoldsLine selection line.now (members_in tree) → IsProgress tree message.moment) }
{
    let kind = line.head.kind()?;
    let address = line.hook.address()?;
    line.hook.action()?;
    if is_progress(kind) && !address.is_empty() {
        Some(ProgressMessage {
            moment: line.head.time(),
        })
    } else {
        None
    }
}

/// Whether messages of the kind are progress of a step.
fn is_progress(kind: Kind) -> bool
    ensures { result ≡ is_progress_kind kind }
{
    matches!(
        kind,
        Kind::Apply(Stage::Progress) | Kind::Ephemeral(Stage::Progress)
    )
}
