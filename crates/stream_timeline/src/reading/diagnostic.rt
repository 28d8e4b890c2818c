//! An error or a warning of a stream.

ghost use Rattle.std.specs.Prelude.{◌≡◌, ◌≢◌, ◌+◌, ◌-◌, ◌<◌, ◌≤◌, drop, slice_index, All, IfOk, length, map, option_map, take};
ghost use Rattle.std.specs.Option.{option_copied};
ghost use Rattle.stream_timeline.specs.Details.{detail_lines, stored, lines_of_detail, trimmed_line};
ghost use Rattle.stream_timeline.specs.SlotContents.{diagnostic_in};

use crate::reading::details::{len_without_blank_lines, stored, trimmed_line};
use crate::reading::limits::DETAIL_LINES;
use crate::reading::texts::text_or_empty;
use memchr::memchr;
use std::alloc::{AllocError, Global};
use std::marker::Model;
use stream_message::DiagnosticSlots;

/// An error or a warning of a stream.
///
/// Texts of more than 20,480 bytes are stored as their first 8,192 and last 12,288 bytes, and a
/// character may be cut where both meet. Fitted to 1,000 columns, the stored text looks like the
/// whole one, unless more than four characters without width follow one another. Contracts see the
/// stored texts.
#[derive(Drop)]
pub struct Diagnostic {
    summary: Vec<u8>,
    address: Option<Vec<u8>>,
    file: Option<Vec<u8>>,
    line: Option<u64>,
    detail: Detail,
}

// The memory bound of the crate counts 64 bytes for a diagnostic next to its texts.
const _: () = prove!(size_of::<Diagnostic>() == 3 * size_of::<Vec<u8>>() + 64);

/// The first ten lines of a detail, and the number of lines after them.
#[derive(Drop)]
pub(crate) struct Detail {
    pub lines: Vec<Vec<u8>>,
    pub more: u64,
}

impl Model for Diagnostic {
    ghost use Rattle.std.specs.Prelude.{ℕ, List, map, option_map};
    ghost use Rattle.stream_timeline.specs.Details.{DiagnosticRead};

    ghost Value = { DiagnosticRead };

    ghost view = { λ d. record {
      summary = d.summary.items;
      address = option_map (λ text. text.items) d.address;
      file = option_map (λ text. text.items) d.file;
      line = d.line;
      detail = map (λ line. line.items) d.detail.lines.items;
      more = d.detail.more;
    } };
}

impl Diagnostic {
    /// Stores the members of `diagnostic`. `Err` means that memory was refused.
    pub(crate) fn of(alloc: Global, slots: &DiagnosticSlots<'_>) -> Result<Diagnostic, AllocError>
        ensures { IfOk result (λ diagnostic. diagnostic ≡ diagnostic_in slots.now) }
    {
        let detail = Detail::of(alloc, text_or_empty(slots.detail()).as_bytes())?;
        Ok(Diagnostic {
            summary: stored(alloc, text_or_empty(slots.summary()).as_bytes())?,
            address: stored_text(alloc, slots.address())?,
            file: stored_text(alloc, slots.file())?,
            line: slots.line(),
            detail,
        })
    }

    /// The summary; empty if it is missing.
    pub fn summary(&self) -> &[u8]
        ensures { result.now ≡ self.now.summary }
    {
        self.summary.as_slice()
    }

    /// The address of the resource that the diagnostic is about.
    pub fn address(&self) -> Option<&[u8]>
        ensures { option_map (λ text. text.now) result ≡ self.now.address }
    {
        match &self.address {
            Some(text) => Some(text.as_slice()),
            None => None,
        }
    }

    /// The file that the diagnostic is about (`range.filename`).
    pub fn file(&self) -> Option<&[u8]>
        ensures { option_map (λ text. text.now) result ≡ self.now.file }
    {
        match &self.file {
            Some(text) => Some(text.as_slice()),
            None => None,
        }
    }

    /// The line in that file, from 1 (`range.start.line`).
    pub fn line(&self) -> Option<u64>
        ensures { result ≡ self.now.line }
    {
        self.line
    }

    /// The first ten lines of the detail, without blanks, tabs and carriage returns at their ends.
    /// Blank lines at the end of the detail are dropped.
    pub fn detail(&self) -> &[Vec<u8>]
        ensures { map (λ line. line.items) result.now ≡ self.now.detail }
    {
        self.detail.lines.as_slice()
    }

    /// How many more lines the detail has.
    pub fn more_lines(&self) -> u64
        ensures { result ≡ self.now.more }
    {
        self.detail.more
    }
}

impl Detail {
    /// Reads the first lines of a detail. `Err` means that memory was refused.
    fn of(alloc: Global, detail: &[u8]) -> Result<Detail, AllocError>
        ensures lines { IfOk result (λ value. map (λ line. line.items) value.lines.items
            ≡ map (λ line. stored (trimmed_line line)) (take detail_lines (lines_of_detail detail.now))) }
        ensures more { IfOk result (λ value. value.more ≡ length (lines_of_detail detail.now) - detail_lines) }
    {
        let mut rest = &detail[..len_without_blank_lines(detail)];
        let mut lines = Vec::new(alloc);
        let mut more = 0;
        'lines: while !rest.is_empty() {
            let len = len_before_feed(rest);
            if lines.len() < DETAIL_LINES {
                lines.push(stored(alloc, trimmed_line(&rest[..len]))?)?;
            } else {
                more += 1;
            }
            rest = after_feed(rest, len);
        }
        Ok(Detail { lines, more })
    }
}

/// How many bytes come before the first line feed, or all of them if there is none.
fn len_before_feed(bytes: &[u8]) -> usize
    ensures bound { result ≤ length bytes.now }
    ensures before { All (λ byte. byte ≢ 10) (take result bytes.now) }
    ensures feed { result < length bytes.now → slice_index bytes.now result ≡ 10 }
{
    match memchr(b'\n', bytes) {
        Some(len) => len,
        None => bytes.len(),
    }
}

/// The bytes after `len` bytes and a line feed.
fn after_feed(bytes: &[u8], len: usize) -> &[u8]
    ensures { result.now ≡ drop (len + 1) bytes.now }
{
    if len < bytes.len() {
        &bytes[len + 1..]
    } else {
        &[]
    }
}

/// The stored part of a text, if there is one. `Err` means that memory was refused.
fn stored_text(alloc: Global, text: Option<&str>) -> Result<Option<Vec<u8>>, AllocError>
    ensures { IfOk result (λ value. option_map (λ bytes. bytes.items) value
        ≡ option_map stored (option_copied text.entry)) }
{
    match text {
        Some(text) => Ok(Some(stored(alloc, text.as_bytes())?)),
        None => Ok(None),
    }
}
