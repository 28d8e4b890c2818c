//! The legend: what the colours mean.

use crate::kind::Kind;
use crate::picture::Picture;
use crate::svg::dimensions::{BAR, EDGE};
use crate::svg::fragment::Fragment;
use crate::svg::markup::Markup;
use crate::svg::markup_part::MarkupPart;
use std::alloc::{AllocError, Global};
use stream_timeline::Step;

/// An entry of the legend.
#[derive(Clone, Copy)]
enum Entry {
    Kind(Kind),
    Provisioner,
    Failed,
    Open,
}

impl Entry {
    /// All entries, in order.
    const ALL: [Entry; 9] = [
        Entry::Kind(Kind::Create),
        Entry::Kind(Kind::Update),
        Entry::Kind(Kind::Delete),
        Entry::Kind(Kind::Read),
        Entry::Kind(Kind::Refresh),
        Entry::Kind(Kind::Other),
        Entry::Provisioner,
        Entry::Failed,
        Entry::Open,
    ];

    /// Whether the row of this step shows what the entry explains.
    fn is_of(self, step: &Step) -> bool {
        match self {
            Entry::Kind(kind) => Kind::of(step.action()) == kind,
            Entry::Provisioner => !step.provisioners().is_empty(),
            Entry::Failed => step.has_failed(),
            Entry::Open => step.end().is_none() && !step.has_failed(),
        }
    }

    /// How many characters the words of the entry have.
    fn len(self) -> u64 {
        match self {
            Entry::Kind(kind) => kind.name().text().len() as u64 + 2,
            Entry::Provisioner => 11,
            Entry::Failed => 6,
            Entry::Open => 9,
        }
    }
}

/// Adds the legend at the height `y`, if it has at least two entries. Returns its height.
pub fn push_legend(markup: &mut Markup, picture: &Picture<'_>, y: u64) -> u64 {
    match entries(markup.alloc(), picture) {
        Ok(entries) => push_entries(markup, &entries, y),
        Err(_) => {
            markup.merge_whole(false);
            0
        }
    }
}

/// Adds the entries, if there are at least two. Returns the height of the legend.
fn push_entries(markup: &mut Markup, entries: &[Entry], y: u64) -> u64 {
    let (Some(Entry::Kind(first)), true) = (entries.first().copied(), entries.len() > 1) else {
        return 0;
    };
    let mut x = EDGE * 10;
    for entry in entries {
        push_entry(markup, *entry, first, x, y);
        x = x.saturating_add(entry.len().saturating_mul(66).saturating_add(370));
    }
    22
}

/// The entries for the steps that have a row. `Err` means that memory was refused.
fn entries(alloc: Global, picture: &Picture<'_>) -> Result<Vec<Entry>, AllocError> {
    let mut entries = Vec::new(alloc);
    for entry in Entry::ALL {
        if has_row(picture, entry) {
            entries.push(entry)?;
        }
    }
    Ok(entries)
}

/// Whether a step with a row shows what the entry explains.
fn has_row(picture: &Picture<'_>, entry: Entry) -> bool {
    let steps = picture.timeline.steps();
    for place in &picture.rows.places {
        if let Some(step) = steps.get(*place) {
            if entry.is_of(step) {
                return true;
            }
        }
    }
    false
}

/// Adds an entry. Where an entry is of no kind, its sample bar has the kind `first`.
fn push_entry(markup: &mut Markup, entry: Entry, first: Kind, x: u64, y: u64) {
    push_sign(markup, entry, first, x, y);
    markup.begin_text(
        x.saturating_add(190),
        y.saturating_add(13),
        Fragment::SmallSoft,
    );
    push_words(markup, entry);
    markup.fixed(Fragment::TextLineEnd);
}

/// Adds the sample bar of an entry. Where an entry is of no kind, the bar has the kind `first`.
fn push_sign(markup: &mut Markup, entry: Entry, first: Kind, x: u64, y: u64) {
    let (kind, end) = match entry {
        Entry::Kind(kind) => (kind, Fragment::WholeEnd),
        Entry::Provisioner => (first, Fragment::WholeEnd),
        Entry::Failed | Entry::Open => (first, Fragment::OpenEnd),
    };
    push_box(markup, x, y, Fragment::RoundedClass);
    markup.add(&[MarkupPart::Fixed(kind.name()), MarkupPart::Fixed(end)]);
    push_over(markup, entry, x, y);
    markup.fixed(Fragment::NewLine);
}

/// Adds what is drawn over the sample bar: an inner strip, or stripes and an edge.
fn push_over(markup: &mut Markup, entry: Entry, x: u64, y: u64) {
    match entry {
        Entry::Provisioner => markup.add(&[
            MarkupPart::Fixed(Fragment::RectX),
            MarkupPart::Tenths(x),
            MarkupPart::Fixed(Fragment::Y),
            MarkupPart::Number(y.saturating_add(7)),
            MarkupPart::Fixed(Fragment::SmallInnerEnd),
        ]),
        Entry::Failed => {
            push_box(markup, x, y, Fragment::StripesEnd);
            push_box(markup, x, y, Fragment::EdgeEnd);
        }
        Entry::Kind(_) | Entry::Open => {}
    }
}

/// Adds a sample bar with the closing markup `end`.
fn push_box(markup: &mut Markup, x: u64, y: u64, end: Fragment) {
    markup.add(&[
        MarkupPart::Fixed(Fragment::RectX),
        MarkupPart::Tenths(x),
        MarkupPart::Fixed(Fragment::Y),
        MarkupPart::Number(y.saturating_add(4)),
        MarkupPart::Fixed(Fragment::SmallWidth),
        MarkupPart::Number(BAR - 2),
        MarkupPart::Fixed(end),
    ]);
}

/// Adds the words of an entry.
fn push_words(markup: &mut Markup, entry: Entry) {
    match entry {
        Entry::Kind(kind) => markup.add(&[
            MarkupPart::Character(kind.sign()),
            MarkupPart::Fixed(Fragment::Space),
            MarkupPart::Fixed(kind.name()),
        ]),
        Entry::Provisioner => markup.fixed(Fragment::ProvisionerBar),
        Entry::Failed => markup.fixed(Fragment::FailedBar),
        Entry::Open => markup.fixed(Fragment::NotEndedBar),
    }
}
