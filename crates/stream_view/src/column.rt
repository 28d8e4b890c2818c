//! The texts in the columns of rows, and how wide they are.

ghost use Rattle.std.specs.Prelude.{◌≡◌, IfOk, min};
ghost use Rattle.term_text.specs.Columns.{columns_of};
ghost use Rattle.term_text.specs.Fitting.{fitted};
ghost use Rattle.term_text.specs.Fitted.{shown_characters};
ghost use Rattle.stream_view.specs.Columns.{column_text, columns_at, widest};

use crate::picture::Picture;
use crate::words::within::shown_within;
use std::alloc::{AllocError, Global};
use stream_timeline::Step;
use term_text::ShownText;

/// The greatest width of an address in an SVG, in columns.
pub const LABEL: usize = 64;

/// What a column of rows shows.
#[derive(Clone, Copy)]
pub enum Column {
    Action,
    Address,
    /// The address, fitted to the width of a label.
    Label,
}

impl Column {
    /// The text of a step in this column. `Err` means that memory was refused.
    fn text_of(self, alloc: Global, step: &Step) -> Result<ShownText, AllocError>
        ensures { IfOk result (λ text. text ≡ column_text self step.now) }
    {
        match self {
            Column::Action => ShownText::of(alloc, step.action().as_bytes()),
            Column::Address => ShownText::of(alloc, step.address().as_bytes()),
            Column::Label => label_of(alloc, step),
        }
    }
}

/// The address of a step as a label next to its bar in an SVG. `Err` means that memory was refused.
pub fn label_of(alloc: Global, step: &Step) -> Result<ShownText, AllocError>
    ensures { IfOk result (λ text. text ≡ fitted 64 (shown_characters step.now.address)) }
{
    shown_within(alloc, step.address().as_bytes(), LABEL)
}

/// The greatest width of this column in the rows of the picture. `Err` means that memory was
/// refused.
pub fn widest(alloc: Global, picture: &Picture<'_>, column: Column) -> Result<usize, AllocError>
    ensures { IfOk result (λ most. most
        ≡ min (widest (column_text column) picture.now.timeline.now.steps picture.now.rows.places.items) usize.MAX) }
{
    let mut most = 0;
    for place in &picture.rows.places {
        most = most.max(columns_at(alloc, picture, column, *place)?);
    }
    Ok(most)
}

/// The width of the text of the step at index `place`; 0 if there is no such step. `Err` means that
/// memory was refused.
fn columns_at(
    alloc: Global,
    picture: &Picture<'_>,
    column: Column,
    place: usize,
) -> Result<usize, AllocError>
    ensures { IfOk result (λ columns. columns ≡ min (columns_at (column_text column) picture.now.timeline.now.steps place) usize.MAX) }
{
    match picture.timeline.steps().get(place) {
        Some(step) => columns_in(alloc, column, step),
        None => Ok(0),
    }
}

/// The width of the text of a step. `Err` means that memory was refused.
fn columns_in(alloc: Global, column: Column, step: &Step) -> Result<usize, AllocError>
    ensures { IfOk result (λ columns. columns ≡ min (columns_of (column_text column step.now)) usize.MAX) }
{
    Ok(column.text_of(alloc, step)?.columns())
}
