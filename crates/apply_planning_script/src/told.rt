//! What a stream tells of an object while a plan is made.
//!
//! Every `Err` means that memory was refused.

ghost use Rattle.std.specs.Prelude.{◌≡◌, IfOk, option_map};
ghost use Rattle.std.specs.Option.{option_copied, option_map_or};
ghost use Rattle.apply_planning_script.specs.ItemSlots.{item_view};
ghost use Rattle.apply_planning_script.specs.Texts.{texts_of};
ghost use Rattle.apply_planning_script.specs.Told.{failure_of, id_at_end, id_at_start, note_of, object_view, severity_of, stated_id, told_view, told_with};

use crate::name::name_of;
use crate::raw_item::RawItem;
use apply_model::{Mode, Note, Severity, Text};
use apply_planning::Told;
use apply_prior::PriorObject;
use std::alloc::{AllocError, Global};

/// What a stream tells of an object, with an item about it.
pub fn told_with(
    alloc: Global,
    object: PriorObject,
    item: Option<&RawItem<'_>>,
) -> Result<Told, AllocError>
    ensures { IfOk result (λ told. told_view told ≡ told_with (object_view object) (option_map (λ item. item_view item.now) item.entry)) }
{
    let texts = Texts::of(alloc, &object, item)?;
    let PriorObject {
        object,
        depends_on,
        ..
    } = object;
    Ok(Told {
        object,
        name: texts.name,
        depends_on,
        id_before: texts.id_before,
        id_after: texts.id_after,
        seconds: seconds_of(item),
        failure: texts.failure,
    })
}

/// The texts that a stream shows of an object.
#[derive(Drop)]
struct Texts {
    name: Text,
    id_before: Option<Text>,
    id_after: Option<Text>,
    failure: Option<Note>,
}

impl Texts {
    /// The texts of an object, with an item about it.
    fn of(
        alloc: Global,
        object: &PriorObject,
        item: Option<&RawItem<'_>>,
    ) -> Result<Texts, AllocError>
        ensures { IfOk result (λ texts. texts ≡ texts_of (object_view object.now) (option_map (λ item. item_view item.now) item.entry)) }
    {
        Ok(Texts {
            name: name_of(alloc, &object.object)?,
            id_before: Text::of_option(alloc, id_at_start(object, item))?,
            id_after: Text::of_option(alloc, id_at_end(object, item))?,
            failure: note_of(alloc, object.object.address(), item)?,
        })
    }
}

/// The id that the start of a refresh shows. `None` of a read.
fn id_at_start<'a>(object: &'a PriorObject, item: Option<&'a RawItem<'a>>) -> Option<&'a str>
    ensures { option_copied result
        ≡ id_at_start object.now.object.mode object.now.id_before (stated_id (option_map (λ item. item_view item.now) item.entry)) }
{
    match object.object.mode() {
        Mode::DataSource => None,
        Mode::Managed => match &object.id_before {
            Some(id) => Some(id.as_str()),
            None => item?.id,
        },
    }
}

/// The id that the completion shows.
fn id_at_end<'a>(object: &'a PriorObject, item: Option<&'a RawItem<'a>>) -> Option<&'a str>
    ensures { option_copied result
        ≡ id_at_end (option_map (λ item. item_view item.now) item.entry) object.now.object.prior_id }
{
    match item {
        Some(item) => if item.is_gone {
            None
        } else {
            item.id.or(object.object.prior_id())
        },
        None => object.object.prior_id(),
    }
}

/// How long the object takes, in seconds.
fn seconds_of(item: Option<&RawItem<'_>>) -> u32
    ensures { result ≡ option_map_or (λ item. item.now.seconds) item.entry 0 }
{
    match item {
        Some(item) => item.seconds,
        None => 0,
    }
}

/// The diagnostic of the failure. `None` where the object does not fail.
fn note_of(
    alloc: Global,
    address: &str,
    item: Option<&RawItem<'_>>,
) -> Result<Option<Note>, AllocError>
    ensures { IfOk result (λ note. note
        ≡ option_map (note_of address.now) (failure_of (option_map (λ item. item_view item.now) item.entry))) }
{
    let Some(item) = item else {
        return Ok(None);
    };
    let Some(failure) = &item.failure else {
        return Ok(None);
    };
    Ok(Some(Note {
        severity: severity_of(failure.only_warns),
        diag: failure.diag.copied(alloc)?,
        address: Some(Text::new(alloc, address)?),
    }))
}

/// The severity of a failure.
fn severity_of(only_warns: bool) -> Severity
    ensures { result ≡ severity_of only_warns }
{
    if only_warns {
        Severity::Warning
    } else {
        Severity::Error
    }
}
