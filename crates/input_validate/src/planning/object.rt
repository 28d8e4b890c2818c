//! Rules for the object that an entry of `planning` names.

ghost use Rattle.std.specs.Prelude.{◌≡◌, IfOk, false, option_map};
ghost use Rattle.std.specs.Option.{option_copied, option_map_or};
ghost use Rattle.serde_json.specs.View.{view};
ghost use Rattle.input_validate.specs.Findings.{reported};
ghost use Rattle.input_validate.specs.ObjectNames.{name_view};
ghost use Rattle.input_validate.specs.Planning.{again_violation, is_read, is_refreshed, mode_at, mode_of_entry, mode_of_name, object_violations, planned_name, violations_in};
ghost use Rattle.input_validate.specs.Rules.{violation_findings};

use crate::against_plan::violations::only_warns;
use crate::findings::list::Findings;
use crate::findings::name::Name;
use crate::findings::problem::Problem;
use crate::plan::object_name::ObjectName;
use crate::planning::known_objects::KnownObjects;
use crate::rules::members::{is_set, walk_violations};
use crate::rules::violation::Violation;
use apply_address::parts_of;
use apply_json::non_empty;
use apply_json_tree::members::{non_empty_text_member, text_member_or};
use apply_model::Mode;
use serde_json::Value;
use std::alloc::{AllocError, Global};

/// Reads the object that an entry names. `None` if its address or its deposed key is wrong.
pub fn planned_name(entry: &Value) -> Option<ObjectName<'_>>
    ensures { option_map name_view result ≡ planned_name (view entry.now) }
{
    let address = non_empty_text_member(entry, Name::Address.text())?;
    let deposed = text_member_or(entry, Name::Deposed.text(), "")?;
    Some(ObjectName {
        address,
        deposed: non_empty(deposed),
    })
}

/// Returns the mode of a resource with that address. `None` where the text is no address of a
/// resource. `Err` means that memory was refused.
fn mode_at(alloc: Global, address: &str) -> Result<Option<Mode>, AllocError>
    ensures { IfOk result (λ mode. mode ≡ mode_at address.now) }
{
    match parts_of(alloc, address) {
        Ok(Some(parts)) => Ok(Some(parts.mode())),
        Ok(None) => Ok(None),
        Err(refused) => Err(refused),
    }
}

/// Returns the mode of an object: that of the plan's object, else that of the address. `Err` means
/// that memory was refused.
fn mode_of_name<'a>(
    alloc: Global,
    known: &KnownObjects<'a>,
    name: ObjectName<'a>,
) -> Result<Option<Mode>, AllocError>
    ensures { IfOk result (λ mode. mode ≡ mode_of_name known.now (name_view name.entry)) }
{
    match known.mode(name) {
        Some(mode) => Ok(Some(mode)),
        None => mode_at(alloc, name.address),
    }
}

/// Returns the mode of the object that an entry names. `Err` means that memory was refused.
fn mode_of_entry<'a>(
    alloc: Global,
    known: &KnownObjects<'a>,
    entry: &'a Value,
) -> Result<Option<Mode>, AllocError>
    ensures { IfOk result (λ mode. mode ≡ mode_of_entry known.now (view entry.now)) }
{
    match planned_name(entry) {
        Some(name) => mode_of_name(alloc, known, name),
        None => Ok(None),
    }
}

fn is_read(mode: Option<Mode>) -> bool
    ensures { result ≡ option_map_or is_read mode false }
{
    match mode {
        Some(Mode::DataSource) => true,
        Some(Mode::Managed) => false,
        None => false,
    }
}

fn is_refreshed(mode: Option<Mode>) -> bool
    ensures { result ≡ option_map_or is_refreshed mode false }
{
    match mode {
        Some(Mode::DataSource) => false,
        Some(Mode::Managed) => true,
        None => false,
    }
}

/// Tests whether an entry fits its object, whose mode is given.
fn object_violations(mode: Option<Mode>, entry: &Value) -> [Violation; 4]
    ensures { result ≡ object_violations mode (view entry.now) }
{
    let deposed = non_empty_text_member(entry, Name::Deposed.text());
    [
        Violation {
            holds: planned_name(entry).is_some() && mode.is_none(),
            at: Some(Name::Address),
            problem: Problem::NoObject,
        },
        Violation {
            holds: is_read(mode) && deposed.is_some(),
            at: Some(Name::Deposed),
            problem: Problem::OnlyRefreshed,
        },
        Violation {
            holds: is_read(mode) && is_set(entry, Name::Gone),
            at: Some(Name::Gone),
            problem: Problem::OnlyRefreshed,
        },
        Violation {
            holds: is_refreshed(mode) && only_warns(entry),
            at: Some(Name::Failed),
            problem: Problem::OnlyReadWarns,
        },
    ]
}

/// Reports what an entry says that its object cannot do. Nothing is reported where the objects of
/// the plan are not known. `Err` means that memory was refused.
pub fn walk_object_of<'a>(
    alloc: Global,
    known: Option<&KnownObjects<'a>>,
    entry: &'a Value,
) -> Result<Findings, AllocError>
    ensures { IfOk result (λ f. f ≡ reported (violation_findings (violations_in (option_copied known.entry) (view entry.now)))) }
{
    let Some(known) = known else {
        return Ok(Findings::none(alloc));
    };
    let mode = mode_of_entry(alloc, known, entry)?;
    walk_violations(alloc, &object_violations(mode, entry))
}

/// Tests whether an earlier entry is about the same object. `first` is the number of the first such
/// entry.
pub fn again_violation(first: Option<usize>) -> Violation
    ensures { result ≡ again_violation first }
{
    Violation {
        holds: first.is_some(),
        at: None,
        problem: Problem::PlannedBefore(first.unwrap_or(0)),
    }
}
