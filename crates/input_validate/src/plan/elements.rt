//! Checks the elements of `resource_changes`.
//!
//! Every `Err` means that memory was refused.

ghost use Rattle.std.specs.Prelude.{◌≡◌, [], IfOk, List, None, Option, if◌then◌else◌, option_map};
ghost use Rattle.serde_json.specs.View.{items_view, view};
ghost use Rattle.apply_json.specs.Tree.{list_of};
ghost use Rattle.input_validate.specs.Findings.{reported};
ghost use Rattle.input_validate.specs.FirstNamed.{AreFirst};
ghost use Rattle.input_validate.specs.ObjectNames.{Named, name_view};
ghost use Rattle.input_validate.specs.PlanFindings.{in_element, in_element_named, name_of, name_read, named_again};
ghost use Rattle.input_validate.specs.Rules.{items_after};

use crate::against_plan::first_named::FirstNamed;
use crate::findings::expected::Expected;
use crate::findings::list::Findings;
use crate::findings::path::Segment;
use crate::findings::problem::Problem;
use crate::plan::element::walk_by_itself;
use crate::plan::object_name::ObjectName;
use serde_json::Value;
use std::alloc::{AllocError, Global};

/// Checks an element after others, and returns its findings and the object that it names. `earlier`
/// holds the objects that the others name.
fn walk_element<'a>(
    alloc: Global,
    earlier: &FirstNamed<'a>,
    element: &'a Value,
) -> Result<(Findings, Option<ObjectName<'a>>), AllocError>
    ensures findings { (names : List (Option Named)) → AreFirst earlier.now names
        → IfOk result (λ r. r.0 ≡ reported (in_element_named names (view element.now))) }
    ensures name { IfOk result (λ r. option_map name_view r.1 ≡ name_of (view element.now)) }
{
    if !Expected::Object.suits(element) {
        let findings = Findings::here(alloc, Problem::IsNot(Expected::Object))?;
        return Ok((findings, None));
    }
    let itself = walk_by_itself(alloc, element)?;
    let name = name_unless(itself.refuses(), element);
    let again = named_again(alloc, earlier.get(name))?;
    let all = itself.then(again)?;
    Ok((all, name))
}

/// Returns the object that an element names, unless the element has an error.
fn name_unless(refuses: bool, element: &Value) -> Option<ObjectName<'_>>
    ensures { option_map name_view result ≡ (if refuses then None else name_read (view element.now)) }
{
    if refuses {
        None
    } else {
        ObjectName::of(element)
    }
}

/// Reports that the element with this number names the same object.
fn named_again(alloc: Global, number: Option<usize>) -> Result<Findings, AllocError>
    ensures { IfOk result (λ f. f ≡ reported (named_again number)) }
{
    match number {
        Some(number) => Findings::here(alloc, Problem::NamedBefore(number)),
        None => Ok(Findings::none(alloc)),
    }
}

/// Checks the elements in order.
pub fn walk_elements(alloc: Global, elements: &[Value]) -> Result<Findings, AllocError>
    ensures { IfOk result (λ f. f ≡ reported (items_after in_element [] (list_of (items_view elements.now)))) }
{
    let mut all = Findings::none(alloc);
    let mut names = FirstNamed::new(alloc);
    for (number, element) in elements.iter().enumerate() {
        let (findings, name) = walk_element(alloc, &names, element)?;
        all = all.then(findings.under(Segment::Item(number))?)?;
        names.push(name, number)?;
    }
    Ok(all)
}
