//! Reads the drifts of a plan. Every `Err` means that memory was refused.

ghost use Rattle.std.specs.Prelude.{◌≡◌, IfOk};
ghost use Rattle.serde_json.specs.View.{view};
ghost use Rattle.apply_prior.specs.Drifts.{drift_of, drifts_of, is_still};
ghost use Rattle.apply_prior.specs.Views.{element_view};

use crate::drift::Drift;
use crate::element::Element;
use crate::lookups::items_at;
use apply_model::ChangeDetails;
use apply_plan_terraform::change_details;
use serde_json::Value;
use std::alloc::{AllocError, Global};

/// Reads the drifts of a plan, in their order.
pub fn drifts_of(alloc: Global, plan: &Value) -> Result<Vec<Drift>, AllocError>
    ensures { IfOk result (λ drifts. drifts.items ≡ drifts_of (view plan.now)) }
{
    let elements = items_at(plan, "resource_drift");
    let mut drifts = Vec::new(alloc);
    for element in elements {
        if let Some(drift) = drift_of(alloc, element)? {
            drifts.push(drift)?;
        }
    }
    Ok(drifts)
}

/// Reads the drift that an element states. `None` means that a member is invalid or missing, or
/// that the object neither changed nor moved.
fn drift_of(alloc: Global, element: &Value) -> Result<Option<Drift>, AllocError>
    ensures { IfOk result (λ drift. drift ≡ drift_of (view element.now)) }
{
    let Some(object) = Element::of_drift(element) else {
        return Ok(None);
    };
    let details = change_details(alloc, element)?;
    if is_still(&object, &details) {
        return Ok(None);
    }
    let change = object.copied(alloc)?;
    Ok(Some(Drift { change, details }))
}

/// Whether the object neither changed nor moved.
fn is_still(object: &Element<'_>, details: &ChangeDetails) -> bool
    ensures { result ≡ is_still (element_view object.now) details.now }
{
    object.action.steps().is_empty() && !details.forgets && details.previous.is_none()
}
