//! Reads what a plan's JSON says of the time before its apply.

ghost use Rattle.std.specs.Prelude.{◌≡◌, IfErr, IfOk, Some};
ghost use Rattle.serde_json.specs.View.{view};
ghost use Rattle.apply_json.specs.Parsed.{IsNoTree};
ghost use Rattle.apply_plan.specs.Bytes.{max_bytes};
ghost use Rattle.apply_prior.specs.Prior.{prior_in, prior_of, prior_view};

use crate::drifts::drifts_of;
use crate::objects::objects_of;
use crate::outputs::planned_outputs_of;
use crate::prior::Prior;
use crate::shape::PriorShape;
use apply_json::{JsonFault, Scratch};
use apply_json_tree::parse_trimmed;
use apply_plan::MAX_BYTES;
use serde_json::Value;
use std::alloc::{AllocError, Global};

/// Reads from a plan (JSON Output Format, "Plan Representation") what it says of the time before
/// its apply: `prior_state`, `resource_drift` and `output_changes`.
///
/// Give it bytes that `apply_plan::read_plan` accepted. It refuses no other JSON: a member of the
/// wrong kind counts as absent, and an element that breaks a rule is passed over.
///
/// `Err` with `JsonFault::TooLarge` when there are more than 64 MiB. `Err` with
/// `JsonFault::NotJson` when the bytes are no JSON (RFC 8259) in UTF-8, or nest more than 127 deep.
/// `Err` with `JsonFault::Memory` when memory is refused.
pub fn read_prior(alloc: Global, bytes: &[u8]) -> Result<Prior, JsonFault>
    ensures ok { IfOk result (λ prior. prior_of bytes.now ≡ Some (prior_view prior)) }
    ensures err { IfErr result (λ fault. IsNoTree max_bytes fault bytes.now) }
{
    let mut scratch = Scratch::new(alloc);
    let plan = parse_trimmed(alloc, &mut scratch, bytes, MAX_BYTES, PriorShape::Plan)?;
    match prior_in(alloc, &plan) {
        Ok(prior) => Ok(prior),
        Err(_) => Err(JsonFault::Memory),
    }
}

/// Reads a parsed plan. `Err` when memory is refused.
fn prior_in(alloc: Global, plan: &Value) -> Result<Prior, AllocError>
    ensures { IfOk result (λ prior. prior_view prior ≡ prior_in (view plan.now)) }
{
    let drifts = drifts_of(alloc, plan)?;
    let objects = objects_of(alloc, plan, &drifts)?;
    let outputs = planned_outputs_of(alloc, plan)?;
    Ok(Prior {
        objects,
        drifts,
        outputs,
    })
}
