//! Checks `planning` at the top of a script, from its bytes.
//!
//! Every `Err` means that memory was refused.

ghost use Rattle.std.specs.Prelude.{◌≡◌, IfOk, Some, map};
ghost use Rattle.serde_json.specs.View.{view};
ghost use Rattle.input_validate.specs.Findings.{reported};
ghost use Rattle.input_validate.specs.Planning.{in_planning, objects_unless, planning_findings};

use crate::findings::list::Findings;
use crate::planning::known_objects::KnownObjects;
use crate::planning::top_level::walk_planning;
use apply_json::JsonFault;
use apply_json_tree::parse;
use apply_plan::MAX_BYTES;
use apply_prior::{PriorObject, read_prior};
use serde_json::Value;
use std::alloc::{AllocError, Global};

/// Lists the errors in `planning`. Bytes that are too many or not JSON are reported elsewhere.
/// `is_refused` says that a run refuses the plan: then entries are not compared with the objects of
/// the plan.
pub fn planning_for(
    alloc: Global,
    is_refused: bool,
    plan: &[u8],
    script: &[u8],
) -> Result<Findings, AllocError>
    ensures { IfOk result (λ f. f ≡ reported (planning_findings (objects_unless is_refused plan.now) script.now)) }
{
    match parse(alloc, script, MAX_BYTES) {
        Ok(script) => walk_for(alloc, is_refused, plan, &script),
        Err(JsonFault::Memory) => Err(AllocError),
        Err(JsonFault::TooLarge) => Ok(Findings::none(alloc)),
        Err(JsonFault::NotJson) => Ok(Findings::none(alloc)),
    }
}

/// Checks the tree of a script. An accepted plan was read before, so the only possible error is a
/// lack of memory.
fn walk_for(
    alloc: Global,
    is_refused: bool,
    plan: &[u8],
    script: &Value,
) -> Result<Findings, AllocError>
    ensures { IfOk result (λ f. f ≡ reported (in_planning (objects_unless is_refused plan.now) (view script.now))) }
{
    if is_refused {
        return walk_planning(alloc, None, script);
    }
    match read_prior(alloc, plan) {
        Ok(prior) => walk_with(alloc, &prior.objects, script),
        Err(_) => Err(AllocError),
    }
}

/// Checks the tree of a script with these objects of the plan.
fn walk_with(alloc: Global, objects: &[PriorObject], script: &Value) -> Result<Findings, AllocError>
    ensures { IfOk result (λ f. f ≡ reported (in_planning (Some (map (λ prior. prior.object) objects.now)) (view script.now))) }
{
    let known = KnownObjects::of(alloc, objects)?;
    walk_planning(alloc, Some(&known), script)
}
