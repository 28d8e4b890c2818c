//! Reads from a saved plan what only Terraform's form needs.

ghost use Rattle.std.specs.Prelude.{◌≡◌, ◌≤◌, length, IfErr, IfOk, OnOk, Some};
ghost use Rattle.json.specs.Json.{Json};
ghost use Rattle.serde_json.specs.Data.{Data};
ghost use Rattle.apply_json.specs.Parsed.{IsNoTree};
ghost use Rattle.apply_json.specs.Tree.{tree_of};
ghost use Rattle.apply_plan.specs.Bytes.{max_bytes};
ghost use Rattle.apply_plan_terraform.specs.Changes.{changes_of};
ghost use Rattle.apply_plan_terraform.specs.Plan.{note_of};
ghost use Rattle.apply_plan_terraform.specs.Sections.{AreSectionsOf};
ghost use Rattle.apply_plan_terraform.specs.Texts.{json_of, with_texts};
ghost use Rattle.apply_plan_terraform.specs.ReadDetails.{details_of, details_view};
ghost use Rattle.apply_plan_terraform.specs.declared.texts.part.Part.TheVariants as part;

use crate::changes::read_plan_details;
use crate::details::{Details, PlanDetails};
use crate::plan_outputs::PlanOutputs;
use crate::stored::sections::Sections;
use crate::texts::part::Part;
use crate::texts::seeking::read_sections;
use apply_json::{JsonFault, ReadFault, Scratch};
use std::alloc::Global;

/// Reads from a saved plan (JSON Output Format, "Plan Representation") what only Terraform's form
/// needs.
///
/// Give it bytes that `apply_plan::read_plan` accepted. It refuses no other JSON: a member of the
/// wrong kind counts as absent. Types and values of outputs stay JSON texts. So they take no more
/// memory than in the plan, and no number is rounded.
///
/// `Err` with `JsonFault::TooLarge` when there are more than 64 MiB. `Err` with
/// `JsonFault::NotJson` when the bytes are no JSON (RFC 8259) in UTF-8, or nest more than 127 deep.
/// `Err` with `JsonFault::Memory` when memory is refused.
pub fn read_details(alloc: Global, bytes: &[u8]) -> Result<Details, JsonFault>
    ensures ok { IfOk result (λ details. details_of bytes.now ≡ Some (details_view details)) }
    ensures err { IfErr result (λ fault. IsNoTree max_bytes fault bytes.now) }
{
    let (plan, sections) = read_parts(alloc, bytes)?;
    Ok(Details {
        plan,
        outputs: PlanOutputs::of(alloc, sections),
    })
}

/// Reads both parts. The working memory is freed at the end. Its errors are those of
/// `read_details`.
fn read_parts(alloc: Global, bytes: &[u8]) -> Result<(PlanDetails, Sections), JsonFault>
    ensures small { OnOk result (length bytes.now ≤ max_bytes) }
    ensures plan { IfOk result (λ read. (whole : Data) × (tree_of bytes.now ≡ Some whole)
        × (read.0.changes.items ≡ changes_of whole) × (read.0.note ≡ note_of whole)) }
    ensures sections { IfOk result (λ read. (j : Json) × (json_of bytes.now ≡ Some j)
        × AreSectionsOf part.Plan (with_texts part.Plan j) read.1) }
    ensures err { IfErr result (λ fault. IsNoTree max_bytes fault bytes.now) }
{
    let mut scratch = Scratch::new(alloc);
    let plan = read_plan_details(alloc, &mut scratch, bytes)?;
    match read_sections(alloc, &mut scratch, bytes, Part::Plan) {
        Ok(sections) => Ok((plan, sections)),
        Err(ReadFault::NotJson) => Err(JsonFault::NotJson),
        Err(ReadFault::Memory) => Err(JsonFault::Memory),
    }
}
