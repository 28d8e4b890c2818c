//! A walk through values of one shape, which collects findings.
//!
//! Every `Err` means that memory was refused.

ghost use Rattle.std.specs.Prelude.{◌≡◌, IfOk};
ghost use Rattle.serde_json.specs.View.{items_view, view};
ghost use Rattle.apply_json.specs.Tree.{list_of};
ghost use Rattle.input_validate.specs.Findings.{reported};
ghost use Rattle.input_validate.specs.Rules.{items_from, unless_suits};

use crate::findings::expected::Expected;
use crate::findings::list::Findings;
use crate::findings::path::Segment;
use crate::findings::problem::Problem;
use serde_json::Value;
use std::alloc::{AllocError, Global};

/// Lists the findings of values of one shape.
pub trait Walk<'a> {
    ghost use Rattle.std.specs.Prelude.{List, ℕ};
    ghost use Rattle.serde_json.specs.Data.{Data};
    ghost use Rattle.input_validate.specs.declared.findings.finding.Finding.{Finding};

    /// The findings of a value, with paths that start at the value. They may depend on the number
    /// of the item.
    ghost findings: { Self → ℕ → Data → List Finding };

    /// Lists the findings of a value. `number` is its place in its array, or 0 outside of arrays.
    fn walk(&self, alloc: Global, number: usize, value: &'a Value) -> Result<Findings, AllocError>
        ensures { IfOk result (λ f. f ≡ reported (findings self.now number (view value.now))) };
}

/// Lists the findings of the items of an array.
pub fn walk_items<'a, W: Walk<'a>>(
    alloc: Global,
    walk: &W,
    items: &'a [Value],
) -> Result<Findings, AllocError>
    ensures { IfOk result (λ f. f ≡ reported (items_from (W.findings walk.now) 0 (list_of (items_view items.now)))) }
{
    let mut all = Findings::none(alloc);
    for (number, item) in items.iter().enumerate() {
        let findings = walk
            .walk(alloc, number, item)?
            .under(Segment::Item(number))?;
        all = all.then(findings)?;
    }
    Ok(all)
}

/// A value that is only checked for its kind.
#[derive(Clone, Copy)]
pub struct Leaf(pub Expected);

impl<'a> Walk<'a> for Leaf {
    ghost findings = { λ leaf _ d. unless_suits leaf.0 d };

    fn walk(
        &self,
        alloc: Global,
        _number: usize,
        value: &'a Value,
    ) -> Result<Findings, AllocError> {
        if self.0.suits(value) {
            Ok(Findings::none(alloc))
        } else {
            Findings::here(alloc, Problem::IsNot(self.0))
        }
    }
}
