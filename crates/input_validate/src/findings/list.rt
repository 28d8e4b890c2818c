//! A list of findings that stores the first 1,000 of them.
//!
//! Every `Err` means that memory was refused.

ghost use Rattle.std.specs.Prelude.{◌≡◌, ◌≤◌, [], ◌∷◌, ◌++◌, ◌||◌, List, IfOk, OnOk, length, map, take};
ghost use Rattle.std.specs.List.{list_any};
ghost use Rattle.input_validate.specs.Findings.{finding_at, finding_here, is_refusal, reported, under};
ghost use Rattle.input_validate.specs.declared.findings.finding.Finding.{Finding as finding_type};

use crate::findings::finding::Finding;
use crate::findings::path::{Path, Segment};
use crate::findings::problem::Problem;
use std::alloc::{AllocError, Global};
use std::marker::Model;

/// How many findings a list stores. Further findings are only counted.
pub const MAX_STORED: usize = 1000;

/// The findings of a value: the first 1,000 in their order, and the number of all of them.
/// `refuses` tells whether a run refuses for one of them.
#[derive(Debug, Drop)]
pub struct Findings {
    stored: Vec<Finding>,
    count: usize,
    refuses: bool,
}

impl Model for Findings {
    ghost use Rattle.std.specs.Prelude.{◌≤◌, vec_len};
    ghost use Rattle.input_validate.specs.Findings.{Reported, max_stored};

    ghost Value = { Reported };

    ghost view = { λ f. record { stored = f.stored.items; count = f.count; refuses = f.refuses } };

    ghost invariant = { λ f. vec_len f.stored ≤ max_stored };
}

impl Findings {
    /// Makes a list without findings.
    #[tactic(auto, unfolding(crate::specs::Findings::reported))]
    pub fn none(alloc: Global) -> Findings
        ensures { result ≡ reported [] }
    {
        Findings {
            stored: Vec::new(alloc),
            count: 0,
            refuses: false,
        }
    }

    /// Makes one finding at the value itself.
    pub fn here(alloc: Global, problem: Problem) -> Result<Findings, AllocError>
        ensures { IfOk result (λ f. f ≡ reported (finding_here problem ∷ [])) }
    {
        Findings::one(alloc, Path::here(alloc), problem)
    }

    /// Makes one finding at a member or an item of the value.
    pub fn at(alloc: Global, segment: Segment, problem: Problem) -> Result<Findings, AllocError>
        ensures { IfOk result (λ f. f ≡ reported (finding_at segment problem ∷ [])) }
    {
        let mut path = Path::here(alloc);
        path.begin_with(segment)?;
        Findings::one(alloc, path, problem)
    }

    /// Makes one finding at this path.
    pub fn one(alloc: Global, path: Path, problem: Problem) -> Result<Findings, AllocError>
        ensures { IfOk result (λ f. f ≡ reported (record { path = path; problem = problem } ∷ [])) }
    {
        let mut stored = Vec::new(alloc);
        stored.push(Finding { path, problem })?;
        Ok(Findings {
            stored,
            count: 1,
            refuses: problem.is_refusal(),
        })
    }

    /// Moves the findings of a member or an item to the value that holds it: each path gets
    /// `segment` in front.
    pub fn under(mut self, segment: Segment) -> Result<Findings, AllocError>
        ensures { IfOk result (λ f. (all : List finding_type) → self ≡ reported all → f ≡ reported (map (under segment) all)) }
    {
        begin_with(&mut self.stored, segment)?;
        Ok(self)
    }

    /// Appends other findings. No more than 1,000 of both stay stored, in order.
    pub fn then(mut self, mut others: Findings) -> Result<Findings, AllocError>
        ensures { IfOk result (λ f. (all more : List finding_type) → self ≡ reported all → others ≡ reported more → f ≡ reported (all ++ more)) }
    {
        others.stored.truncate(MAX_STORED - self.stored.len());
        self.stored.append(&mut others.stored)?;
        self.count = self.count.saturating_add(others.count);
        self.refuses = is_either(self.refuses, others.refuses);
        Ok(self)
    }

    /// Keeps the first finding alone.
    #[tactic(auto, unfolding(crate::specs::Findings::reported))]
    pub fn first(mut self) -> Findings
        ensures { (all : List finding_type) → self ≡ reported all → result ≡ reported (take 1 all) }
    {
        self.stored.truncate(1);
        self.count = self.stored.len();
        self.refuses = is_any_refusal(&self.stored);
        self
    }

    /// Returns whether a run refuses for one of the findings. If not, all of them are warnings.
    pub fn refuses(&self) -> bool
        ensures { result ≡ self.now.refuses }
    {
        self.refuses
    }

    /// Returns the stored findings: the first 1,000.
    pub fn stored(&self) -> &[Finding]
        ensures { result.now ≡ self.now.stored }
    {
        &self.stored
    }

    /// Returns the number of all findings, stored or not. Counting stops at
    /// 18,446,744,073,709,551,615.
    pub fn count(&self) -> usize
        ensures { result ≡ self.now.count }
    {
        self.count
    }
}

/// Returns whether a run refuses for the first of these findings.
fn is_any_refusal(findings: &[Finding]) -> bool
    requires { length findings.now ≤ 1 }
    ensures { result ≡ list_any is_refusal findings.now }
{
    match findings.first() {
        Some(finding) => finding.problem.is_refusal(),
        None => false,
    }
}

/// Returns whether one of two tests holds.
pub fn is_either(one: bool, other: bool) -> bool
    ensures { result ≡ (one || other) }
{
    one || other
}

/// Puts a segment in front of each path.
fn begin_with(stored: &mut [Finding], segment: Segment) -> Result<(), AllocError>
    ensures { OnOk result (stored.new ≡ map (under segment) stored.old) }
{
    for finding in stored.iter_mut() {
        finding.path.begin_with(segment)?;
    }
    Ok(())
}

/// Appends the findings of a second place to those of a first one. `Err` if either has `Err`, or if
/// memory is refused here.
pub fn joined(
    these: Result<Findings, AllocError>,
    others: Result<Findings, AllocError>,
) -> Result<Findings, AllocError>
    ensures { (all more : List finding_type) → IfOk these (λ f. f ≡ reported all) → IfOk others (λ f. f ≡ reported more)
        → IfOk result (λ f. f ≡ reported (all ++ more)) }
{
    these?.then(others?)
}
