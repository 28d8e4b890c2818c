//! The end of a stream, and what stands open there or at a summary.

ghost use Rattle.std.specs.Prelude.{◌≡◌, List, not, nat_lt, IfOk};

use crate::messages::totals::Totals;
use crate::rules::address_state::OpenCriteria;
use crate::rules::checker::Checker;
use crate::rules::fault::Fault;
use crate::rules::mode::Mode;
use crate::rules::open_entry::OpenEntry;
use crate::verdict::whole::Whole;
use std::alloc::{AllocError, Global};

impl Checker {
    ghost use Rattle.stream_check.specs.Checking.{HasRead};
    ghost use Rattle.stream_check.specs.Lines.{end_of, leaves_planned, whole_with};
    ghost use Rattle.stream_check.specs.Message.{Message as message_type};
    ghost use Rattle.stream_check.specs.Open.{any_open};
    ghost use Rattle.stream_check.specs.Unbegun.{AreAllUnbegun};
    ghost use Rattle.stream_check.specs.Unended.{AreAllOpen};

    /// What counts as open after the lines so far.
    fn criteria(&self) -> OpenCriteria
        ensures refreshes { result.refreshes ≡ not self.now.tally.has_failed }
        ensures failures { result.failures ≡ nat_lt self.now.tally.errors_without_address self.now.tally.failures }
    {
        OpenCriteria {
            refreshes: !self.tally.has_failed,
            failures: self.tally.errors_without_address < self.tally.failures,
        }
    }

    /// Whether something stands open.
    pub(crate) fn is_open(&self) -> bool
        ensures { (messages : List message_type) → HasRead self.now messages → result ≡ any_open messages }
    {
        self.pending.has_open(self.criteria())
    }

    /// Whether an apply was summed up, no error was told, and some planned create never began.
    fn leaves_planned(&self) -> bool
        ensures { (messages : List message_type) → HasRead self.now messages → result ≡ leaves_planned messages }
    {
        let is_summed_up = self.tally.ends_without_error();
        let is_any = self.unbegun.is_any();
        is_summed_up && is_any
    }

    /// Returns each address with planned creates that never began, in the order of their bytes.
    /// `Err` where memory is refused.
    pub fn unbegun_entries(&self, alloc: Global) -> Result<Vec<OpenEntry<'_>>, AllocError>
        ensures { IfOk result (λ entries. (messages : List message_type) → HasRead self.now messages → AreAllUnbegun messages entries.items) }
    {
        self.unbegun.entries(alloc)
    }

    /// Returns all that stands open: addresses in the order of their bytes, and the kinds of each
    /// in the order of `OpenKind`. `Err` where memory is refused.
    pub fn open_entries(&self, alloc: Global) -> Result<Vec<OpenEntry<'_>>, AllocError>
        ensures { IfOk result (λ entries. (messages : List message_type) → HasRead self.now messages → AreAllOpen messages entries.items) }
    {
        self.pending.open_entries(alloc, self.criteria())
    }

    /// Returns the verdict on a stream that ends here. `Err` with the fault of the end.
    pub fn end(&self, mode: Mode) -> Result<Whole, Fault>
        ensures { (messages : List message_type) → HasRead self.now messages → result ≡ end_of mode messages }
    {
        if self.is_open() {
            return Err(Fault::Unended);
        }
        if self.tally.ends_as_plan(mode) {
            return Ok(self.whole(mode, true, self.tally.planned));
        }
        if self.leaves_planned() {
            return Err(Fault::Planned);
        }
        if self.tally.ends_as_apply() {
            return Ok(self.whole(mode, false, self.tally.completed));
        }
        Err(self.tally.why_no_end())
    }

    /// The verdict on a whole stream with these totals.
    fn whole(&self, mode: Mode, is_plan: bool, totals: Totals) -> Whole
        ensures { (messages : List message_type) → HasRead self.now messages → result ≡ whole_with mode is_plan totals messages }
    {
        Whole {
            totals,
            has_errors: self.tally.has_failed,
            lines: self.tally.lines,
            is_plan,
            passed: self.passed(mode),
        }
    }
}
