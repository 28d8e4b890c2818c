//! The planned creates that have not begun.

ghost use Rattle.std.specs.Prelude.{◌≡◌, ◌&&◌, ℕ, List, map, true, false, IfOk, OnOk, OnErr, Some, None, unwrap_or, if◌then◌else◌};
ghost use Rattle.std.specs.BTreeMap.{get_by_text};
ghost use Rattle.std.specs.Cmp.Lexicographic.{slice_cmp};
ghost use Rattle.std.specs.List.{flat_map};
ghost use Rattle.std.specs.List.Sorted.{IsStrictlySortedBy};
ghost use Rattle.std.specs.Ordering.{nat_cmp};
ghost use Rattle.std.specs.Option.{option_copied};
ghost use Rattle.std.specs.Str.{bytes_eq};
ghost use Rattle.stream_check.specs.Addresses.{addresses_in};
ghost use Rattle.stream_check.specs.AddressState.{idle, unless_idle};
ghost use Rattle.stream_check.specs.Open.{stands_open};
ghost use Rattle.stream_check.specs.Unbegun.{awaiting, begun_state, one_begun, one_planned, planned_state, starts_create};
ghost use Rattle.stream_check.specs.Unended.{opened, opens_of};

use crate::messages::action::Action;
use crate::messages::timed_stage::TimedStage;
use crate::rules::address_state::{AddressState, OpenCriteria, idle};
use crate::rules::limits::MAX_LINES;
use crate::rules::open_entry::OpenEntry;
use crate::rules::open_steps::OpenSteps;
use crate::rules::pending::Pending;
use std::alloc::{AllocError, Global};

/// A planned create stands open until a create begins at its address. Nothing else counts.
const WAITING: OpenCriteria = OpenCriteria {
    refreshes: false,
    failures: false,
};

/// The planned creates that have not begun, by address.
#[derive(Drop)]
pub struct Unbegun {
    /// A state has the number of its planned creates as open creates.
    pub waiting: OpenSteps,
}

impl Unbegun {
    /// No planned create.
    pub fn new(alloc: Global) -> Self
        ensures { (address : List ℕ) → get_by_text result.waiting.states address ≡ None }
    {
        Unbegun {
            waiting: OpenSteps::new(alloc),
        }
    }

    /// Adds a change that is planned on that line, if it counts and has an address. `Err` where
    /// memory is refused: nothing is changed then.
    pub fn plan(
        &mut self,
        alloc: Global,
        counts: bool,
        address: Option<&str>,
        line: u64,
    ) -> Result<(), AllocError>
        ensures ok { OnOk result ((other : List ℕ) → get_by_text self.new.waiting.states other
            ≡ planned_state counts line (option_copied address.entry) (λ a. get_by_text self.old.waiting.states a) other) }
        ensures err { OnErr result ((other : List ℕ) → get_by_text self.new.waiting.states other ≡ get_by_text self.old.waiting.states other) }
    {
        match address {
            Some(address) if counts => self.add(alloc, address, line),
            _ => Ok(()),
        }
    }

    /// Adds a create of the address that is planned on that line. `Err` where memory is refused:
    /// nothing is changed then.
    fn add(&mut self, alloc: Global, address: &str, line: u64) -> Result<(), AllocError>
        ensures ok { OnOk result ((other : List ℕ) → get_by_text self.new.waiting.states other
            ≡ (if bytes_eq address.now other
            then unless_idle (awaiting (Some (one_planned line (unwrap_or (get_by_text self.old.waiting.states address.now) idle).create)))
            else get_by_text self.old.waiting.states other)) }
        ensures err { OnErr result ((other : List ℕ) → get_by_text self.new.waiting.states other ≡ get_by_text self.old.waiting.states other) }
    {
        let before = self.waiting.at(address);
        let planned = one_planned(line, before.create);
        self.waiting.set(alloc, address, awaiting(Some(planned)))
    }

    /// Takes away a planned create of the address, where the message is the start of a create.
    pub fn step(&mut self, address: &str, action: Action, stage: TimedStage)
        ensures { (other : List ℕ) → get_by_text self.new.waiting.states other
            ≡ (if starts_create stage action && bytes_eq address.now other
            then begun_state (get_by_text self.old.waiting.states address.now)
            else get_by_text self.old.waiting.states other) }
    {
        match stage {
            TimedStage::Start => match action {
                Action::Create => self.begin(address),
                Action::Update | Action::Delete | Action::Read | Action::Refresh => {}
            },
            TimedStage::Progress(_) | TimedStage::Complete(_) | TimedStage::Errored(_) => {}
        }
    }

    /// Takes away a planned create of the address, if it has one.
    fn begin(&mut self, address: &str)
        ensures { (other : List ℕ) → get_by_text self.new.waiting.states other
            ≡ (if bytes_eq address.now other
            then begun_state (get_by_text self.old.waiting.states address.now)
            else get_by_text self.old.waiting.states other) }
    {
        let before = self.waiting.at(address);
        self.waiting
            .change(address, awaiting(one_begun(before.create)));
    }

    /// Whether some planned create has not begun.
    pub fn is_any(&self) -> bool
        ensures some { result ≡ true → (address : List ℕ)
            × (stands_open false false (unwrap_or (get_by_text self.now.waiting.states address) idle) ≡ true) }
        ensures none { result ≡ false → (address : List ℕ)
            → stands_open false false (unwrap_or (get_by_text self.now.waiting.states address) idle) ≡ false }
    {
        self.waiting.has_open(WAITING)
    }

    /// Returns each address with planned creates that have not begun, in the order of their bytes.
    /// `Err` where memory is refused.
    pub fn entries(&self, alloc: Global) -> Result<Vec<OpenEntry<'_>>, AllocError>
        ensures in_order { IfOk result (λ entries. IsStrictlySortedBy (slice_cmp nat_cmp) (addresses_in self.now.waiting.states)) }
        ensures listed { IfOk result (λ entries. map opened entries.items ≡ flat_map
            (λ address. opens_of false false address (unwrap_or (get_by_text self.now.waiting.states address) idle))
            (addresses_in self.now.waiting.states)) }
    {
        self.waiting.open_entries(alloc, WAITING)
    }
}

/// The state of an address at which so many planned creates wait.
fn awaiting(waiting: Option<Pending>) -> AddressState
    ensures { result ≡ awaiting waiting }
{
    let mut state = idle();
    state.create = waiting;
    state
}

/// One planned create more, on that line.
fn one_planned(line: u64, waiting: Option<Pending>) -> Pending
    ensures { result ≡ one_planned line waiting }
{
    match waiting {
        None => Pending::Several {
            start_line: line,
            count: 1,
        },
        Some(Pending::One { start_line, .. }) => Pending::Several {
            start_line,
            count: 2,
        },
        Some(Pending::Several { start_line, count }) => if count < MAX_LINES {
            Pending::Several {
                start_line,
                count: count + 1,
            }
        } else {
            Pending::Several { start_line, count }
        },
    }
}

/// One planned create less.
fn one_begun(waiting: Option<Pending>) -> Option<Pending>
    ensures { result ≡ one_begun waiting }
{
    match waiting {
        None | Some(Pending::One { .. }) => None,
        Some(Pending::Several { start_line, count }) => if 1 < count {
            Some(Pending::Several {
                start_line,
                count: count - 1,
            })
        } else {
            None
        },
    }
}
