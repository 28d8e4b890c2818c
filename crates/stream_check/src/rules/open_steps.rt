//! What stands open, by address.

ghost use Rattle.std.specs.Prelude.{◌≡◌, ◌∷◌, ◌++◌, [], ℕ, List, map, true, false, IfErr, IfOk, OnOk, OnErr, None, unwrap_or, if◌then◌else◌};
ghost use Rattle.std.specs.BTreeMap.{get_by_text};
ghost use Rattle.std.specs.Cmp.Lexicographic.{slice_cmp};
ghost use Rattle.std.specs.List.{flat_map};
ghost use Rattle.std.specs.List.Sorted.{IsStrictlySortedBy};
ghost use Rattle.std.specs.Ordering.{nat_cmp};
ghost use Rattle.std.specs.Option.{option_and_then};
ghost use Rattle.std.specs.Str.{bytes_eq};
ghost use Rattle.stream_check.specs.Addresses.{addresses_in};
ghost use Rattle.stream_check.specs.Open.{stands_open};
ghost use Rattle.stream_check.specs.AddressState.{idle, step_on, unless_idle};
ghost use Rattle.stream_check.specs.Unended.{open_failures, open_step, opened, opens_of, if_required};
ghost use Rattle.stream_check.specs.declared.messages.timed_stage.TimedStage.TheVariants.{Progress};

use crate::messages::action::Action;
use crate::rules::address_state::{
    AddressState, Failures, OpenCriteria, idle, is_idle, note_progress, stands_open,
};
use crate::rules::fault::Fault;
use crate::rules::open_entry::{OpenEntry, OpenKind};
use crate::rules::pending::Pending;
use std::alloc::{AllocError, Global};
use std::collections::BTreeMap;

/// The state of each address at which something stands open.
#[derive(Drop)]
pub struct OpenSteps {
    pub states: BTreeMap<String, AddressState>,
}

impl OpenSteps {
    /// No address at which something stands open.
    pub fn new(alloc: Global) -> Self
        ensures { (address : List ℕ) → get_by_text result.states address ≡ None }
    {
        OpenSteps {
            states: BTreeMap::new(alloc),
        }
    }

    /// Returns the state of the address.
    pub fn at(&self, address: &str) -> AddressState
        ensures { result ≡ unwrap_or (get_by_text self.now.states address.now) idle }
    {
        match self.states.get(address) {
            Some(state) => *state,
            None => idle(),
        }
    }

    /// Sets the state of the address. `Err` where memory is refused: nothing is changed then.
    pub fn set(
        &mut self,
        alloc: Global,
        address: &str,
        state: AddressState,
    ) -> Result<(), AllocError>
        ensures ok { OnOk result ((other : List ℕ) → get_by_text self.new.states other
            ≡ (if bytes_eq address.now other then unless_idle state else get_by_text self.old.states other)) }
        ensures err { OnErr result ((other : List ℕ) → get_by_text self.new.states other ≡ get_by_text self.old.states other) }
    {
        if is_idle(&state) {
            let _ = self.states.remove(address);
        } else if let Some(kept) = self.states.get_mut(address) {
            *kept = state;
        } else {
            let key = String::from_str(alloc, address)?;
            self.states.insert(key, state)?;
        }
        Ok(())
    }

    /// Changes the state of the address, if something stands open there.
    pub fn change(&mut self, address: &str, state: AddressState)
        ensures { (other : List ℕ) → get_by_text self.new.states other
            ≡ (if bytes_eq address.now other then option_and_then (λ _. unless_idle state) (get_by_text self.old.states address.now)
            else get_by_text self.old.states other) }
    {
        if is_idle(&state) {
            let _ = self.states.remove(address);
        } else if let Some(kept) = self.states.get_mut(address) {
            *kept = state;
        }
    }

    /// Changes the state of the address by a progress on that line. `Err` with the fault of the
    /// message: nothing is changed then.
    pub fn note_progress(
        &mut self,
        address: &str,
        action: Action,
        seconds: u64,
        line: u64,
    ) -> Result<(), Fault>
        ensures ok { OnOk result ((state : AddressState)
            × (step_on action (Progress seconds) line (unwrap_or (get_by_text self.old.states address.now) idle) ≡ Ok state)
            × ((other : List ℕ) → get_by_text self.new.states other
            ≡ (if bytes_eq address.now other then unless_idle state else get_by_text self.old.states other))) }
        ensures err { IfErr result (λ fault. (step_on action (Progress seconds) line (unwrap_or (get_by_text self.old.states address.now) idle) ≡ Err fault)
            × ((other : List ℕ) → get_by_text self.new.states other ≡ get_by_text self.old.states other)) }
    {
        match self.states.get_mut(address) {
            Some(state) => note_progress(state, action, seconds, line),
            None => Err(Fault::NotOpen),
        }
    }

    /// Whether something stands open, by the criteria.
    pub fn has_open(&self, criteria: OpenCriteria) -> bool
        ensures some { result ≡ true → (address : List ℕ) × (stands_open criteria.refreshes criteria.failures
            (unwrap_or (get_by_text self.now.states address) idle) ≡ true) }
        ensures none { result ≡ false → (address : List ℕ) → stands_open criteria.refreshes criteria.failures
            (unwrap_or (get_by_text self.now.states address) idle) ≡ false }
    {
        for (address, _) in self.states.iter() {
            if stands_open(criteria, &self.at(address.as_str())) {
                return true;
            }
        }
        false
    }

    /// Returns all that stands open, by the criteria: addresses in the order of their bytes, and
    /// the kinds of each in the order of `OpenKind`. `Err` where memory is refused.
    pub fn open_entries(
        &self,
        alloc: Global,
        criteria: OpenCriteria,
    ) -> Result<Vec<OpenEntry<'_>>, AllocError>
        ensures in_order { IfOk result (λ entries. IsStrictlySortedBy (slice_cmp nat_cmp) (addresses_in self.now.states)) }
        ensures listed { IfOk result (λ entries. map opened entries.items ≡ flat_map
            (λ address. opens_of criteria.refreshes criteria.failures address (unwrap_or (get_by_text self.now.states address) idle))
            (addresses_in self.now.states)) }
    {
        let mut entries = Vec::new(alloc);
        for (address, _) in self.states.iter() {
            let address = address.as_str();
            push_entries(&mut entries, criteria, address, &self.at(address))?;
        }
        Ok(entries)
    }
}

/// Adds the entries of one address. `Err` where memory is refused.
fn push_entries<'a>(
    entries: &mut Vec<OpenEntry<'a>>,
    criteria: OpenCriteria,
    address: &'a str,
    state: &AddressState,
) -> Result<(), AllocError>
    ensures { OnOk result (map opened entries.new.items ≡ map opened entries.old.items
        ++ opens_of criteria.refreshes criteria.failures address.now state.now) }
{
    push_step(entries, address, OpenKind::Create, state.create)?;
    push_step(entries, address, OpenKind::Update, state.update)?;
    push_step(entries, address, OpenKind::Delete, state.delete)?;
    let refresh = step_if(criteria.refreshes, state.refresh);
    push_step(entries, address, OpenKind::Refresh, refresh)?;
    let failures = failures_if(criteria.failures, state.failures);
    push_failures(entries, address, failures)?;
    Ok(())
}

/// Returns the step, where the criteria count it.
fn step_if(criteria: bool, pending: Option<Pending>) -> Option<Pending>
    ensures { result ≡ if_required criteria pending }
{
    if criteria { pending } else { None }
}

/// Returns the failures, where the criteria count them.
fn failures_if(criteria: bool, failures: Option<Failures>) -> Option<Failures>
    ensures { result ≡ if_required criteria failures }
{
    if criteria { failures } else { None }
}

/// Adds an entry for an open step. `Err` where memory is refused.
fn push_step<'a>(
    entries: &mut Vec<OpenEntry<'a>>,
    address: &'a str,
    kind: OpenKind,
    pending: Option<Pending>,
) -> Result<(), AllocError>
    ensures { OnOk result (map opened entries.new.items ≡ map opened entries.old.items ++ open_step address.now kind pending) }
{
    match pending {
        None => Ok(()),
        Some(pending) => push_entry(entries, address, kind, pending.start_line()),
    }
}

/// Adds an entry for failures. `Err` where memory is refused.
fn push_failures<'a>(
    entries: &mut Vec<OpenEntry<'a>>,
    address: &'a str,
    failures: Option<Failures>,
) -> Result<(), AllocError>
    ensures { OnOk result (map opened entries.new.items ≡ map opened entries.old.items ++ open_failures address.now failures) }
{
    match failures {
        None => Ok(()),
        Some(failures) => push_entry(entries, address, OpenKind::Failure, failures.since),
    }
}

/// Adds an entry. `Err` where memory is refused.
fn push_entry<'a>(
    entries: &mut Vec<OpenEntry<'a>>,
    address: &'a str,
    kind: OpenKind,
    line: u64,
) -> Result<(), AllocError>
    ensures { OnOk result (map opened entries.new.items ≡ map opened entries.old.items ++ (address.now, kind, line) ∷ []) }
{
    entries.push(OpenEntry {
        address,
        kind,
        line,
    })?;
    Ok(())
}
