//! What stands open at one address.

ghost use Rattle.std.specs.Prelude.{◌≡◌, false, OnErr, OnOk};
ghost use Rattle.stream_check.specs.Open.{stands_open};
ghost use Rattle.stream_check.specs.Results.{mapped};
ghost use Rattle.stream_check.specs.AddressState.{failures_cleared, failed_by, idle, is_idle, may_fail, may_provision, one_failure_more, pending_at, provision_on, provisioned, step_on, unless_provisioner_left, with_pending};

use crate::messages::action::Action;
use crate::messages::timed_stage::TimedStage;
use crate::rules::fault::Fault;
use crate::rules::limits::MAX_LINES;
use crate::rules::pending::{Pending, after};
use stream_message::Stage;

/// What counts as open, next to creates, updates and deletes.
#[derive(Clone, Copy)]
pub struct OpenCriteria {
    /// Refreshes count, because no error was reported.
    pub refreshes: bool,
    /// Failures count, because more are left than errors without an address were reported.
    pub failures: bool,
}

/// Failed creates, updates and deletes of an address that no later error with this address
/// explains.
#[derive(Clone, Copy)]
pub struct Failures {
    /// The line of the first failure, counted from 1.
    pub since: u64,
    /// How many failures there are.
    pub count: u64,
}

/// What stands open at an address: the steps of each action, the provisioner, and the failures.
#[derive(Clone, Copy)]
pub struct AddressState {
    pub create: Option<Pending>,
    pub update: Option<Pending>,
    pub delete: Option<Pending>,
    pub read: Option<Pending>,
    pub refresh: Option<Pending>,
    /// The line on which the running provisioner started.
    pub provisioner: Option<u64>,
    /// The failures that no error explains yet.
    pub failures: Option<Failures>,
}

/// Nothing stands open.
pub fn idle() -> AddressState
    ensures { result ≡ idle }
{
    AddressState {
        create: None,
        update: None,
        delete: None,
        read: None,
        refresh: None,
        provisioner: None,
        failures: None,
    }
}

/// Returns the open steps of the action.
fn pending_of(state: &AddressState, action: Action) -> Option<Pending>
    ensures { result ≡ pending_at action state.now }
{
    match action {
        Action::Create => state.create,
        Action::Update => state.update,
        Action::Delete => state.delete,
        Action::Read => state.read,
        Action::Refresh => state.refresh,
    }
}

/// Sets the open steps of the action.
fn put(state: &mut AddressState, action: Action, pending: Option<Pending>)
    ensures { state.new ≡ with_pending action pending state.old }
{
    match action {
        Action::Create => state.create = pending,
        Action::Update => state.update = pending,
        Action::Delete => state.delete = pending,
        Action::Read => state.read = pending,
        Action::Refresh => state.refresh = pending,
    }
}

/// Returns the state with other open steps of the action.
fn with(state: AddressState, action: Action, pending: Option<Pending>) -> AddressState
    ensures { result ≡ with_pending action pending state }
{
    let mut new = state;
    put(&mut new, action, pending);
    new
}

/// Whether nothing stands open.
pub fn is_idle(state: &AddressState) -> bool
    ensures { result ≡ is_idle state.now }
{
    state.create.is_none()
        && state.update.is_none()
        && state.delete.is_none()
        && state.read.is_none()
        && state.refresh.is_none()
        && state.provisioner.is_none()
        && state.failures.is_none()
}

/// Whether a provisioner may run: within a create or a delete.
fn may_provision(state: &AddressState) -> bool
    ensures { result ≡ may_provision state.now }
{
    state.create.is_some() || state.delete.is_some()
}

/// Returns the state. `Err` where a provisioner runs outside of a create or a delete.
fn unless_provisioner_left(
    provisioner: Option<u64>,
    state: AddressState,
) -> Result<AddressState, Fault>
    ensures { result ≡ unless_provisioner_left provisioner state }
{
    match provisioner {
        None => Ok(state),
        Some(start_line) => if may_provision(&state) {
            Ok(state)
        } else {
            Err(Fault::LeavesProvisioner(start_line))
        },
    }
}

/// Checks that no provisioner runs outside of a create or a delete. `Err` with its fault.
fn check_provisioner(state: &AddressState) -> Result<(), Fault>
    ensures { mapped (λ _. state.now) result ≡ unless_provisioner_left state.now.provisioner state.now }
{
    match state.provisioner {
        None => Ok(()),
        Some(start_line) => if may_provision(state) {
            Ok(())
        } else {
            Err(Fault::LeavesProvisioner(start_line))
        },
    }
}

/// Whether a failure of the action needs an error that explains it.
pub fn may_fail(action: Action) -> bool
    ensures { result ≡ may_fail action }
{
    match action {
        Action::Create | Action::Update | Action::Delete => true,
        Action::Read | Action::Refresh => false,
    }
}

/// Adds a failure on that line.
fn one_failure_more(line: u64, failures: Option<Failures>) -> Failures
    ensures { result ≡ one_failure_more line failures }
{
    match failures {
        None => Failures {
            since: line,
            count: 1,
        },
        Some(failures) => if failures.count < MAX_LINES {
            Failures {
                since: failures.since,
                count: failures.count + 1,
            }
        } else {
            failures
        },
    }
}

/// Returns the state with a failure more, where the message reports one.
fn failed_by(action: Action, stage: TimedStage, line: u64, state: AddressState) -> AddressState
    ensures { result ≡ failed_by action stage line state }
{
    match stage {
        TimedStage::Start | TimedStage::Progress(_) | TimedStage::Complete(_) => state,
        TimedStage::Errored(_) => if may_fail(action) {
            let mut new = state;
            new.failures = Some(one_failure_more(line, state.failures));
            new
        } else {
            state
        },
    }
}

/// Returns the state after a message about a step on that line. `Err` with the fault of the
/// message.
pub fn step_on(
    action: Action,
    stage: TimedStage,
    line: u64,
    state: AddressState,
) -> Result<AddressState, Fault>
    ensures { result ≡ step_on action stage line state }
{
    match after(action, stage, line, pending_of(&state, action)) {
        Ok(pending) => unless_provisioner_left(
            state.provisioner,
            failed_by(action, stage, line, with(state, action, pending)),
        ),
        Err(fault) => Err(fault),
    }
}

/// Changes the state by a progress of the action on that line. The state is changed in place,
/// because most lines of a stream are progress. `Err` with the fault of the message: the state is
/// unchanged then.
pub fn note_progress(
    state: &mut AddressState,
    action: Action,
    seconds: u64,
    line: u64,
) -> Result<(), Fault>
    ensures stepped { mapped (λ _. state.new) result ≡ step_on action (TimedStage.Progress seconds) line state.old }
    ensures open { OnOk result (is_idle state.new ≡ false) }
    ensures preserved { OnErr result (state.new ≡ state.old) }
{
    let stage = TimedStage::Progress(seconds);
    let pending = match after(action, stage, line, pending_of(state, action)) {
        Ok(pending) => pending,
        Err(fault) => return Err(fault),
    };
    match check_provisioner(state) {
        Ok(()) => {
            put(state, action, pending);
            Ok(())
        }
        Err(fault) => Err(fault),
    }
}

/// Returns the line of the running provisioner after a message about a provisioner. `Err` with the
/// fault of the message.
fn provisioned(stage: Stage, line: u64, running: Option<u64>) -> Result<Option<u64>, Fault>
    ensures { result ≡ provisioned stage line running }
{
    match (stage, running) {
        (Stage::Start, None) => Ok(Some(line)),
        (Stage::Start, Some(start_line)) => Err(Fault::ProvisionerRuns(start_line)),
        (_, None) => Err(Fault::NoProvisioner),
        (Stage::Progress, Some(start_line)) => Ok(Some(start_line)),
        (Stage::Complete | Stage::Errored, Some(_)) => Ok(None),
    }
}

/// Returns the state after a message about a provisioner on that line. `Err` with the fault of the
/// message.
pub fn provision_on(stage: Stage, line: u64, state: AddressState) -> Result<AddressState, Fault>
    ensures { result ≡ provision_on stage line state }
{
    if !may_provision(&state) {
        return Err(Fault::NoStep);
    }
    match provisioned(stage, line, state.provisioner) {
        Ok(running) => {
            let mut new = state;
            new.provisioner = running;
            Ok(new)
        }
        Err(fault) => Err(fault),
    }
}

/// Returns the state after a diagnostic: an error explains all failures of its address.
pub fn failures_cleared(is_error: bool, state: AddressState) -> AddressState
    ensures { result ≡ failures_cleared is_error state }
{
    let mut new = state;
    if is_error {
        new.failures = None;
    }
    new
}

/// Whether something stands open, by the criteria.
pub fn stands_open(criteria: OpenCriteria, state: &AddressState) -> bool
    ensures { result ≡ stands_open criteria.refreshes criteria.failures state.now }
{
    state.create.is_some()
        || state.update.is_some()
        || state.delete.is_some()
        || (criteria.refreshes && state.refresh.is_some())
        || (criteria.failures && state.failures.is_some())
}
