//! The provisioners of a step, as the stream has them.
//!
//! Every `Err` means that memory was refused.

ghost use Rattle.std.specs.Prelude.{◌≡◌, ◌<◌, ◌≤◌, IfOk, IfSome, Some, if◌then◌else◌, length, option_map, position, slice_get, vec_len};
ghost use Rattle.std.specs.Option.{option_copied};
ghost use Rattle.apply_model.specs.Script.Limits.{max_provisioners};
ghost use Rattle.stream_record_outcomes.specs.Provisioners.{at_once, begins, begun_name, end_second, ends_one, fails_one, kept_runs, last_end, run_from, runs_in};

use crate::timed_fact::TimedFact;
use apply_model::MAX_PROVISIONERS;
use std::alloc::{AllocError, Global};
use std::marker::Model;
use stream_record_steps::Stated;

/// A provisioner: from when until when it ran, and what came before the next one began.
#[derive(Drop)]
pub struct ProvisionerRun<'a> {
    pub name: &'a str,
    pub begin: u32,
    pub until: u32,
    pub facts: &'a [TimedFact<'a>],
}

impl<'a> Model for ProvisionerRun<'a> {
    ghost use Rattle.stream_record_outcomes.specs.Provisioners.{ProvisionerRun};

    ghost Value = { ProvisionerRun };

    ghost view = { λ run. record { name = run.name.now; begin = run.begin; until = run.until; facts = run.facts.now } };
}

impl<'a> ProvisionerRun<'a> {
    ghost use Rattle.stream_record_outcomes.specs.Provisioners.{seconds_of_run, went_on};

    /// How long the provisioner ran.
    pub fn seconds(&self) -> u32
        ensures { result ≡ seconds_of_run self.now }
    {
        self.until.saturating_sub(self.begin)
    }

    /// Whether the provisioner failed.
    pub fn went_on(&self) -> bool
        ensures { result ≡ went_on self.now }
    {
        match last_end(self.facts) {
            Some(end) => fails_one(end.stated),
            None => false,
        }
    }
}

/// The provisioners that began, in order. The last one runs to its own end, or to the end of the
/// whole.
pub fn runs_in<'a>(
    alloc: Global,
    to_own_end: bool,
    whole: u32,
    facts: &'a [TimedFact<'a>],
) -> Result<Vec<ProvisionerRun<'a>>, AllocError>
    ensures { IfOk result (λ runs. runs.items ≡ runs_in to_own_end whole facts.now) }
{
    let mut runs = Vec::new(alloc);
    for place in 0..facts.len() {
        let fact = &facts[place];
        if let Some(name) = begun_name(fact.stated) {
            let later = &facts[place + 1..];
            runs.push(run_from(to_own_end, whole, fact.second, later, name))?;
        }
    }
    Ok(runs)
}

/// The provisioner that began then, by the facts after that.
fn run_from<'a>(
    to_own_end: bool,
    whole: u32,
    begin: u32,
    facts: &'a [TimedFact<'a>],
    name: &'a str,
) -> ProvisionerRun<'a>
    ensures { result ≡ run_from to_own_end whole begin facts.now name.now }
{
    match position_of_begin(facts) {
        Some(count) => ProvisionerRun {
            name,
            begin,
            until: second_at(facts, count),
            facts: &facts[..count],
        },
        None => ProvisionerRun {
            name,
            begin,
            until: last_until(to_own_end, whole, facts),
            facts,
        },
    }
}

/// The place of the first begin of a provisioner.
fn position_of_begin(facts: &[TimedFact<'_>]) -> Option<usize>
    ensures value { result ≡ position begins facts.now }
    ensures bound { IfSome result (λ place. place < length facts.now) }
{
    facts.iter().position(begins)
}

/// The second of the fact at this place.
fn second_at(facts: &[TimedFact<'_>], place: usize) -> u32
    requires { place < length facts.now }
    ensures { Some result ≡ option_map (λ fact. fact.second) (slice_get facts.now place) }
{
    let fact = &facts[place];
    fact.second
}

/// Whether a provisioner began.
fn begins(fact: &TimedFact<'_>) -> bool
    ensures { result ≡ begins fact.now }
{
    begun_name(fact.stated).is_some()
}

/// The name of the provisioner that began.
fn begun_name(stated: &Stated) -> Option<&str>
    ensures { option_copied result ≡ begun_name stated.now }
{
    match stated {
        Stated::ProvisionerBegan { name } => Some(name.as_str()),
        Stated::Progress { .. }
        | Stated::Wrote { .. }
        | Stated::ProvisionerEnded
        | Stated::ProvisionerFailed => None,
    }
}

/// Until when the last provisioner ran, which has these facts.
fn last_until(to_own_end: bool, whole: u32, facts: &[TimedFact<'_>]) -> u32
    ensures { result ≡ if to_own_end then end_second whole facts.now else whole }
{
    if !to_own_end {
        return whole;
    }
    match last_end(facts) {
        Some(end) => end.second,
        None => whole,
    }
}

/// The last end of a provisioner with these facts.
fn last_end<'f, 'a>(facts: &'f [TimedFact<'a>]) -> Option<&'f TimedFact<'a>>
    ensures { option_copied result ≡ last_end facts.now }
{
    facts.iter().rev().find(|fact| ends_one(fact.stated))
}

fn ends_one(stated: &Stated) -> bool
    ensures { result ≡ ends_one stated.now }
{
    match stated {
        Stated::ProvisionerEnded | Stated::ProvisionerFailed => true,
        Stated::Progress { .. } | Stated::ProvisionerBegan { .. } | Stated::Wrote { .. } => false,
    }
}

fn fails_one(stated: &Stated) -> bool
    ensures { result ≡ fails_one stated.now }
{
    match stated {
        Stated::ProvisionerFailed => true,
        Stated::Progress { .. }
        | Stated::ProvisionerBegan { .. }
        | Stated::Wrote { .. }
        | Stated::ProvisionerEnded => false,
    }
}

/// Lets the first provisioner begin at once.
pub fn begin_at_once(runs: &mut [ProvisionerRun<'_>])
    ensures { runs.new ≡ at_once runs.old }
{
    if !runs.is_empty() {
        let first = &mut runs[0];
        first.begin = 0;
    }
}

/// At most 8 provisioners: the first ones, and, if the last one makes the step fail, that one.
pub fn kept_runs<'a>(
    mut runs: Vec<ProvisionerRun<'a>>,
    fails: bool,
) -> Result<Vec<ProvisionerRun<'a>>, AllocError>
    ensures value { IfOk result (λ kept. kept.items ≡ kept_runs fails runs.entry.items) }
    ensures few { IfOk result (λ kept. vec_len kept ≤ max_provisioners) }
{
    if runs.len() <= MAX_PROVISIONERS {
        return Ok(runs);
    }
    if !fails {
        runs.truncate(MAX_PROVISIONERS);
        return Ok(runs);
    }
    if let Some(last) = runs.pop() {
        runs.truncate(MAX_PROVISIONERS - 1);
        runs.push(last)?;
    }
    Ok(runs)
}
