//! When each fact of a step came.
//!
//! Every `Err` means that memory was refused.

ghost use Rattle.std.specs.Prelude.{◌≡◌, IfOk, min, reverse};
ghost use Rattle.stream_record_outcomes.specs.Times.{bounded, latest_with, own_fact, rising, timed_facts};

use crate::took::{gap, progress_of};
use std::alloc::{AllocError, Global};
use std::marker::Model;
use stream_record_steps::{BegunStep, Stated, StepFact};

/// A fact of a step, and when it came, in seconds since the step began.
#[derive(Drop)]
pub struct TimedFact<'a> {
    pub second: u32,
    pub stated: &'a Stated,
}

impl<'a> Model for TimedFact<'a> {
    ghost use Rattle.stream_record_outcomes.specs.Times.{TimedFact};

    ghost Value = { TimedFact };

    ghost view = { λ fact. record { second = fact.second; stated = fact.stated.now } };
}

/// The facts of a step that takes these seconds.
pub fn timed_facts<'a>(
    alloc: Global,
    begun: &'a BegunStep,
    whole: u32,
) -> Result<Vec<TimedFact<'a>>, AllocError>
    ensures { IfOk result (λ facts. facts.items ≡ timed_facts whole begun.now) }
{
    rising(alloc, bounded_backwards(alloc, begun, whole)?)
}

/// The facts from the last to the first, each no later than the facts after it allow.
fn bounded_backwards<'a>(
    alloc: Global,
    begun: &'a BegunStep,
    whole: u32,
) -> Result<Vec<TimedFact<'a>>, AllocError>
    ensures { IfOk result (λ facts. facts.items ≡ reverse (bounded begun.now.second whole begun.now.facts)) }
{
    let facts = begun.facts.as_slice();
    let mut backwards = Vec::new(alloc);
    let mut latest = whole;
    let mut place = facts.len();
    while place > 0 {
        place -= 1;
        let fact = &facts[place];
        backwards.push(own_fact(begun, whole, latest, fact))?;
        latest = latest_with(whole, latest, fact);
    }
    Ok(backwards)
}

/// A fact with the second that it has by itself.
fn own_fact<'a>(begun: &BegunStep, whole: u32, latest: u32, fact: &'a StepFact) -> TimedFact<'a>
    ensures { result ≡ own_fact begun.now.second whole latest fact.now }
{
    let second = match progress_of(&fact.stated) {
        Some(seconds) => at_most(seconds, whole),
        None => at_most(gap(begun.second, fact.second), latest),
    };
    TimedFact {
        second,
        stated: &fact.stated,
    }
}

/// The latest second of what comes before this fact and those after it.
fn latest_with(whole: u32, latest: u32, fact: &StepFact) -> u32
    ensures { result ≡ latest_with whole latest fact.now }
{
    match progress_of(&fact.stated) {
        Some(seconds) => at_most(seconds.saturating_sub(1), whole),
        None => latest,
    }
}

fn at_most(seconds: u64, most: u32) -> u32
    ensures { result ≡ min seconds most }
{
    seconds.min(u64::from(most)) as u32
}

/// The facts from the first to the last, none earlier than a fact before it.
fn rising<'a>(
    alloc: Global,
    mut backwards: Vec<TimedFact<'a>>,
) -> Result<Vec<TimedFact<'a>>, AllocError>
    ensures { IfOk result (λ facts. facts.items ≡ rising 0 (reverse backwards.entry.items)) }
{
    let mut rising = Vec::new(alloc);
    let mut low = 0;
    while let Some(fact) = backwards.pop() {
        low = fact.second.max(low);
        rising.push(TimedFact {
            second: low,
            stated: fact.stated,
        })?;
    }
    Ok(rising)
}
