//! Tells what is under way, at marks of the time.

ghost use Rattle.std.specs.Prelude.{◌≡◌, [], map};
ghost use Rattle.std.specs.List.{flat_map};
ghost use Rattle.term_words.specs.MessageTexts.{AppendsText, HasText};
ghost use Rattle.stream_watch.specs.Progress.{done_words, early_marks, is_due, is_slow, marks_at, more_steps_words, named_words, other_step_words, running_words, short_step, slow_told, state_words, under_way_told, under_way_words};
ghost use Rattle.stream_watch.specs.State.{Tells, looks_of, state_of};
ghost use Rattle.stream_watch.specs.Steps.{step_view, steps_of};
ghost use Rattle.stream_watch.specs.Words.{provisioner_words, with_part};

use crate::clock::gap;
use crate::lines::push_time;
use crate::mark::Mark;
use crate::steps::{OpenStep, first_steps};
use crate::watcher::Watcher;
use crate::words::{push_part, push_provisioner_of};
use std::alloc::Global;
use term_words::MessageText;

/// How many steps are named.
const NAMED: usize = 3;

/// How many columns an address has there.
const ADDRESS_COLUMNS: usize = 40;

/// How long the first step is open at least, in microseconds.
const LONG: u64 = 10_000_000;

/// How many microseconds a second has.
const SECOND: u64 = 1_000_000;

/// Returns how many marks have passed after so many microseconds: they stand at 10 s, 20 s and each
/// multiple of 30 s.
fn marks_at(elapsed: u64) -> u64
    ensures { result ≡ marks_at elapsed }
{
    let seconds = elapsed / SECOND;
    early_marks(seconds) + seconds / 30
}

/// Returns how many of the first two marks have passed.
fn early_marks(seconds: u64) -> u64
    ensures { result ≡ early_marks seconds }
{
    if seconds < 10 {
        0
    } else if seconds < 20 {
        1
    } else {
        2
    }
}

impl Watcher {
    /// Tells the steps that are open, if a mark has passed since they were told, and the first of
    /// them is open for ten seconds.
    pub fn under_way(&mut self)
        ensures { Tells self.old self.new (under_way_told (looks_of self.old) (state_of self.old)) }
    {
        if self.is_due() {
            self.slow_steps();
        }
    }

    /// Whether a mark has passed since the open steps were told, and the first of them is open for
    /// ten seconds.
    fn is_due(&self) -> bool
        ensures { result ≡ is_due (state_of self.now) }
    {
        marks_at(self.clock.elapsed()) > self.marks && self.is_slow()
    }

    /// Tells the steps that are open.
    fn slow_steps(&mut self)
        ensures { Tells self.old self.new (slow_told (looks_of self.old) (state_of self.old)) }
    {
        let mut text = MessageText::new(self.alloc);
        self.push_under_way(&mut text);
        self.marks = marks_at(self.clock.elapsed());
        self.line(Mark::UnderWay, &text);
    }

    /// Whether the first open step is open for ten seconds.
    fn is_slow(&self) -> bool
        ensures { result ≡ is_slow self.now.clock.now (steps_of self.now.steps) }
    {
        match self.steps.list.first() {
            Some(step) => gap(step.begin, self.clock.now) >= LONG,
            None => false,
        }
    }

    /// Adds how far the apply is, and what is under way, to an empty text.
    fn push_under_way(&self, text: &mut MessageText)
        ensures { HasText text.old [] → HasText text.new (under_way_words (state_of self.now)) }
    {
        self.push_state(text);
        text.text(": ");
        let steps = self.steps.list.as_slice();
        push_named(text, self.alloc, self.clock.now, first_steps(steps, NAMED));
        push_more(text, steps.len().saturating_sub(NAMED));
    }

    /// Adds how many changes are done, failed and under way, to an empty text.
    pub fn push_state(&self, text: &mut MessageText)
        ensures { HasText text.old [] → HasText text.new (state_words (state_of self.now)) }
    {
        self.push_done(text);
        if self.counts.failed > 0 {
            push_part(text, self.counts.failed, " failed");
        }
        push_part(text, self.steps.list.len() as u64, " under way");
    }

    /// Adds how many changes are done, or, before the first, how many objects are refreshed.
    fn push_done(&self, text: &mut MessageText)
        ensures { AppendsText text.old text.new (done_words (state_of self.now)) }
    {
        if self.counts.planned > 0 {
            text.count(self.counts.done);
            text.text(" of ");
            text.count(self.counts.planned);
            text.text(" done");
        } else if self.counts.begun > 0 {
            text.count(self.counts.done);
            text.text(" done");
        } else if self.refreshes.ended > 0 {
            text.count(self.refreshes.ended);
            text.text(" refreshed");
        }
    }
}

/// Adds the steps that are named.
fn push_named(text: &mut MessageText, alloc: Global, now: i64, steps: &[OpenStep])
    ensures { AppendsText text.old text.new (named_words now (map step_view steps.now)) }
{
    if let Some((first, rest)) = steps.split_first() {
        push_running(text, alloc, now, first);
        push_others(text, alloc, now, rest);
    }
}

/// Adds further steps, each behind a comma.
fn push_others(text: &mut MessageText, alloc: Global, now: i64, steps: &[OpenStep])
    ensures { AppendsText text.old text.new (flat_map (λ step. other_step_words now (step_view step)) steps.now) }
{
    for step in steps {
        text.text(", ");
        push_running(text, alloc, now, step);
    }
}

/// Adds how many further steps are under way.
fn push_more(text: &mut MessageText, count: usize)
    ensures { AppendsText text.old text.new (more_steps_words count) }
{
    if count > 0 {
        text.text(" and ");
        text.count(count as u64);
        text.text(" more");
    }
}

/// Adds a step that runs, and for how long.
#[tactic(auto, unfolding(crate::specs::Progress::running_words))]
fn push_running(text: &mut MessageText, alloc: Global, now: i64, step: &OpenStep)
    ensures { AppendsText text.old text.new (running_words now (step_view step.now)) }
{
    push_short_step(text, alloc, step);
    push_provisioner_of(text, step);
    text.text(" ");
    push_time(text, gap(step.begin, now));
}

/// Adds an action and its address, which is fitted to 40 columns.
fn push_short_step(text: &mut MessageText, alloc: Global, step: &OpenStep)
    ensures { AppendsText text.old text.new (short_step (step_view step.now)) }
{
    let mut address = MessageText::new(alloc);
    address.text(step.address.as_str());
    text.escaped(step.action.as_str().as_bytes());
    text.text(" ");
    text.add_within(ADDRESS_COLUMNS, &address);
}
