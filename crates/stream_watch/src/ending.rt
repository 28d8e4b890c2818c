//! Tells the end of a stream.

ghost use Rattle.std.specs.Prelude.{◌≡◌};
ghost use Rattle.std.specs.List.{flat_map};
ghost use Rattle.term_words.specs.MessageTexts.{AppendsText};
ghost use Rattle.stream_watch.specs.Ending.{are_left, done_of_planned, end_told, first_open_told, left_part, left_told, more_open_told, more_told, more_without_end_words, open_told, open_told_unless, planned_steps_told, planned_steps_words, without_end_line, without_end_words};
ghost use Rattle.stream_watch.specs.Printed.{Prints};
ghost use Rattle.stream_watch.specs.State.{Tells, looks_of, state_of};
ghost use Rattle.stream_watch.specs.Steps.{step_view};

use crate::clock::gap;
use crate::counts::Counts;
use crate::lines::push_time;
use crate::mark::Mark;
use crate::printer::Printer;
use crate::steps::{OpenStep, first_steps};
use crate::watcher::Watcher;
use crate::words::{push_provisioner_of, push_step};
use std::alloc::Global;
use term_words::MessageText;

/// How many steps without an end are named.
const NAMED: usize = 20;

impl Watcher {
    /// Tells what is left at the end of the stream: refreshes, steps without an end unless it is
    /// whole, and what became of planned steps that are not all done.
    pub fn end(&mut self, is_whole: bool)
        ensures { Tells self.old self.new (end_told (looks_of self.old) is_whole (state_of self.old)) }
    {
        self.report_refreshes();
        self.open_steps_unless(is_whole);
        self.planned_steps();
    }

    /// Tells the steps that have no end, unless the stream is whole.
    fn open_steps_unless(&mut self, is_whole: bool)
        ensures { Tells self.old self.new (open_told_unless is_whole (looks_of self.old) (state_of self.old)) }
    {
        if !is_whole {
            self.open_steps();
        }
    }

    /// Tells the steps that have no end.
    fn open_steps(&mut self)
        ensures { Tells self.old self.new (open_told (looks_of self.old) (state_of self.old)) }
    {
        self.first_open_steps();
        self.more_open_steps();
    }

    /// Tells the first of the steps that have no end.
    fn first_open_steps(&mut self)
        ensures { Tells self.old self.new (first_open_told (looks_of self.old) (state_of self.old)) }
    {
        print_without_end(
            &mut self.printer,
            self.alloc,
            self.clock.elapsed(),
            self.clock.now,
            first_steps(self.steps.list.as_slice(), NAMED),
        );
    }

    /// Tells how many further steps have no end.
    fn more_open_steps(&mut self)
        ensures { Tells self.old self.new (more_open_told (looks_of self.old) (state_of self.old)) }
    {
        let count = self.steps.list.len().saturating_sub(NAMED);
        self.more_steps(count);
    }

    /// Tells that so many further steps have no end, if there are some.
    fn more_steps(&mut self, count: usize)
        ensures { Tells self.old self.new (more_told count (looks_of self.old) (state_of self.old)) }
    {
        if count > 0 {
            let mut text = MessageText::new(self.alloc);
            push_more_without_end(&mut text, count);
            self.line(Mark::NoEnd, &text);
        }
    }

    /// Tells what became of the planned steps, where not all of them are done.
    fn planned_steps(&mut self)
        ensures { Tells self.old self.new (planned_steps_told (looks_of self.old) (state_of self.old)) }
    {
        if are_left(self.counts) {
            self.left_steps();
        }
    }

    /// Tells what became of the planned steps.
    fn left_steps(&mut self)
        ensures { Tells self.old self.new (left_told (looks_of self.old) (state_of self.old)) }
    {
        let mut text = MessageText::new(self.alloc);
        push_planned_steps(&mut text, self.counts, self.steps.changes());
        self.line(Mark::Sum, &text);
    }
}

/// Whether changes were planned, some began, and not all are done.
fn are_left(counts: Counts) -> bool
    ensures { result ≡ are_left counts }
{
    counts.planned > 0 && counts.begun > 0 && counts.done < counts.planned
}

/// Prints that each of the steps has no end.
fn print_without_end(
    printer: &mut Printer,
    alloc: Global,
    elapsed: u64,
    now: i64,
    steps: &[OpenStep],
)
    ensures { Prints printer.old printer.new (flat_map (λ step. without_end_line printer.old.width printer.old.has_colour elapsed now (step_view step)) steps.now) }
{
    for step in steps {
        let mut text = MessageText::new(alloc);
        push_without_end(&mut text, now, step);
        printer.line(elapsed, Mark::NoEnd, &text);
    }
}

/// Adds that a step has no end.
fn push_without_end(text: &mut MessageText, now: i64, step: &OpenStep)
    ensures { AppendsText text.old text.new (without_end_words now (step_view step.now)) }
{
    push_step(text, step.action.as_str(), step.address.as_str());
    push_provisioner_of(text, step);
    text.text(" has no end, ");
    push_time(text, gap(step.begin, now));
    text.text(" so far");
}

/// Adds how many further steps have no end.
fn push_more_without_end(text: &mut MessageText, count: usize)
    ensures { AppendsText text.old text.new (more_without_end_words count) }
{
    text.text("and ");
    text.count(count as u64);
    text.text(" more have no end");
}

/// Adds what became of the planned steps, of which so many are open.
fn push_planned_steps(text: &mut MessageText, counts: Counts, under_way: u64)
    ensures { AppendsText text.old text.new (planned_steps_words counts under_way) }
{
    let left = counts
        .planned
        .saturating_sub(counts.done)
        .saturating_sub(counts.failed)
        .saturating_sub(under_way);
    push_done_of_planned(text, counts);
    push_left(text, counts.failed, " failed");
    push_left(text, under_way, " without an end");
    push_left(text, left, " never began");
}

/// Adds how many of the planned steps are done.
fn push_done_of_planned(text: &mut MessageText, counts: Counts)
    ensures { AppendsText text.old text.new (done_of_planned counts) }
{
    text.count(counts.done);
    text.text(" of ");
    text.count(counts.planned);
    text.text(" planned steps done");
}

/// Adds a count with its words, unless it is 0.
#[tactic(auto, unfolding(crate::specs::Ending::left_part))]
fn push_left(text: &mut MessageText, count: u64, words: &str)
    ensures { AppendsText text.old text.new (left_part count words.now) }
{
    if count > 0 {
        text.text(", ");
        text.count(count);
        text.text(words);
    }
}
