//! Warnings about a stream as a whole.

ghost use Rattle.std.specs.Prelude.{◌≡◌};
ghost use Rattle.stream_record_warnings.specs.StreamWarnings.{cut_off_warning, destroy_warning, ephemeral_warning, is_destroy, most_warning, others_words, stray_warning, stray_warnings, stream_warnings, tally_warning};
ghost use Rattle.term_words.specs.MessageTexts.{AppendsText};

use crate::lines::{begin, begin_line, end};
use crate::names::push_kind_at;
use stream_record_lines::Summary;
use stream_record_steps::{Stray, Tally};
use stream_record_stream::ApplyStream;
use term_words::MessageText;

/// Adds the warnings about a stream as a whole. `lanes` is how many changes are to run at once.
pub fn push_stream_warnings(text: &mut MessageText, stream: &ApplyStream<'_>, lanes: u8)
    ensures { AppendsText text.old text.new (stream_warnings lanes stream.now) }
{
    push_tally(
        text,
        stream.no_message,
        " is not a message",
        " more are none",
    );
    push_strays(text, stream.begun.strays());
    push_tally(
        text,
        stream.begun.odd(),
        " tells of no step that is under way",
        " more do",
    );
    push_ephemeral(text, stream.ephemeral);
    push_cut_off(text, stream.cut_off_at().is_some());
    push_destroy(text, is_destroy(stream.summary));
    push_most(text, stream.begun.most(), lanes);
}

/// Adds a warning about lines, if there are some: the first one, and how many others there are.
fn push_tally(text: &mut MessageText, tally: Tally, one: &str, more: &str)
    ensures { AppendsText text.old text.new (tally_warning one.now more.now tally) }
{
    if let Some(first) = tally.first {
        begin_line(text, first);
        text.text(one);
        push_others(text, tally.count, more);
        end(text);
    }
}

/// Adds how many lines there are besides the first, if there are others.
fn push_others(text: &mut MessageText, count: u64, more: &str)
    ensures { AppendsText text.old text.new (others_words more.now count) }
{
    if count > 1 {
        text.text(", and ");
        text.number(count - 1);
        text.text(more);
    }
}

/// Adds a warning for each of these starts of no step of the plan.
fn push_strays(text: &mut MessageText, strays: &[Stray])
    ensures { AppendsText text.old text.new (stray_warnings strays.now) }
{
    for stray in strays {
        push_stray(text, stray);
    }
}

/// Adds a warning about a start of no step of the plan.
fn push_stray(text: &mut MessageText, stray: &Stray)
    ensures { AppendsText text.old text.new (stray_warning stray.now) }
{
    begin_line(text, stray.line);
    text.text(": the ");
    push_kind_at(text, stray.kind, stray.address.as_str());
    text.text(" is no step of the plan");
    end(text);
}

/// Adds a warning about ephemeral resources, of which this is the first line.
fn push_ephemeral(text: &mut MessageText, line: Option<u64>)
    ensures { AppendsText text.old text.new (ephemeral_warning line) }
{
    if let Some(line) = line {
        begin_line(text, line);
        text.text(": ephemeral resources can't be told");
        end(text);
    }
}

/// Adds a warning where the stream was cut off.
fn push_cut_off(text: &mut MessageText, is_cut_off: bool)
    ensures { AppendsText text.old text.new (cut_off_warning is_cut_off) }
{
    if is_cut_off {
        begin(text);
        text.text(
            "the stream has neither a summary nor an error: it was cut off, and what had not begun is skipped",
        );
        end(text);
    }
}

/// Adds a warning where the summary is that of a destroy.
fn push_destroy(text: &mut MessageText, is_destroy: bool)
    ensures { AppendsText text.old text.new (destroy_warning is_destroy) }
{
    if is_destroy {
        begin(text);
        text.text("the stream is that of a destroy, which takes --destroy");
        end(text);
    }
}

/// Whether the summary is that of a destroy.
fn is_destroy(summary: Option<Summary>) -> bool
    ensures { result ≡ is_destroy summary }
{
    match summary {
        None => false,
        Some(summary) => match summary {
            Summary::Plan | Summary::Apply => false,
            Summary::Destroy => true,
        },
    }
}

/// Adds a warning where more steps were under way at once than lanes are there.
fn push_most(text: &mut MessageText, most: usize, lanes: u8)
    ensures { AppendsText text.old text.new (most_warning lanes most) }
{
    if most > lanes as usize {
        begin(text);
        text.number(most as u64);
        text.text(" steps are under way at once, which takes --parallelism ");
        text.number(most as u64);
        end(text);
    }
}
