//! Provisioners of a step.

ghost use Rattle.std.specs.Prelude.{◌≡◌};
ghost use Rattle.stream_record.specs.ScriptText.{may_fail_text, printed_text, provisioner_text, provisioners_text, timed_text};
ghost use Rattle.term_words.specs.MessageTexts.{AppendsText};

use crate::diagnostics::push_diag_member;
use crate::parts::{push_closing, push_opening};
use apply_model::{Provisioner, Provisioners, TimedText, TimedTexts};
use term_words::MessageText;

/// Adds the provisioners of a step, if there are some.
pub fn push_provisioners(text: &mut MessageText, provisioners: &Provisioners)
    ensures { AppendsText text.old text.new (provisioners_text provisioners.now) }
{
    let mut later = false;
    for number in 0..provisioners.len() {
        push_opening(text, ",\"provisioners\":[", later);
        push_provisioner(text, provisioners.get(number));
        later = true;
    }
    push_closing(text, "]", later);
}

/// Adds a provisioner.
fn push_provisioner(text: &mut MessageText, provisioner: &Provisioner)
    ensures { AppendsText text.old text.new (provisioner_text provisioner.now) }
{
    text.text("{\"provisioner\":");
    text.json_string(provisioner.name.as_str());
    text.text(",\"seconds\":");
    text.number(provisioner.seconds as u64);
    push_printed(text, provisioner.seconds, &provisioner.output);
    push_diag_member(text, ",\"failed\":{", provisioner.failed.as_ref());
    push_may_fail(text, provisioner.may_fail);
    text.text("}");
}

/// Adds the texts that a provisioner of so many seconds prints, if there are some.
fn push_printed(text: &mut MessageText, seconds: u32, texts: &TimedTexts)
    ensures { AppendsText text.old text.new (printed_text seconds texts.now) }
{
    let mut later = false;
    for number in 0..texts.len() {
        push_opening(text, ",\"output\":[", later);
        push_timed(text, seconds, texts.get(number));
        later = true;
    }
    push_closing(text, "]", later);
}

/// Adds a text that a provisioner of so many seconds prints.
fn push_timed(text: &mut MessageText, seconds: u32, timed: &TimedText)
    ensures { AppendsText text.old text.new (timed_text seconds timed.now) }
{
    if seconds <= timed.after {
        text.json_string(timed.text.as_str());
    } else {
        text.text("{\"after\":");
        text.number(timed.after as u64);
        text.text(",\"text\":");
        text.json_string(timed.text.as_str());
        text.text("}");
    }
}

/// Adds whether the step goes on after a failure.
fn push_may_fail(text: &mut MessageText, may_fail: bool)
    ensures { AppendsText text.old text.new (may_fail_text may_fail) }
{
    text.text(if may_fail {
        ",\"on_failure\":\"continue\""
    } else {
        ""
    });
}
