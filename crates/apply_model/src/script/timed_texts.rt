//! Texts that a provisioner prints, in order.

ghost use Rattle.std.specs.Prelude.{◌≡◌, ◌<◌, ◌≤◌, length, Some, slice_get, vec_len};
ghost use Rattle.apply_model.specs.Script.Limits.{max_outputs};
ghost use Rattle.apply_model.specs.Script.Outcome.{are_in_time};

use crate::script::timed_text::TimedText;
use std::marker::Model;

/// The greatest number of texts that a provisioner may print in a script.
pub const MAX_OUTPUTS: usize = 100;

/// The texts that a provisioner prints, in order, at most 100. Each has the second at which it
/// comes. Contracts see a list.
#[derive(Debug, Drop)]
pub struct TimedTexts {
    texts: Vec<TimedText>,
}

impl Model for TimedTexts {
    ghost use Rattle.std.specs.Prelude.{List, ◌≤◌, vec_len};
    ghost use Rattle.apply_model.specs.declared.script.timed_text.TimedText.{TimedText};
    ghost use Rattle.apply_model.specs.Script.Limits.{max_outputs};

    ghost Value = { List TimedText };

    ghost view = { λ t. t.texts.items };

    ghost invariant = { λ t. vec_len t.texts ≤ max_outputs };
}

impl TimedTexts {
    /// These texts, in this order.
    pub fn new(texts: Vec<TimedText>) -> TimedTexts
        requires { vec_len texts ≤ max_outputs }
        ensures { result ≡ texts.items }
    {
        TimedTexts { texts }
    }

    /// The number of texts, at most 100.
    pub fn len(&self) -> u8
        ensures len { result ≡ length self.now }
        ensures few { length self.now ≤ max_outputs }
    {
        self.texts.len() as u8
    }

    /// The text of that number, counted from 0.
    pub fn get(&self, number: u8) -> &TimedText
        requires { number < length self.now }
        ensures { Some result.now ≡ slice_get self.now number }
    {
        &self.texts[number as usize]
    }

    /// Whether the times of the texts never fall and none is greater than `seconds`. A script
    /// states only such texts, with the seconds of their provisioner.
    pub fn are_in_time(&self, seconds: u32) -> bool
        ensures { result ≡ are_in_time 0 seconds self.now }
    {
        let mut before = 0;
        for timed in &self.texts {
            if timed.after < before || timed.after > seconds {
                return false;
            }
            before = timed.after;
        }
        true
    }
}
