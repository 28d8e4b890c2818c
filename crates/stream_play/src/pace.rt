//! Computes when the lines of a stream are due.

ghost use Rattle.std.specs.Prelude.{◌≡◌, ◌++◌, ◌∷◌, [], ℤ, List, Option, Some};
ghost use Rattle.stream_play.specs.Due.{HasPaced, time_of};

use crate::speed::Speed;
use std::marker::Model;

/// Computes when one line after another is due, in microseconds after the first message was read.
///
/// Contracts see the speed, the timestamp of the first message so far, and the due time of the line
/// before.
#[derive(Drop)]
pub struct Pace {
    speed: Speed,
    first: Option<i64>,
    due: u64,
}

impl Model for Pace {
    ghost use Rattle.stream_play.specs.Due.{Pacing};

    ghost Value = { Pacing };

    ghost view = { λ pace. record { speed = pace.speed; first = pace.first; due = pace.due } };
}

impl Pace {
    /// A pace that has read no line.
    pub fn new(speed: Speed) -> Pace
        ensures speed { result.speed ≡ speed }
        ensures paced { HasPaced result [] }
    {
        Pace {
            speed,
            first: None,
            due: 0,
        }
    }

    /// Returns when the next line is due. `timestamp` is in microseconds since 1970. It is `None`
    /// where the line is no message, or states no timestamp.
    pub fn line(&mut self, timestamp: Option<i64>) -> u64
        ensures speed { self.new.speed ≡ self.old.speed }
        ensures due { result ≡ self.new.due }
        ensures paced { (timestamps : List (Option ℤ)) → HasPaced self.old timestamps
            → HasPaced self.new (timestamps ++ timestamp ∷ []) }
    {
        let Some(timestamp) = timestamp else {
            return self.due;
        };
        let first = self.first.unwrap_or(timestamp);
        self.first = Some(first);
        self.due = self.due.max(time(self.speed, first, timestamp));
        self.due
    }
}

/// Returns the time from the first message to the timestamp, divided by the speed, in microseconds.
/// It is 0 for an earlier timestamp.
fn time(speed: Speed, first: i64, timestamp: i64) -> u64
    ensures { result ≡ time_of speed (Some first) (Some timestamp) }
{
    if timestamp < first {
        return 0;
    }
    timestamp.abs_diff(first) / speed.times() as u64
}
