//! How many times as fast a stream is played.

ghost use Rattle.std.specs.Prelude.{◌≡◌, ◌≤◌, max, min};
ghost use Rattle.stream_play.specs.Due.{most_speed};

use std::marker::Model;

/// The greatest speed: a day in a second.
const MOST: u32 = 86_400;

/// How many times as fast as its timestamps a stream is played: 1 to 86,400. Contracts see the
/// number.
#[derive(Clone, Copy, Debug, PartialEq, Eq)]
pub struct Speed {
    times: u32,
}

impl Model for Speed {
    ghost use Rattle.std.specs.Prelude.{ℕ, ◌≤◌};
    ghost use Rattle.stream_play.specs.Due.{most_speed};

    ghost Value = { ℕ };

    ghost view = { λ speed. speed.times };

    ghost invariant = { λ speed. (1 ≤ speed.times) × (speed.times ≤ most_speed) };

    ghost inverse = { λ times. record { times = times } };
}

impl Speed {
    /// The speed of that number. A number out of range gives the nearest speed.
    pub fn new(times: u32) -> Speed
        ensures { result ≡ max 1 (min times most_speed) }
    {
        Speed {
            times: times.clamp(1, MOST),
        }
    }

    /// The speed as a number.
    pub(crate) fn times(self) -> u32
        ensures value { result ≡ self }
        ensures some { 1 ≤ result }
    {
        self.times
    }
}
