//! Times in lanes.

ghost use Rattle.std.specs.Prelude.{◌≡◌, ◌+◌, ◌<◌, ◌^◌};

/// A time in lanes: a second, and a round within that second. Times are ordered by the second, then
/// by the round. A round separates a step from the steps that it waits for, when they take no time.
#[derive(Clone, Copy, Debug, PartialEq, Eq, PartialOrd, Ord)]
pub struct LaneTime {
    /// The second, counted from the start of the run.
    pub second: u64,
    /// The round within the second, counted from 0.
    pub round: u32,
}

impl LaneTime {
    ghost use Rattle.apply_events.specs.Waits.LaneTime.{first_lane_time, is_earlier, later_by, later_of, next_round};

    /// The first of all times.
    pub fn first() -> LaneTime
        ensures { result ≡ first_lane_time }
    {
        LaneTime {
            second: 0,
            round: 0,
        }
    }

    /// Whether this time is earlier than the other.
    pub fn is_earlier(self, other: LaneTime) -> bool
        ensures { result ≡ is_earlier self other }
    {
        self.second < other.second || self.second == other.second && self.round < other.round
    }

    /// The later of the two times.
    pub fn later_of(self, other: LaneTime) -> LaneTime
        ensures { result ≡ later_of self other }
    {
        if self.is_earlier(other) { other } else { self }
    }

    /// The time so many seconds later. After 0 seconds it is the same time, otherwise the first
    /// round of its second.
    pub fn later_by(self, seconds: u32) -> LaneTime
        requires { self.second + seconds < 2 ^ 64 }
        ensures { result ≡ later_by seconds self }
    {
        if seconds == 0 {
            self
        } else {
            LaneTime {
                second: self.second + seconds as u64,
                round: 0,
            }
        }
    }

    /// The next round in the same second.
    pub fn next_round(self) -> LaneTime
        requires { self.round + 1 < 2 ^ 32 }
        ensures { result ≡ next_round self }
    {
        LaneTime {
            second: self.second,
            round: self.round + 1,
        }
    }
}
