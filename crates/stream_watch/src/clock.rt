//! The time of a stream, by the moments of its messages.

ghost use Rattle.std.specs.Prelude.{◌≡◌};
ghost use Rattle.std.specs.Int.{int_gap};
ghost use Rattle.stream_watch.specs.Clock.{after, after_moment, elapsed, no_time};

/// The first and the greatest moment of the messages so far, in microseconds since the start of
/// 1970. Both are 0 before a message has one.
#[derive(Clone, Copy)]
pub struct Clock {
    /// The moment of the first message that has one.
    pub first: i64,
    /// The greatest moment.
    pub now: i64,
    /// How many messages had a moment. It stays at most `u64::MAX`.
    pub count: u64,
}

impl Clock {
    /// The time before the first message.
    pub fn new() -> Clock
        ensures { result ≡ no_time }
    {
        Clock {
            first: 0,
            now: 0,
            count: 0,
        }
    }

    /// The time after a message with this moment, or with none.
    pub fn after(self, moment: Option<i64>) -> Clock
        ensures { result ≡ after moment self }
    {
        match moment {
            Some(moment) => self.after_moment(moment),
            None => self,
        }
    }

    /// The time after a message with this moment.
    fn after_moment(self, moment: i64) -> Clock
        ensures { result ≡ after_moment moment self }
    {
        if self.count > 0 {
            Clock {
                first: self.first,
                now: self.now.max(moment),
                count: self.count.saturating_add(1),
            }
        } else {
            Clock {
                first: moment,
                now: moment,
                count: 1,
            }
        }
    }

    /// How long after the first moment the greatest one comes, in microseconds.
    pub fn elapsed(self) -> u64
        ensures { result ≡ elapsed self }
    {
        gap(self.first, self.now)
    }
}

/// How long after `from` the moment `to` comes, in microseconds. It is 0 if `to` comes earlier.
pub fn gap(from: i64, to: i64) -> u64
    ensures { result ≡ int_gap from to }
{
    if to < from { 0 } else { to.abs_diff(from) }
}
