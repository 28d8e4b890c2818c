//! The date of one day as JSON text, formatted once a day. Every `Err` means that memory was
//! refused.

ghost use Rattle.std.specs.Prelude.{◌≡◌, ◌≤◌, ◌<◌, ◌/◌, ◌%◌, ◌++◌, string_bytes, Some, IfOk, OnOk, IsTrue, ◌↔◌};
ghost use Rattle.apply_text.specs.CachedParts.{unterminated_date, time_of_day};
ghost use Rattle.apply_text.specs.UtcTimestamp.{two_digits};
ghost use Rattle.apply_text.specs.Start.{last_second};

use crate::cached_parts::unterminated::unterminated;
use jiff::Timestamp;
use jiff::tz::Offset;
use std::alloc::{AllocError, Global};
use std::marker::Model;

/// Seconds in a day.
const DAY: u64 = 86_400;

/// The date of one day, in JSON.
///
/// Contracts see the number of the day, where 1 January 1970 is day 0.
#[derive(Drop)]
pub struct CachedDate {
    day: u64,
    // Starts with the opening quote, and has no closing quote.
    date: String,
}

impl Model for CachedDate {
    ghost use Rattle.std.specs.Prelude.{ℕ, ◌≡◌, string_bytes};
    ghost use Rattle.apply_text.specs.CachedParts.{unterminated_date};

    ghost Value = { ℕ };

    ghost view = { λ cached. cached.day };

    ghost invariant = { λ cached. string_bytes cached.date ≡ unterminated_date cached.day };
}

impl CachedDate {
    /// Formats the date of a timestamp. `seconds` counts from the start of 1970.
    pub fn new(alloc: Global, seconds: u64) -> Result<CachedDate, AllocError>
        requires { seconds ≤ last_second }
        ensures { IfOk result (λ cached. cached ≡ seconds / 86400) }
    {
        let instant = Timestamp::from_second(seconds as i64).unwrap();
        let date = Offset::UTC.to_datetime(instant).date();
        let text = format!(in alloc; "{date}")?;
        Ok(CachedDate {
            day: seconds / DAY,
            date: unterminated(alloc, text.as_str())?,
        })
    }

    /// Whether the timestamp lies on this day.
    pub fn is_of(&self, seconds: u64) -> bool
        ensures { IsTrue result → self.now ≡ seconds / 86400 }
    {
        self.day == seconds / DAY
    }

    /// Appends a timestamp of this day in JSON, up to its second and without `Z`.
    pub fn push_second(&self, line: &mut String, seconds: u64) -> Result<(), AllocError>
        requires { self.now ≡ seconds / 86400 }
        ensures { OnOk result (string_bytes line.new
            ≡ string_bytes line.old ++ (unterminated_date (seconds / 86400) ++ time_of_day (seconds % 86400))) }
    {
        line.push_str(self.date.as_str())?;
        push_time(line, seconds % DAY)
    }
}

/// Makes `slot` hold the date of the timestamp. Formats the date only when the day has changed.
pub fn cache_date(
    alloc: Global,
    slot: &mut Option<CachedDate>,
    timestamp: u64,
) -> Result<(), AllocError>
    requires { timestamp ≤ last_second }
    ensures { OnOk result (slot.new ≡ Some (timestamp / 86400)) }
{
    if let Some(date) = slot {
        if date.is_of(timestamp) {
            return Ok(());
        }
    }
    *slot = Some(CachedDate::new(alloc, timestamp)?);
    Ok(())
}

/// Appends `T` and the time of a second of a day, as in `T23:59:59`.
fn push_time(line: &mut String, second: u64) -> Result<(), AllocError>
    requires { second < 86400 }
    ensures { OnOk result (string_bytes line.new ≡ string_bytes line.old ++ time_of_day second) }
{
    line.push_str("T")?;
    push_two_digits(line, second / 3600)?;
    line.push_str(":")?;
    push_two_digits(line, second / 60 % 60)?;
    line.push_str(":")?;
    push_two_digits(line, second % 60)
}

/// Appends a number below 100 as two digits.
fn push_two_digits(line: &mut String, number: u64) -> Result<(), AllocError>
    requires { number < 100 }
    ensures { OnOk result (string_bytes line.new ≡ string_bytes line.old ++ two_digits number) }
{
    line.push((b'0' + (number / 10) as u8) as char)?;
    line.push((b'0' + (number % 10) as u8) as char)
}
