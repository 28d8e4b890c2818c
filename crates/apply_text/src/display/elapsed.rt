//! Durations in words, as `1h0m5s`. Every `Err` means that memory was refused.

ghost use Rattle.std.specs.Prelude.{◌≡◌, ◌++◌, Some, IfOk, OnOk, string_bytes};
ghost use Rattle.apply_text.specs.Elapsed.{elapsed_of, minutes_text, seconds_text};
ghost use Rattle.apply_text.specs.HookLines.{seconds_words};

use crate::display::number::push_number;
use std::alloc::{AllocError, Global};
use std::fmt;

/// A duration in seconds, printed as hours, minutes and seconds.
#[derive(Clone, Copy, Drop)]
pub struct Elapsed {
    pub seconds: u32,
}

impl fmt::Display for Elapsed {
    ghost output = { λ elapsed. Some (elapsed_of elapsed.seconds) };

    fn fmt<W: fmt::Write>(&self, f: &mut fmt::Formatter<W>) -> fmt::Result {
        let hours = self.seconds / 3600;
        let minutes = self.seconds / 60 % 60;
        let seconds = self.seconds % 60;
        if self.seconds < 60 {
            write!(f, "{seconds}s")
        } else if self.seconds < 3600 {
            write!(f, "{minutes}m{seconds}s")
        } else {
            write!(f, "{hours}h{minutes}m{seconds}s")
        }
    }
}

/// Formats a duration in seconds as Go does: `1h0m5s`. Leading units that are 0 are left out,
/// except the seconds.
pub fn elapsed_text(alloc: Global, seconds: u32) -> Result<String, AllocError>
    ensures { IfOk result (λ text. string_bytes text ≡ elapsed_of seconds) }
{
    Elapsed { seconds }.to_string(alloc)
}

/// Appends a duration, formatted as by [`elapsed_text`].
pub fn push_elapsed(line: &mut String, seconds: u32) -> Result<(), AllocError>
    ensures { OnOk result (string_bytes line.new ≡ string_bytes line.old ++ elapsed_of seconds) }
{
    if seconds < 60 {
        return push_seconds(line, seconds);
    }
    if seconds < 3600 {
        return push_minutes(line, seconds);
    }
    push_number(line, seconds / 3600)?;
    line.push_str("h")?;
    push_minutes(line, seconds)
}

/// Appends the seconds after the last whole minute.
#[inline(always)]
fn push_seconds(line: &mut String, seconds: u32) -> Result<(), AllocError>
    ensures { OnOk result (string_bytes line.new ≡ string_bytes line.old ++ seconds_text seconds) }
{
    push_number(line, seconds % 60)?;
    line.push_str("s")
}

/// Appends the minutes after the last whole hour, and the remaining seconds.
fn push_minutes(line: &mut String, seconds: u32) -> Result<(), AllocError>
    ensures { OnOk result (string_bytes line.new ≡ string_bytes line.old ++ minutes_text seconds) }
{
    push_number(line, seconds / 60 % 60)?;
    line.push_str("m")?;
    push_seconds(line, seconds)
}

/// Appends a duration. Nothing for `None`.
pub fn push_elapsed_if(line: &mut String, seconds: Option<u32>) -> Result<(), AllocError>
    ensures { OnOk result (string_bytes line.new ≡ string_bytes line.old ++ seconds_words seconds) }
{
    match seconds {
        Some(seconds) => push_elapsed(line, seconds),
        None => Ok(()),
    }
}
