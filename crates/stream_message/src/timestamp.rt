//! Reads timestamps.

ghost use Rattle.std.specs.Prelude.{◌≡◌};
ghost use Rattle.stream_message.specs.Timestamp.{instant_of};

use jiff::Timestamp;

/// Returns the instant that a text states, in microseconds since the start of 1970, rounded down.
/// `None` if the text is no instant.
pub fn instant_of(text: &str) -> Option<i64>
    ensures { result ≡ instant_of text.now }
{
    match text.parse::<Timestamp>() {
        Ok(instant) => Some(instant.as_microsecond()),
        Err(_) => None,
    }
}
