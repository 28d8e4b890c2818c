//! Which run of an input is chosen.

ghost use Rattle.std.specs.Prelude.{◌≡◌, ◌<◌};
ghost use Rattle.stream_runs.specs.Choices.{digits_value, number_named, run_named};

/// A run of an input.
#[derive(Clone, Copy, Debug, PartialEq, Eq)]
pub enum RunChoice {
    /// The run of that number, counted from 1.
    Number(u64),
    /// The last run.
    Last,
}

/// The least number with one digit more than the number of a run may have.
const TOO_GREAT: u64 = 1_000_000_000;

/// Returns the run that a word names: `last`, or a number from 1 to 999,999,999 in decimal digits.
/// `None` if it names none.
pub fn run_named(word: &str) -> Option<RunChoice>
    ensures { result ≡ run_named word.now }
{
    if word == "last" {
        Some(RunChoice::Last)
    } else {
        number_named(word)
    }
}

/// Returns the run of the number that the word writes, if it writes one from 1 on.
fn number_named(word: &str) -> Option<RunChoice>
    ensures { result ≡ number_named word.now }
{
    match digits_value(word.as_bytes()) {
        Some(number) if number > 0 => Some(RunChoice::Number(number)),
        _ => None,
    }
}

/// Returns the value of decimal digits. `None` where another byte stands there, or the value
/// reaches 1,000,000,000.
fn digits_value(digits: &[u8]) -> Option<u64>
    ensures { result ≡ digits_value 0 digits.now }
{
    let mut value = 0;
    for digit in digits {
        if !digit.is_ascii_digit() {
            return None;
        }
        value = value * 10 + u64::from(*digit - b'0');
        if value >= TOO_GREAT {
            return None;
        }
    }
    Some(value)
}
