//! Numbers that may be absent.

ghost use Rattle.std.specs.Prelude.{◌≡◌};
ghost use Rattle.apply_json.specs.ShallowView.{shallow_view};
ghost use Rattle.apply_plan.specs.Script.Members.{number_read};

use apply_json::Shallow;

/// The whole number from 0 to 2^64 - 1, or `Some(None)` for an absent member.
///
/// `None` means any other value.
pub fn number_or_none(input: Shallow<'_>) -> Option<Option<u64>>
    ensures { result ≡ number_read (shallow_view input.entry) }
{
    match input {
        Shallow::Absent => Some(None),
        _ => match input.whole() {
            Some(number) => Some(Some(number)),
            None => None,
        },
    }
}
