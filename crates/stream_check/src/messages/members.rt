//! The members that messages of known types need.

ghost use Rattle.std.specs.Prelude.{◌≡◌, option_map};
ghost use Rattle.apply_json.specs.ShallowView.{shallow_view};
ghost use Rattle.stream_check.specs.SlotContents.{required_count, required_inner_text, required_object, required_text};
ghost use Rattle.stream_check.specs.Results.{mapped};

use crate::messages::member_fault::MemberFault;
use crate::messages::path::Path;
use crate::rules::fault::Fault;
use apply_json::Shallow;
use stream_message::{InnerSlot, Presence};

/// Checks that a required object is present. `Err` where it is missing: then the member is reported
/// as missing. `Err` also where the value is no object: then the container is reported.
pub fn object_at(member: Path, container: Path, is: Presence) -> Result<(), Fault>
    ensures { result ≡ required_object member container is }
{
    match is {
        Presence::Missing => Err(Fault::Malformed(member, MemberFault::Missing)),
        Presence::NoObject => Err(Fault::Malformed(container, MemberFault::NoObject)),
        Presence::Object => Ok(()),
    }
}

/// Returns the text of a required member of an inner object. `Err` where the member is missing or
/// no text, or its container is no object.
pub fn inner_text_at<'a>(
    member: Path,
    container: Path,
    slot: InnerSlot<'a>,
) -> Result<&'a str, Fault>
    ensures { mapped (λ text. text.now) result ≡ required_inner_text member container slot.entry }
{
    object_at(member, container, slot.is).and(text_at(member, slot.value))
}

/// Returns the text of a required member. `Err` where it is missing or no text.
pub fn text_at<'a>(member: Path, value: Option<Shallow<'a>>) -> Result<&'a str, Fault>
    ensures { mapped (λ text. text.now) result ≡ required_text member (option_map shallow_view value.entry) }
{
    match value {
        None => Err(Fault::Malformed(member, MemberFault::Missing)),
        Some(value) => match value.text() {
            Some(text) => Ok(text),
            None => Err(Fault::Malformed(member, MemberFault::NoText)),
        },
    }
}

/// Returns the whole number of a required member. `Err` where it is missing or no whole number of
/// 64 bits.
pub fn count_at(member: Path, value: Option<Shallow<'_>>) -> Result<u64, Fault>
    ensures { result ≡ required_count member (option_map shallow_view value.entry) }
{
    match value {
        None => Err(Fault::Malformed(member, MemberFault::Missing)),
        Some(value) => match value.whole() {
            Some(count) => Ok(count),
            None => Err(Fault::Malformed(member, MemberFault::NoWholeNumber)),
        },
    }
}
