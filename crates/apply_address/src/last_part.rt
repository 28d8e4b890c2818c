//! The last part of an address.

ghost use Rattle.std.specs.Prelude.{◌≡◌, option_map};
ghost use Rattle.apply_address.specs.KeyTexts.{last_view};
ghost use Rattle.apply_address.specs.Reading.{last_in, typed_in};

use crate::name::first_name;
use crate::named::Named;

/// The last part of an address: a type and a name with its key.
#[derive(Clone, Copy)]
pub struct LastPart<'a> {
    pub kind_name: &'a str,
    pub named: Named<'a>,
}

impl<'a> LastPart<'a> {
    /// The last part, if the whole text is one.
    #[tactic(auto, unfolding(crate::specs::Reading::last_in))]
    pub fn read(text: &'a str) -> Option<LastPart<'a>>
        ensures { option_map last_view result ≡ last_in text.now }
    {
        match LastPart::read_typed(text) {
            Some(last) => Some(last),
            None => LastPart::read_typed(text.strip_prefix("data.")?),
        }
    }

    /// A type, a dot and a name with its key, if they are the whole text.
    #[tactic(auto, unfolding(crate::specs::Reading::typed_in))]
    pub fn read_typed(text: &'a str) -> Option<LastPart<'a>>
        ensures { option_map last_view result ≡ typed_in text.now }
    {
        let (kind_name, remainder) = first_name(text)?;
        let (named, remainder) = Named::first(remainder.strip_prefix(".")?)?;
        if remainder.is_empty() {
            Some(LastPart { kind_name, named })
        } else {
            None
        }
    }
}
