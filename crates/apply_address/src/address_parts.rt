//! The parts of an address.
//!
//! Every `Err` means that memory was refused.

ghost use Rattle.std.specs.Prelude.{◌≡◌, ◌<◌, length, option_map, IfOk, IfSome, Some};
ghost use Rattle.std.specs.Option.{option_copied};
ghost use Rattle.apply_model.specs.Plan.Address.{provider_of};
ghost use Rattle.apply_address.specs.Address.{Address, IsAddress, parts_of, written};
ghost use Rattle.apply_address.specs.KeyTexts.{last_view};
ghost use Rattle.apply_address.specs.Modes.{mode_of};
ghost use Rattle.apply_address.specs.Parts.{parts_view};
ghost use Rattle.apply_address.specs.Reading.{after_module, last_after_modules, parts_in};

use crate::last_part::LastPart;
use crate::named::Named;
use apply_model::{Key, Mode};
use std::alloc::{AllocError, Global};

/// The parts of the address of a resource.
#[derive(Debug, Drop)]
pub struct AddressParts<'a> {
    /// The address of the module: the text before the dot in front of the last part. It is empty
    /// for the root module.
    pub module_address: &'a str,
    /// The address within the module: the last part, with `data.`.
    pub resource: &'a str,
    /// The resource type.
    pub kind_name: &'a str,
    /// The resource's name.
    pub name: &'a str,
    /// The instance key. In a text its escapes are resolved.
    pub key: Key,
}

impl AddressParts<'_> {
    /// The provider that the type implies: the text before its first underscore, or the whole type.
    pub fn provider(&self) -> &str
        ensures { result.now ≡ provider_of self.now.kind_name.now }
    {
        match self.kind_name.split_once('_') {
            Some((provider, _)) => provider,
            None => self.kind_name,
        }
    }

    /// Whether the address is that of a managed resource or of a data source.
    pub fn mode(&self) -> Mode
        ensures { result ≡ mode_of self.now.resource.now }
    {
        match LastPart::read_typed(self.resource) {
            Some(_) => Mode::Managed,
            None => Mode::DataSource,
        }
    }
}

/// The text after a module and its dot. `None` where the text does not begin with a module.
#[tactic(auto, unfolding(crate::specs::Reading::after_module))]
fn after_module(text: &str) -> Option<&str>
    ensures value { option_copied result ≡ after_module text.now }
    ensures shorter { IfSome result (λ remainder. length remainder.now < length text.now) }
{
    let (_, remainder) = Named::first(text.strip_prefix("module.")?)?;
    remainder.strip_prefix(".")
}

/// The last part after all modules, and the text of that part. `None` where the text is no address.
fn last_after_modules(text: &str) -> Option<(LastPart<'_>, &str)>
    ensures { option_map (λ answer. (last_view answer.0, answer.1.now)) result ≡ last_after_modules (length text.now) text.now }
{
    let mut rest = text;
    loop {
        if let Some(last) = LastPart::read(rest) {
            return Some((last, rest));
        }
        rest = after_module(rest)?;
    }
}

/// The parts of the address, by the definition of [`parts_of`].
#[tactic(auto, unfolding(crate::specs::Reading::parts_in))]
fn read(alloc: Global, text: &str) -> Result<Option<AddressParts<'_>>, AllocError>
    ensures { IfOk result (λ answer. option_map parts_view answer ≡ parts_in text.now) }
{
    let Some((LastPart { kind_name, named }, resource)) = last_after_modules(text) else {
        return Ok(None);
    };
    let before = text.len() - resource.len();
    let module_address = &text[..before.saturating_sub(1)];
    match named.key.to_key(alloc) {
        Ok(key) => Ok(Some(AddressParts {
            module_address,
            resource,
            kind_name,
            name: named.name,
            key,
        })),
        Err(refused) => Err(refused),
    }
}

/// The parts of the address of a resource, in the syntax that Terraform writes:
///
/// - any number of modules, each `module.`, a name, a key where there is one, and a dot;
/// - the last part: `data.` of a data source, a type, a dot, a name, and a key where there is one.
///
/// A name or a type has at least one byte. None of its bytes is a blank (up to 20 hexadecimal), a
/// dot, a square bracket or a double quote. A key is a number or a text.
///
/// A number key is `[`, a whole number of 64 bits as JSON writes it and `]` (RFC 8259, section 6:
/// no leading zero, no `-0`).
///
/// A text key is `["`, a text and `"]`. In the text every quote is escaped, and each backslash
/// begins an escape. An escape is a backslash and one of these: a quote, a backslash, `n`, `r`,
/// `t`, `u` with four hexadecimal digits of a character, or `U` with eight. `$${` stands for `${`
/// and `%%{` for `%{`, read once from left to right. The result of an escape is part of neither.
///
/// `None` means that the text is no such address. `Err` means that memory was refused; only the
/// text of a key needs memory.
pub fn parts_of(alloc: Global, text: &str) -> Result<Option<AddressParts<'_>>, AllocError>
    ensures defined { IfOk result (λ answer. option_map parts_view answer ≡ parts_in text.now) }

    // The text is an address with these parts.
    ensures answer { IfOk result (λ answer. IfSome answer (λ parts. (address : Address) × IsAddress address
        × (text.now ≡ written address) × (parts_view parts ≡ parts_of address))) }

    // The parts of every address with this text are these.
    ensures only { IfOk result (λ answer. (address : Address) → IsAddress address → text.now ≡ written address
        → option_map parts_view answer ≡ Some (parts_of address)) }
{
    read(alloc, text)
}
