//! Addresses of resources, and the parts that are read from them.

ghost use Rattle.std.specs.Prelude.{◌≡◌};
ghost use Rattle.std.specs.Option.{option_copied};
ghost use Rattle.apply_model.specs.Plan.Address.{after_prefix, provider_of, relative_address};

/// The text after the prefix. `None` where the text does not begin with the prefix.
fn strip<'a>(text: &'a str, prefix: &str) -> Option<&'a str>
    ensures { option_copied result ≡ after_prefix prefix.now text.now }
{
    text.strip_prefix(prefix)
}

/// The address within its module, as a part of the address. `None` where the address is empty, or
/// does not begin with the module's address, a dot and more text.
pub fn relative_address<'a>(module_address: &str, address: &'a str) -> Option<&'a str>
    ensures { option_copied result ≡ relative_address module_address.now address.now }
{
    let relative = if module_address.is_empty() {
        address
    } else {
        strip(strip(address, module_address)?, ".")?
    };
    if relative.is_empty() {
        None
    } else {
        Some(relative)
    }
}

/// The provider that a resource type implies: the text before the first underscore, or the whole
/// type.
pub fn provider(kind_name: &str) -> &str
    ensures { result.now ≡ provider_of kind_name.now }
{
    match kind_name.split_once('_') {
        Some((provider, _)) => provider,
        None => kind_name,
    }
}
