//! Finds the addresses that are nearest to an unknown address.
//!
//! Every `Err` means that memory was refused.

ghost use Rattle.std.specs.Prelude.{◌≡◌, ◌<◌, ◌-◌, ◌==◌, IfOk, codes, if◌then◌else◌, map, nat_eq};
ghost use Rattle.std.specs.List.{starts_with};
ghost use Rattle.input_validate.specs.NearestAddresses.{after_modules, is_kept, is_of, nearest_addresses, part_after, resource_of, without_keys};
ghost use Rattle.input_validate.specs.NearestNames.{places_where};
ghost use Rattle.input_validate.specs.declared.addresses.AddressPart.TheVariants.{Outside};

use crate::nearest_names::nearest;
use std::alloc::{AllocError, Global};

/// Where a byte of an address is.
#[derive(Clone, Copy)]
enum AddressPart {
    /// Outside of keys.
    Outside,
    /// In a key, between brackets.
    Key,
    /// In the text of a key, between quotes.
    Quoted,
    /// After a backslash in such a text.
    Escaped,
    /// Behind the address.
    Behind,
}

/// Returns the numbers of the addresses that may be meant by an unknown one, in order.
///
/// These are the addresses of the same resource. They are equal to the unknown address but for
/// modules and keys, and but for a deposed key in parentheses. If there are none, they are the
/// nearest names that `nearest` finds within `reach`.
pub fn nearest_addresses(
    alloc: Global,
    stated: &str,
    addresses: &[&str],
    reach: usize,
) -> Result<Vec<usize>, AllocError>
    ensures { IfOk result (λ near. near.items ≡ nearest_addresses reach stated.now (map (λ address. address.now) addresses.now)) }
{
    let alike = alike(alloc, stated, addresses)?;
    if alike.is_empty() {
        nearest(alloc, stated, addresses, reach)
    } else {
        Ok(alike)
    }
}

/// Returns the numbers of the addresses of the same resource.
fn alike(alloc: Global, stated: &str, addresses: &[&str]) -> Result<Vec<usize>, AllocError>
    ensures { IfOk result (λ places. places.items ≡ places_where (is_of (resource_of stated.now)) 0 (map (λ address. address.now) addresses.now)) }
{
    let stated = without_keys(alloc, stated.as_bytes())?;
    places_of(alloc, after_modules(&stated), addresses)
}

/// Returns the numbers of the addresses of a resource.
fn places_of(alloc: Global, resource: &[u8], addresses: &[&str]) -> Result<Vec<usize>, AllocError>
    ensures { IfOk result (λ places. places.items ≡ places_where (is_of resource.now) 0 (map (λ address. address.now) addresses.now)) }
{
    let mut places = Vec::new(alloc);
    for (number, address) in addresses.iter().enumerate() {
        if is_of(alloc, resource, address)? {
            places.push(number)?;
        }
    }
    Ok(places)
}

/// Returns whether an address is of this resource.
fn is_of(alloc: Global, resource: &[u8], address: &str) -> Result<bool, AllocError>
    ensures { IfOk result (λ is. is ≡ is_of resource.now address.now) }
{
    let address = without_keys(alloc, address.as_bytes())?;
    Ok(after_modules(&address) == resource)
}

/// Returns the part of the byte after this one.
fn part_after(part: AddressPart, byte: u8) -> AddressPart
    ensures { result ≡ part_after part byte }
{
    match part {
        AddressPart::Outside if byte == b'[' => AddressPart::Key,
        AddressPart::Outside if byte == b' ' => AddressPart::Behind,
        AddressPart::Key if byte == b']' => AddressPart::Outside,
        AddressPart::Key if byte == b'"' => AddressPart::Quoted,
        AddressPart::Quoted if byte == b'"' => AddressPart::Key,
        AddressPart::Quoted if byte == b'\\' => AddressPart::Escaped,
        AddressPart::Escaped => AddressPart::Quoted,
        same => same,
    }
}

/// Returns whether a byte is outside of keys, and begins no key.
fn is_kept(part: AddressPart, byte: u8) -> bool
    ensures { result ≡ is_kept part byte }
{
    match part {
        AddressPart::Outside => byte != b'[' && byte != b' ',
        _ => false,
    }
}

/// Makes an address without its keys.
fn without_keys(alloc: Global, address: &[u8]) -> Result<Vec<u8>, AllocError>
    ensures { IfOk result (λ kept. kept.items ≡ without_keys Outside address.now) }
{
    let mut kept = Vec::new(alloc);
    let mut part = AddressPart::Outside;
    for byte in address {
        if is_kept(part, *byte) {
            kept.push(*byte)?;
        }
        part = part_after(part, *byte);
    }
    Ok(kept)
}

/// Returns what follows the modules of an address without keys.
fn after_modules(address: &[u8]) -> &[u8]
    ensures { result.now ≡ after_modules 0 address.now }
{
    let mut dots = 0u8;
    for (number, byte) in address.iter().enumerate() {
        if dots == 0 {
            if !begins_with_module(&address[number..]) {
                return &address[number..];
            }
            dots = 2;
        } else {
            dots = dots_after(dots, *byte);
        }
    }
    &[]
}

/// Returns whether a text begins with a module.
fn begins_with_module(text: &[u8]) -> bool
    ensures { result ≡ starts_with nat_eq text.now (codes "module.") }
{
    text.starts_with(b"module.")
}

/// Returns how many dots remain before the end of a module, after one more byte of it.
fn dots_after(dots: u8, byte: u8) -> u8
    requires { 0 < dots }
    ensures { result ≡ (if byte == 46 then dots - 1 else dots) }
{
    if byte == b'.' { dots - 1 } else { dots }
}
