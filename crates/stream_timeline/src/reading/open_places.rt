//! An index of the open steps by address.

ghost use Rattle.std.specs.Prelude.{◌≡◌, ◌<◌, ◌≤◌, ◌+◌, ◌*◌, ◌++◌, ◌∷◌, [], ℕ, List, None, OnOk, false, length, true, if◌then◌else◌};
ghost use Rattle.std.specs.BTreeMap.{get_by_text};
ghost use Rattle.std.specs.Str.{bytes_eq};
ghost use Rattle.stream_timeline.specs.OpenPlaces.{AreFilled, places_at, places_bytes, text_bytes, without};

use std::alloc::{AllocError, Global};
use std::collections::BTreeMap;

/// For each address with open steps, the indexes of these steps, in order.
#[derive(Drop)]
pub struct OpenPlaces {
    pub by_address: BTreeMap<String, Vec<usize>>,
}

// The memory bound of the crate counts 24 bytes for a text and for a list of indexes.
const _: () = prove!(size_of::<String>() == 24);

const _: () = prove!(size_of::<Vec<usize>>() == 24);

impl OpenPlaces {
    /// An index without open steps.
    pub fn new(alloc: Global) -> OpenPlaces
        ensures places { (address : List ℕ) → places_at result address ≡ [] }
        ensures filled { AreFilled result }
        ensures bytes { places_bytes result ≡ 0 }
    {
        OpenPlaces {
            by_address: BTreeMap::new(alloc),
        }
    }

    /// The indexes of the steps that are open at the address.
    pub fn at(&self, address: &str) -> &[usize]
        ensures { result.now ≡ places_at self.now address.now }
    {
        match self.by_address.get(address) {
            Some(places) => places.as_slice(),
            None => &[],
        }
    }

    /// Adds the index `place` after the others of its address. `Err` means that memory was refused.
    pub fn add(&mut self, alloc: Global, address: &str, place: usize) -> Result<(), AllocError>
        ensures places { OnOk result ((other : List ℕ) → places_at self.new other
            ≡ (if bytes_eq address.now other then places_at self.old other ++ place ∷ []
            else places_at self.old other)) }
        ensures filled { OnOk result (AreFilled self.old → AreFilled self.new) }
        ensures bytes { OnOk result (places_bytes self.new ≤ places_bytes self.old + (text_bytes address.now + 32)) }
    {
        let mut places = self.removed(alloc, address);
        places.push(place)?;
        let key = String::from_str(alloc, address)?;
        self.by_address.insert(key, places)?;
        Ok(())
    }

    /// Removes and returns the indexes of an address.
    fn removed(&mut self, alloc: Global, address: &str) -> Vec<usize>
        ensures places { result.items ≡ places_at self.old address.now }
        ensures others { (other : List ℕ) → get_by_text self.new.by_address other
            ≡ (if bytes_eq address.now other then None else get_by_text self.old.by_address other) }
        ensures bytes { places_bytes self.new + 8 * length result.items ≤ places_bytes self.old }
    {
        match self.by_address.remove(address) {
            Some(places) => places,
            None => Vec::new(alloc),
        }
    }

    /// Removes the index `place` of an address, and the address if no index is left.
    pub fn take(&mut self, address: &str, place: usize)
        ensures places { (other : List ℕ) → places_at self.new other
            ≡ (if bytes_eq address.now other then without place (places_at self.old other)
            else places_at self.old other) }
        ensures filled { AreFilled self.old → AreFilled self.new }
        ensures bytes { places_bytes self.new ≤ places_bytes self.old }
    {
        if self.cut(address, place) {
            let _ = self.by_address.remove(address);
        }
    }

    /// Removes the index `place` of an address. Returns whether that leaves the address without
    /// one.
    fn cut(&mut self, address: &str, place: usize) -> bool
        ensures places { (other : List ℕ) → places_at self.new other
            ≡ (if bytes_eq address.now other then without place (places_at self.old other)
            else places_at self.old other) }
        ensures none { result ≡ true → places_at self.new address.now ≡ [] }
        ensures filled { result ≡ false → AreFilled self.old → AreFilled self.new }
        ensures others { (other : List ℕ) → bytes_eq address.now other ≡ false
            → get_by_text self.new.by_address other ≡ get_by_text self.old.by_address other }
        ensures bytes { places_bytes self.new ≤ places_bytes self.old }
    {
        match self.by_address.get_mut(address) {
            Some(places) => drop_place(places, place),
            None => false,
        }
    }
}

/// Removes `place` from the list. Returns whether the list is empty now.
fn drop_place(places: &mut Vec<usize>, place: usize) -> bool
    ensures places { places.new.items ≡ without place places.old.items }
    ensures none { result ≡ true → places.new.items ≡ [] }
    ensures some { result ≡ false → 0 < length places.new.items }
    ensures fewer { length places.new.items ≤ length places.old.items }
{
    places.retain(|other| *other != place);
    places.is_empty()
}
