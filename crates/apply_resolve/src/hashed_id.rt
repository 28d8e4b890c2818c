//! Objects in an order that is fast to compare.

ghost use Rattle.std.specs.Prelude.{◌≡◌};
ghost use Rattle.apply_resolve.specs.HashedId.{hash_of, hashed};

use crate::object_id::ObjectId;
use std::hash::{FoldHasher, Hasher};

/// An object, ordered by a hash of its address before the address itself. Addresses of one plan
/// often begin alike, so comparing two of them is slow. Objects with equal hashes are ordered too,
/// so a look-up takes few comparisons whatever the addresses are.
#[derive(Clone, Copy, PartialEq, Eq, PartialOrd, Ord)]
pub struct HashedId<'a> {
    hash: u64,
    id: ObjectId<'a>,
}

impl<'a> HashedId<'a> {
    /// The object with its hash.
    pub fn of(id: ObjectId<'a>) -> HashedId<'a>
        ensures { result ≡ hashed id.entry }
    {
        HashedId {
            hash: hash_of(id.address),
            id,
        }
    }
}

/// The hash of an address.
fn hash_of(address: &str) -> u64
    ensures { result ≡ hash_of address.now }
{
    let mut hasher = FoldHasher::default();
    hasher.write(address.as_bytes());
    hasher.finish()
}
