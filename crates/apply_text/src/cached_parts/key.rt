//! Copying and comparing instance keys.

ghost use Rattle.std.specs.Prelude.{◌≡◌, IfOk, IsTrue};

use apply_model::{Key, Text};
use std::alloc::{AllocError, Global};

/// Copies the key. `Err` when memory is refused.
pub fn copy_of(alloc: Global, key: &Key) -> Result<Key, AllocError>
    ensures { IfOk result (λ copy. copy ≡ key.now) }
{
    match key {
        Key::None => Ok(Key::None),
        Key::Number(number) => Ok(Key::Number(*number)),
        Key::Name(name) => Ok(Key::Name(Text::new(alloc, name.as_str())?)),
    }
}

/// Whether both keys are equal.
pub fn is_same(one: &Key, other: &Key) -> bool
    ensures { IsTrue result → one.now ≡ other.now }
{
    match (one, other) {
        (Key::None, Key::None) => true,
        (Key::Number(one), Key::Number(other)) => *one == *other,
        (Key::Name(one), Key::Name(other)) => one.as_str() == other.as_str(),
        _ => false,
    }
}
