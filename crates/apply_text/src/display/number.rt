//! Whole numbers in a line.

ghost use Rattle.std.specs.Prelude.{◌≡◌, ◌++◌, decimal, string_bytes, OnOk};

use itoa::Buffer;
use std::alloc::AllocError;

/// Appends the decimal digits of `number`. `Err` when memory is refused.
#[inline(always)]
pub fn push_number(line: &mut String, number: u32) -> Result<(), AllocError>
    ensures { OnOk result (string_bytes line.new ≡ string_bytes line.old ++ decimal number) }
{
    let mut buffer = Buffer::new();
    line.push_str(buffer.format(number))
}
