//! Why bytes were refused as JSON.

ghost use Rattle.std.specs.Prelude.{◌≡◌};
ghost use Rattle.apply_json.specs.Parsed.{json_fault_of};

use crate::read_fault::ReadFault;

/// Why bytes were refused as JSON.
#[derive(Clone, Copy)]
pub enum JsonFault {
    /// The input has more bytes than the caller allows.
    TooLarge,
    /// The bytes are not UTF-8 or not JSON (RFC 8259), or values nest more than 127 deep.
    ///
    /// A number beyond the range of a 64-bit float counts as no JSON.
    NotJson,
    /// Memory was refused.
    Memory,
}

impl JsonFault {
    /// Converts the fault of a text that was not too large.
    pub fn of(fault: ReadFault) -> JsonFault
        ensures { result ≡ json_fault_of fault }
    {
        match fault {
            ReadFault::NotJson => JsonFault::NotJson,
            ReadFault::Memory => JsonFault::Memory,
        }
    }
}
