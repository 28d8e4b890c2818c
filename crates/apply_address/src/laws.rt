//! Laws of addresses. Each function does nothing; its contract is the law.

ghost use Rattle.std.specs.Prelude.{◌≡◌};
ghost use Rattle.apply_address.specs.Address.{Address, IsAddress, parts_of, written};

/// An address has one reading. However its modules, type, name and key are chosen, the same text
/// gives the same parts.
pub fn an_address_has_one_reading()
    ensures { (one other : Address) → IsAddress one → IsAddress other → written one ≡ written other
        → parts_of one ≡ parts_of other }
{}
