//! Reads members into slots, by name.

/// Reads the value of the member `$name` into its slot. A member without a slot is skipped.
macro_rules! take_member {
    ($name:ident, $reader:ident, $depth:ident,) => {
        apply_json::skip_member($reader, $depth)
    };
    ($name:ident, $reader:ident, $depth:ident, $member:literal => $read:expr, $($others:tt)*) => {
        if apply_json::is_text($name, $member) {
            $read
        } else {
            take_member!($name, $reader, $depth, $($others)*)
        }
    };
}

pub(crate) use take_member;
