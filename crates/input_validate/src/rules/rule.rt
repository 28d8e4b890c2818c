//! A rule for one member.

use crate::findings::expected::Expected;
use crate::findings::name::Name;

/// A member, and what it has to be.
#[derive(Clone, Copy, Debug)]
pub struct MemberRule {
    pub name: Name,
    pub expected: Expected,
}
