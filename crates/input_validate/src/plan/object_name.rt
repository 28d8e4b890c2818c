//! The name of an object: its address and its deposed key.

ghost use Rattle.std.specs.Prelude.{◌≡◌, option_map};
ghost use Rattle.serde_json.specs.View.{view};
ghost use Rattle.input_validate.specs.ObjectNames.{name_view};
ghost use Rattle.input_validate.specs.PlanFindings.{name_read};

use crate::findings::name::Name;
use apply_json::non_empty;
use apply_json_tree::members::{text_member, text_member_or};
use serde_json::Value;

/// An address, and the key of a deposed object. `None` is the object that is not deposed.
#[derive(Clone, Copy, PartialEq, Eq, PartialOrd, Ord)]
pub struct ObjectName<'a> {
    pub address: &'a str,
    pub deposed: Option<&'a str>,
}

impl<'a> ObjectName<'a> {
    /// Reads the name from the members `address` and `deposed`. `None` if one of them has a wrong
    /// kind.
    pub fn of(value: &'a Value) -> Option<ObjectName<'a>>
        ensures { option_map name_view result ≡ name_read (view value.now) }
    {
        let address = text_member(value, Name::Address.text())?;
        let deposed = text_member_or(value, Name::Deposed.text(), "")?;
        Some(ObjectName {
            address,
            deposed: non_empty(deposed),
        })
    }
}
