//! The members of an output that are stored.

ghost use Rattle.std.specs.Prelude.{◌≡◌, IfSome, option_map};
ghost use Rattle.apply_plan_terraform.specs.StoredOutputs.{name_of};
ghost use Rattle.apply_plan_terraform.specs.Texts.{part_named};
ghost use Rattle.apply_plan_terraform.specs.declared.texts.part.Part.TheVariants.{Output, Text};

use apply_json::is_text;

/// A member of an output that is stored.
#[derive(Clone, Copy, Debug, PartialEq, Eq)]
pub enum OutputMember {
    /// `sensitive`.
    Sensitive,
    /// `type`.
    Type,
    /// `value`.
    Value,
}

impl OutputMember {
    /// The member with that name. `None` when it is ignored.
    pub fn named(name: &str) -> Option<OutputMember>
        ensures part { option_map (λ _. Text) result ≡ part_named Output name.now }
        ensures name { IfSome result (λ member. name_of member ≡ name.now) }
    {
        if is_text(name, "sensitive") {
            Some(OutputMember::Sensitive)
        } else if is_text(name, "type") {
            Some(OutputMember::Type)
        } else if is_text(name, "value") {
            Some(OutputMember::Value)
        } else {
            None
        }
    }
}
