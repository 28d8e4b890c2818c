//! Boolean members of a plan.

ghost use Rattle.std.specs.Prelude.{◌≡◌, option_map};
ghost use Rattle.serde_json.specs.View.{view};
ghost use Rattle.apply_plan_terraform.specs.Details.{is_flag};

use serde_json::Value;

/// Whether the value is the boolean `wanted`. False for `None` and for values of other kinds.
pub fn is_flag(value: Option<&Value>, wanted: bool) -> bool
    ensures { result ≡ is_flag wanted (option_map (λ value. view value.now) value.entry) }
{
    match value {
        Some(value) => match value.as_bool() {
            Some(flag) => flag == wanted,
            None => false,
        },
        None => false,
    }
}
