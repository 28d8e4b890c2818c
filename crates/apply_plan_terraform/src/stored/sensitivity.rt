//! The member `sensitive` of an output.

ghost use Rattle.std.specs.Prelude.{◌≡◌, string_bytes, IfSome, Some};
ghost use Rattle.std.specs.Option.{option_copied};
ghost use Rattle.apply_plan_terraform.specs.StoredOutputs.{flag_text, sensitive_text};

/// The member `sensitive` of an output. The two usual values take no memory.
#[derive(Debug, Drop)]
pub enum Sensitivity {
    /// The member is absent.
    Absent,
    /// `true`.
    Yes,
    /// `false`.
    No,
    /// Any other value, as JSON text.
    Other(String),
}

impl Sensitivity {
    /// Takes the JSON text of the member.
    pub fn of(text: String) -> Sensitivity
        ensures { sensitive_text result ≡ Some (string_bytes text) }
    {
        if text.as_str() == "true" {
            Sensitivity::Yes
        } else if text.as_str() == "false" {
            Sensitivity::No
        } else {
            Sensitivity::Other(text)
        }
    }

    /// The boolean. `None` when the member is absent or has another value.
    pub fn flag(&self) -> Option<bool>
        ensures { IfSome result (λ flag. sensitive_text self.now ≡ Some (flag_text flag)) }
    {
        match self {
            Sensitivity::Yes => Some(true),
            Sensitivity::No => Some(false),
            Sensitivity::Absent | Sensitivity::Other(_) => None,
        }
    }

    /// The JSON text. `None` when the member is absent.
    pub fn text(&self) -> Option<&str>
        ensures { option_copied result ≡ sensitive_text self.now }
    {
        match self {
            Sensitivity::Absent => None,
            Sensitivity::Yes => Some("true"),
            Sensitivity::No => Some("false"),
            Sensitivity::Other(text) => Some(text.as_str()),
        }
    }
}
