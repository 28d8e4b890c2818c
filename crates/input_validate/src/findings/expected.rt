//! What a value has to be.

ghost use Rattle.std.specs.Prelude.{◌≡◌, is_some, option_map, Some};
ghost use Rattle.serde_json.specs.View.{view};
ghost use Rattle.apply_plan.specs.Plan.Element.{key_of};
ghost use Rattle.input_validate.specs.Expectations.{is_format_version, is_met, is_mode, is_on_failure, is_severity, is_text_with_a_byte, is_within_a_day, may_be_absent, suits};

use apply_json_tree::members::is_text;
use apply_plan::MAX_SECONDS;
use serde_json::Value;

/// What a value has to be, as far as its top level shows. "Or nothing" means that the member may be
/// absent or `null`.
#[derive(Clone, Copy, Debug)]
pub enum Expected {
    /// An array.
    Array,
    /// An array, or nothing.
    ArrayOrAbsent,
    /// An object with a `summary`.
    Diagnostic,
    /// An object with an `address` and `steps`.
    Entry,
    /// `true` or `false`, or nothing.
    FlagOrAbsent,
    /// A text that begins with `1.`.
    FormatVersion,
    /// The key of an instance: a text, a signed whole number of 64 bits, or nothing.
    Key,
    /// One of the two modes of a resource.
    Mode,
    /// A text of one byte at least.
    NonEmptyText,
    /// An object with a `severity` and a `summary`: a diagnostic that belongs to no step.
    Note,
    /// The severity of a diagnostic that belongs to no step: `error` or `warning`.
    NoteSeverity,
    /// Any value but `null`.
    NotNull,
    /// An object.
    Object,
    /// An object, or nothing.
    ObjectOrAbsent,
    /// What a run does after a provisioner failed: `continue`, `fail`, or nothing.
    OnFailure,
    /// A text, or an object with a `text`.
    Output,
    /// A plan.
    Plan,
    /// An object with an `address`: what a script says of an object that is refreshed or read.
    Planned,
    /// An object with a `type`: an output.
    PlanOutput,
    /// An object with a `provisioner` and `seconds`.
    Provisioner,
    /// A whole number of 64 bits. Another rule limits the seconds of a step to a day.
    Seconds,
    /// A whole number from 0 to 86,400, or nothing.
    SecondsOrAbsent,
    /// The severity of a failure: `error`, `warning`, or nothing.
    Severity,
    /// An object with `seconds`.
    Step,
    /// A text.
    Text,
    /// A text, or nothing.
    TextOrAbsent,
    /// A text, or an object with an `address`.
    Wait,
    /// A whole number of 64 bits, or nothing.
    WholeOrAbsent,
}

impl Expected {
    /// Returns whether a member is as expected. `None` stands for a member that is absent or
    /// `null`.
    pub fn is_met(self, stated: Option<&Value>) -> bool
        ensures { result ≡ is_met self (option_map (λ value. view value.now) stated.entry) }
    {
        match stated {
            Some(value) => self.suits(value),
            None => self.may_be_absent(),
        }
    }

    /// Returns whether the member may be absent or `null`.
    pub fn may_be_absent(self) -> bool
        ensures { result ≡ may_be_absent self }
    {
        matches!(
            self,
            Expected::ArrayOrAbsent
                | Expected::FlagOrAbsent
                | Expected::Key
                | Expected::ObjectOrAbsent
                | Expected::OnFailure
                | Expected::SecondsOrAbsent
                | Expected::Severity
                | Expected::TextOrAbsent
                | Expected::WholeOrAbsent
        )
    }

    /// Returns whether a value that is there is as expected.
    pub fn suits(self, value: &Value) -> bool
        ensures { result ≡ suits self (view value.now) }
    {
        match self {
            Expected::Array | Expected::ArrayOrAbsent => value.as_array().is_some(),
            Expected::Diagnostic
            | Expected::Entry
            | Expected::Note
            | Expected::Object
            | Expected::ObjectOrAbsent
            | Expected::Plan
            | Expected::Planned
            | Expected::PlanOutput
            | Expected::Provisioner
            | Expected::Step => value.is_object(),
            Expected::FlagOrAbsent => value.as_bool().is_some(),
            Expected::FormatVersion => is_format_version(value),
            Expected::Key => is_key(value),
            Expected::Mode => is_mode(value),
            Expected::NonEmptyText => is_text_with_a_byte(value),
            Expected::NotNull => true,
            Expected::OnFailure => is_on_failure(value),
            Expected::Seconds | Expected::WholeOrAbsent => value.as_u64().is_some(),
            Expected::SecondsOrAbsent => is_within_a_day(value),
            Expected::NoteSeverity | Expected::Severity => is_severity(value),
            Expected::Text | Expected::TextOrAbsent => value.as_str().is_some(),
            Expected::Output | Expected::Wait => value.as_str().is_some() || value.is_object(),
        }
    }
}

fn is_format_version(value: &Value) -> bool
    ensures { result ≡ is_format_version (view value.now) }
{
    match value.as_str() {
        Some(text) => text.starts_with("1."),
        None => false,
    }
}

fn is_key(value: &Value) -> bool
    ensures { result ≡ is_some (key_of (Some (view value.now))) }
{
    match value {
        Value::Number(number) => number.as_i64().is_some(),
        Value::String(_) => true,
        _ => false,
    }
}

fn is_mode(value: &Value) -> bool
    ensures { result ≡ is_mode (view value.now) }
{
    is_text(value, "managed") || is_text(value, "data")
}

fn is_on_failure(value: &Value) -> bool
    ensures { result ≡ is_on_failure (view value.now) }
{
    is_text(value, "continue") || is_text(value, "fail")
}

fn is_severity(value: &Value) -> bool
    ensures { result ≡ is_severity (view value.now) }
{
    is_text(value, "warning") || is_text(value, "error")
}

fn is_within_a_day(value: &Value) -> bool
    ensures { result ≡ is_within_a_day (view value.now) }
{
    match value.as_u64() {
        Some(seconds) => seconds <= u64::from(MAX_SECONDS),
        None => false,
    }
}

fn is_text_with_a_byte(value: &Value) -> bool
    ensures { result ≡ is_text_with_a_byte (view value.now) }
{
    match value.as_str() {
        Some(text) => !text.is_empty(),
        None => false,
    }
}
