//! Texts for what a value has to be.

use input_validate::Expected;

/// Returns what a value has to be, as it is printed.
pub fn expected_text(expected: Expected) -> &'static str {
    match expected {
        Expected::Array => "an array",
        Expected::ArrayOrAbsent => "an array, or absent",
        Expected::Diagnostic => r#"an object, as {"summary":"boom"}"#,
        Expected::Entry => r#"an object, as {"address":"null_resource.a","steps":[{"seconds":1}]}"#,
        Expected::FlagOrAbsent => "true or false, or absent",
        Expected::FormatVersion => r#"a text that begins with "1.""#,
        Expected::Key => "a text, a whole number of 64 bits, or absent",
        Expected::Mode => r#""managed" or "data""#,
        Expected::NonEmptyText => "a text of one byte at least",
        Expected::Note => r#"an object, as {"severity":"error","summary":"boom"}"#,
        Expected::NoteSeverity => r#""error" or "warning""#,
        Expected::NotNull => "any value but null",
        Expected::Object => "an object",
        Expected::ObjectOrAbsent => "an object, or absent",
        Expected::OnFailure => r#""continue" or "fail", or absent"#,
        Expected::Output => r#"a text, or an object as {"after":1,"text":"hello"}"#,
        Expected::Plan => r#"an object, as "terraform show -json" prints it of a plan's file"#,
        Expected::Planned => r#"an object, as {"address":"null_resource.a","seconds":1}"#,
        Expected::PlanOutput => r#"an object, as {"type":"string","value":"a"}"#,
        Expected::Provisioner => r#"an object, as {"provisioner":"local-exec","seconds":1}"#,
        Expected::Seconds => "a whole number from 0 to 86400",
        Expected::SecondsOrAbsent => "a whole number from 0 to 86400, or absent",
        Expected::Severity => r#""error" or "warning", or absent"#,
        Expected::Step => r#"an object, as {"seconds":1}"#,
        Expected::Text => "a text",
        Expected::TextOrAbsent => "a text, or absent",
        Expected::Wait => r#"a text, or an object as {"address":"null_resource.a"}"#,
        Expected::WholeOrAbsent => "a whole number, or absent",
    }
}
