//! The words of a plan for the reasons of changes.

ghost use Rattle.std.specs.Prelude.{◌≡◌};
ghost use Rattle.apply_plan_terraform.specs.Details as details;

use apply_json::is_text;
use apply_model::Reason;

/// The reason that `word` stands for. `Unknown` for any other word.
pub fn reason_named(word: &str) -> Reason
    ensures { result ≡ details.reason_named word.now }
{
    if is_text(word, "replace_because_cannot_update") {
        Reason::CannotUpdate
    } else if is_text(word, "replace_because_tainted") {
        Reason::Tainted
    } else if is_text(word, "replace_by_request") {
        Reason::Requested
    } else if is_text(word, "replace_by_triggers") {
        Reason::ReplaceTriggeredBy
    } else {
        delete_reason(word)
    }
}

/// Like `reason_named`, for words that are no reason to replace.
fn delete_reason(word: &str) -> Reason
    ensures { result ≡ details.delete_reason word.now }
{
    if is_text(word, "delete_because_no_resource_config") {
        Reason::DeleteBecauseNoResourceConfig
    } else if is_text(word, "delete_because_wrong_repetition") {
        Reason::DeleteBecauseWrongRepetition
    } else if is_text(word, "delete_because_count_index") {
        Reason::DeleteBecauseCountIndex
    } else if is_text(word, "delete_because_each_key") {
        Reason::DeleteBecauseEachKey
    } else if is_text(word, "delete_because_no_module") {
        Reason::DeleteBecauseNoModule
    } else if is_text(word, "delete_because_no_move_target") {
        Reason::DeleteBecauseNoMoveTarget
    } else {
        read_reason(word)
    }
}

/// Like `reason_named`, for words that are no reason to replace or delete.
fn read_reason(word: &str) -> Reason
    ensures { result ≡ details.read_reason word.now }
{
    if is_text(word, "read_because_config_unknown") {
        Reason::ReadBecauseConfigUnknown
    } else if is_text(word, "read_because_dependency_pending") {
        Reason::ReadBecauseDependencyPending
    } else if is_text(word, "read_because_check_nested") {
        Reason::ReadBecauseCheckNested
    } else {
        Reason::Unknown
    }
}
