//! Why a change was planned.

ghost use Rattle.std.specs.Prelude.{◌≡◌};
ghost use Rattle.apply_model.specs.Details.{reason_word};

/// Why a change was planned (Machine-Readable UI, "Planned Change", `reason`).
#[derive(Clone, Copy, Debug, PartialEq, Eq)]
pub enum Reason {
    /// The object can't be changed in place.
    CannotUpdate,
    /// The object is tainted.
    Tainted,
    /// The user asked for a replacement.
    Requested,
    /// Something that triggers its replacement changes.
    ReplaceTriggeredBy,
    /// The configuration has no such resource.
    DeleteBecauseNoResourceConfig,
    /// The configuration uses another of `count`, `for_each` and neither.
    DeleteBecauseWrongRepetition,
    /// The number of the instance is beyond `count`.
    DeleteBecauseCountIndex,
    /// The key of the instance is not in `for_each`.
    DeleteBecauseEachKey,
    /// The configuration has no such module.
    DeleteBecauseNoModule,
    /// The target of a move does not exist.
    DeleteBecauseNoMoveTarget,
    /// The configuration of the data source is known only during the apply.
    ReadBecauseConfigUnknown,
    /// A dependency of the data source is still to be applied.
    ReadBecauseDependencyPending,
    /// The data source belongs to a check.
    ReadBecauseCheckNested,
    /// Any other reason.
    Unknown,
}

impl Reason {
    /// The word of a stream for the reason.
    pub fn word(self) -> &'static str
        ensures { result.now ≡ reason_word self }
    {
        match self {
            Reason::CannotUpdate => "cannot_update",
            Reason::Tainted => "tainted",
            Reason::Requested => "requested",
            Reason::ReplaceTriggeredBy => "replace_triggered_by",
            Reason::DeleteBecauseNoResourceConfig => "delete_because_no_resource_config",
            Reason::DeleteBecauseWrongRepetition => "delete_because_wrong_repetition",
            Reason::DeleteBecauseCountIndex => "delete_because_count_index",
            Reason::DeleteBecauseEachKey => "delete_because_each_key",
            Reason::DeleteBecauseNoModule => "delete_because_no_module",
            Reason::DeleteBecauseNoMoveTarget => "delete_because_no_move_target",
            Reason::ReadBecauseConfigUnknown => "read_because_config_unknown",
            Reason::ReadBecauseDependencyPending => "read_because_dependency_pending",
            Reason::ReadBecauseCheckNested => "read_because_check_nested",
            Reason::Unknown => "unknown",
        }
    }
}
