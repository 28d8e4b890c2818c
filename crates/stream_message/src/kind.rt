//! Kinds of messages, by their types.

ghost use Rattle.std.specs.Prelude.{◌≡◌};
ghost use Rattle.stream_message.specs.Kinds.{ephemeral_kind, general_kind, kind_named, refresh_kind};

use crate::stage::Stage;
use apply_json::is_text;

/// The kind of a message, by its type (Machine-Readable UI, "Message Types").
#[derive(Clone, Copy)]
pub enum Kind {
    Version,
    /// `apply_start`, `apply_progress`, `apply_complete` or `apply_errored`.
    Apply(Stage),
    /// `refresh_start` or `refresh_complete`.
    Refresh(Stage),
    /// `provision_start`, `provision_progress`, `provision_complete` or `provision_errored`.
    Provision(Stage),
    /// `ephemeral_op_start`, `ephemeral_op_progress`, `ephemeral_op_complete` or
    /// `ephemeral_op_errored`.
    Ephemeral(Stage),
    /// `planned_change`.
    Planned,
    /// `change_summary`.
    Summary,
    Diagnostic,
    Outputs,
    /// Any other type.
    Other,
}

impl Kind {
    /// Returns the kind of a type.
    pub fn named(name: &str) -> Kind
        ensures { result ≡ kind_named name.now }
    {
        if is_text(name, "version") {
            Kind::Version
        } else if is_text(name, "apply_start") {
            Kind::Apply(Stage::Start)
        } else if is_text(name, "apply_progress") {
            Kind::Apply(Stage::Progress)
        } else if is_text(name, "apply_complete") {
            Kind::Apply(Stage::Complete)
        } else if is_text(name, "apply_errored") {
            Kind::Apply(Stage::Errored)
        } else {
            Kind::of_refresh(name)
        }
    }

    /// Returns the kind of a type that is about no step with an action.
    fn of_refresh(name: &str) -> Kind
        ensures { result ≡ refresh_kind name.now }
    {
        if is_text(name, "refresh_start") {
            Kind::Refresh(Stage::Start)
        } else if is_text(name, "refresh_complete") {
            Kind::Refresh(Stage::Complete)
        } else if is_text(name, "provision_start") {
            Kind::Provision(Stage::Start)
        } else if is_text(name, "provision_progress") {
            Kind::Provision(Stage::Progress)
        } else if is_text(name, "provision_complete") {
            Kind::Provision(Stage::Complete)
        } else if is_text(name, "provision_errored") {
            Kind::Provision(Stage::Errored)
        } else {
            Kind::of_no_object(name)
        }
    }

    /// Returns the kind of a type that is about no step, refresh or provisioner.
    fn of_no_object(name: &str) -> Kind
        ensures { result ≡ general_kind name.now }
    {
        if is_text(name, "planned_change") {
            Kind::Planned
        } else if is_text(name, "change_summary") {
            Kind::Summary
        } else if is_text(name, "diagnostic") {
            Kind::Diagnostic
        } else if is_text(name, "outputs") {
            Kind::Outputs
        } else {
            Kind::of_ephemeral(name)
        }
    }

    /// Returns the kind of a type that is none of the others.
    fn of_ephemeral(name: &str) -> Kind
        ensures { result ≡ ephemeral_kind name.now }
    {
        if is_text(name, "ephemeral_op_start") {
            Kind::Ephemeral(Stage::Start)
        } else if is_text(name, "ephemeral_op_progress") {
            Kind::Ephemeral(Stage::Progress)
        } else if is_text(name, "ephemeral_op_complete") {
            Kind::Ephemeral(Stage::Complete)
        } else if is_text(name, "ephemeral_op_errored") {
            Kind::Ephemeral(Stage::Errored)
        } else {
            Kind::Other
        }
    }
}
