//! Which members of a plan are read of the time before its apply. The parser skips all others.

ghost use Rattle.std.specs.Prelude.{◌≡◌, if◌then◌else◌, None, Some};
ghost use Rattle.std.specs.Str.{bytes_eq};
ghost use Rattle.apply_prior.specs.Selection.{id_shape, member_shape, names_shape, prior_selection};

use apply_json::is_text;
use apply_json_tree::Shape;

/// Which members and items of a value are read. Each shape is named after its value in the plan.
#[derive(Clone, Copy)]
pub enum PriorShape {
    /// Neither members nor items.
    Scalar,
    /// The top level of a plan.
    Plan,
    /// `prior_state` of a plan.
    State,
    /// `values` of the prior state.
    Values,
    /// `root_module`, or an item of `child_modules`.
    Module,
    /// `child_modules` of a module.
    Modules,
    /// `resources` of a module.
    Resources,
    /// An element of `resources`.
    Resource,
    /// `depends_on` of an element.
    Names,
    /// `resource_drift` of a plan.
    Drifts,
    /// An element of `resource_drift`.
    Drift,
    /// `change` of an element.
    Change,
    /// `actions` of a change. Three items are read, since no valid list has more than two.
    Actions,
    /// A value of which only the id is read.
    WithId,
    /// `output_changes` of a plan.
    Outputs,
    /// A member of `output_changes`.
    Output,
}

impl Shape for PriorShape {
    ghost selection = { prior_selection };

    fn member(self, name: &str) -> Option<PriorShape> {
        match self {
            PriorShape::Plan => member_of_plan(name),
            PriorShape::State => only(name, "values", PriorShape::Values),
            PriorShape::Values => only(name, "root_module", PriorShape::Module),
            PriorShape::Module => member_of_module(name),
            PriorShape::Resource => member_of_resource(name),
            PriorShape::Drift => member_of_drift(name),
            PriorShape::Change => member_of_change(name),
            PriorShape::WithId => only(name, "id", PriorShape::Scalar),
            PriorShape::Outputs => Some(PriorShape::Output),
            PriorShape::Output => member_of_output(name),
            PriorShape::Scalar
            | PriorShape::Modules
            | PriorShape::Resources
            | PriorShape::Names
            | PriorShape::Drifts
            | PriorShape::Actions => None,
        }
    }

    fn item(self) -> PriorShape {
        match self {
            PriorShape::Resources => PriorShape::Resource,
            PriorShape::Modules => PriorShape::Module,
            PriorShape::Drifts => PriorShape::Drift,
            _ => PriorShape::Scalar,
        }
    }

    fn limit(self) -> Option<usize> {
        match self {
            PriorShape::Resources | PriorShape::Modules | PriorShape::Drifts | PriorShape::Names =>
                None,
            PriorShape::Actions => Some(3),
            _ => Some(0),
        }
    }
}

/// The shape, if the member has that name.
fn only(name: &str, wanted: &str, shape: PriorShape) -> Option<PriorShape>
    ensures { result ≡ (if bytes_eq name.now wanted.now then Some shape else None) }
{
    if is_text(name, wanted) {
        Some(shape)
    } else {
        None
    }
}

fn member_of_plan(name: &str) -> Option<PriorShape>
    ensures { result ≡ member_shape PriorShape.Plan name.now }
{
    if is_text(name, "prior_state") {
        Some(PriorShape::State)
    } else if is_text(name, "resource_drift") {
        Some(PriorShape::Drifts)
    } else if is_text(name, "output_changes") {
        Some(PriorShape::Outputs)
    } else {
        None
    }
}

fn member_of_module(name: &str) -> Option<PriorShape>
    ensures { result ≡ member_shape PriorShape.Module name.now }
{
    if is_text(name, "resources") {
        Some(PriorShape::Resources)
    } else if is_text(name, "child_modules") {
        Some(PriorShape::Modules)
    } else if is_text(name, "address") {
        Some(PriorShape::Scalar)
    } else {
        None
    }
}

/// A member that names an object.
fn member_that_names(name: &str) -> Option<PriorShape>
    ensures { result ≡ names_shape name.now }
{
    if is_text(name, "address") || is_text(name, "mode") {
        Some(PriorShape::Scalar)
    } else if is_text(name, "type") || is_text(name, "name") {
        Some(PriorShape::Scalar)
    } else if is_text(name, "index") {
        Some(PriorShape::Scalar)
    } else {
        None
    }
}

fn member_of_resource(name: &str) -> Option<PriorShape>
    ensures { result ≡ member_shape PriorShape.Resource name.now }
{
    if is_text(name, "values") || is_text(name, "sensitive_values") {
        Some(PriorShape::WithId)
    } else if is_text(name, "depends_on") {
        Some(PriorShape::Names)
    } else if is_text(name, "deposed_key") {
        Some(PriorShape::Scalar)
    } else {
        member_that_names(name)
    }
}

fn member_of_drift(name: &str) -> Option<PriorShape>
    ensures { result ≡ member_shape PriorShape.Drift name.now }
{
    if is_text(name, "change") {
        Some(PriorShape::Change)
    } else if is_text(name, "module_address") || is_text(name, "deposed") {
        Some(PriorShape::Scalar)
    } else if is_text(name, "action_reason") || is_text(name, "previous_address") {
        Some(PriorShape::Scalar)
    } else {
        member_that_names(name)
    }
}

/// A member of a change that has an id.
fn member_with_id(name: &str) -> Option<PriorShape>
    ensures { result ≡ id_shape name.now }
{
    if is_text(name, "before") || is_text(name, "before_sensitive") {
        Some(PriorShape::WithId)
    } else if is_text(name, "after") || is_text(name, "after_sensitive") {
        Some(PriorShape::WithId)
    } else if is_text(name, "importing") {
        Some(PriorShape::WithId)
    } else {
        None
    }
}

fn member_of_change(name: &str) -> Option<PriorShape>
    ensures { result ≡ member_shape PriorShape.Change name.now }
{
    if is_text(name, "actions") {
        Some(PriorShape::Actions)
    } else if is_text(name, "generated_config") {
        Some(PriorShape::Scalar)
    } else {
        member_with_id(name)
    }
}

fn member_of_output(name: &str) -> Option<PriorShape>
    ensures { result ≡ member_shape PriorShape.Output name.now }
{
    if is_text(name, "actions") {
        Some(PriorShape::Actions)
    } else if is_text(name, "after_sensitive") {
        Some(PriorShape::Scalar)
    } else {
        None
    }
}
