//! Which members of a plan are read for Terraform's form. The parser skips all others.

ghost use Rattle.std.specs.Prelude.{◌≡◌};
ghost use Rattle.apply_plan_terraform.specs.Selection.{details_selection, member_shape};

use apply_json::is_text;
use apply_json_tree::Shape;

/// Which members and items of a value are read. Each shape is named after its value in the plan.
#[derive(Clone, Copy)]
pub enum DetailsShape {
    /// Neither members nor items.
    Scalar,
    /// The top level of a plan.
    Plan,
    /// `resource_changes` of a plan.
    Changes,
    /// An element of `resource_changes`.
    Element,
    /// `change` of an element.
    Change,
    /// `actions` of a change. Two items are read, since the list of a forgotten object has one.
    Actions,
    /// `importing` of a change.
    Importing,
    /// `after` or `after_sensitive` of a change.
    After,
}

impl Shape for DetailsShape {
    ghost selection = { details_selection };

    fn member(self, name: &str) -> Option<DetailsShape> {
        match self {
            DetailsShape::Plan => member_of_plan(name),
            DetailsShape::Element => member_of_element(name),
            DetailsShape::Change => member_of_change(name),
            DetailsShape::Importing | DetailsShape::After => if is_text(name, "id") {
                Some(DetailsShape::Scalar)
            } else {
                None
            },
            DetailsShape::Scalar | DetailsShape::Changes | DetailsShape::Actions => None,
        }
    }

    fn item(self) -> DetailsShape {
        match self {
            DetailsShape::Changes => DetailsShape::Element,
            _ => DetailsShape::Scalar,
        }
    }

    fn limit(self) -> Option<usize> {
        match self {
            DetailsShape::Changes => None,
            DetailsShape::Actions => Some(2),
            _ => Some(0),
        }
    }
}

fn member_of_plan(name: &str) -> Option<DetailsShape>
    ensures { result ≡ member_shape DetailsShape.Plan name.now }
{
    if is_text(name, "resource_changes") {
        Some(DetailsShape::Changes)
    } else if is_text(name, "errored") || is_text(name, "complete") {
        Some(DetailsShape::Scalar)
    } else {
        None
    }
}

fn member_of_element(name: &str) -> Option<DetailsShape>
    ensures { result ≡ member_shape DetailsShape.Element name.now }
{
    if is_text(name, "change") {
        Some(DetailsShape::Change)
    } else if is_text(name, "action_reason") || is_text(name, "previous_address") {
        Some(DetailsShape::Scalar)
    } else {
        None
    }
}

fn member_of_change(name: &str) -> Option<DetailsShape>
    ensures { result ≡ member_shape DetailsShape.Change name.now }
{
    if is_text(name, "actions") {
        Some(DetailsShape::Actions)
    } else if is_text(name, "importing") {
        Some(DetailsShape::Importing)
    } else if is_text(name, "generated_config") {
        Some(DetailsShape::Scalar)
    } else if is_text(name, "after") || is_text(name, "after_sensitive") {
        Some(DetailsShape::After)
    } else {
        None
    }
}
