//! What one line of a graph is.

use apply_model::Text;

/// What one line of a graph is. Names have no `[root] ` at the front.
#[derive(Drop)]
pub enum GraphLine {
    /// A line that does not begin like a node. It is ignored.
    Other,
    /// The node of that name.
    Node(Text),
    /// The first node waits for the second.
    Edge(Text, Text),
    /// The line begins like a node, but is neither a node nor an edge.
    Neither,
    /// A name does not begin with `[root] `.
    NotOfPlan,
}
