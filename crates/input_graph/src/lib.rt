//! Reads the graph of a plan, as `terraform graph` prints it.
#![tactic(auto)]

mod change_edges;
mod circle;
mod current_delete;
mod graph;
mod graph_fault;
mod graph_line;
mod known_edges;
mod known_nodes;
mod limits;
mod line;
mod naming;
mod numbered_graph;
mod quoted;
mod reached;
mod reading;
mod step_node;
mod step_nodes;
mod step_waits;
mod targets;
mod waits;
mod waits_fault;

pub use graph::Graph;
pub use graph_fault::GraphFault;
pub use limits::MAX_BYTES;
pub use naming::step_name;
pub use reading::read_graph;
pub use step_node::StepNode;
pub use waits::{MAX_WAITS, waits_of};
pub use waits_fault::WaitsFault;
