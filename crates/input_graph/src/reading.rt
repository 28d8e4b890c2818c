//! Reads a whole graph.

ghost use Rattle.std.specs.Prelude.{◌≡◌, ◌≢◌, ◌+◌, ◌<◌, ◌≤◌, All, drop, Err, IfErr, IfOk, length, Ok, slice_index, take};
ghost use Rattle.stream_lines.specs.Cut.{cut_lines};
ghost use Rattle.input_graph.specs.declared.graph_fault.GraphFault.TheVariants.{Memory};
ghost use Rattle.input_graph.specs.Reading.{graph_in, graph_in_lines, is_blank, max_bytes};

use crate::graph::Graph;
use crate::graph_fault::GraphFault;
use crate::limits::MAX_BYTES;
use crate::line::read_line;
use memchr::memchr;
use std::alloc::Global;

/// Reads the graph of a plan, as `terraform graph -plan=FILE` prints it.
///
/// `Err` is one of these. Of several, the first in this order comes:
/// - `GraphFault::TooLarge`: there are more than 67,108,864 bytes.
/// - `GraphFault::NeitherNodeNorEdge`: the line begins like a node, but is neither a node nor an
///   edge. Of a line, this comes before the next fault; of several lines, the first line counts.
/// - `GraphFault::NotOfPlan`: a name on the line does not begin with `[root] `.
/// - `GraphFault::NoGraph`: all lines are blank.
/// - `GraphFault::NoNode`: no line is a node or an edge.
/// - `GraphFault::Memory`: memory was refused.
pub fn read_graph(alloc: Global, bytes: &[u8]) -> Result<Graph, GraphFault>
    ensures ok { IfOk result (λ graph. graph_in bytes.now ≡ Ok graph) }
    ensures err { IfErr result (λ fault. fault ≢ Memory → graph_in bytes.now ≡ Err fault) }
{
    if bytes.len() > MAX_BYTES {
        return Err(GraphFault::TooLarge);
    }
    let graph = read_lines(alloc, bytes)?;
    if !graph.nodes().is_empty() || !graph.edges().is_empty() {
        return Ok(graph);
    }
    if is_blank(bytes) {
        Err(GraphFault::NoGraph)
    } else {
        Err(GraphFault::NoNode)
    }
}

/// Whether all lines are blank.
fn is_blank(bytes: &[u8]) -> bool
    ensures { result ≡ is_blank bytes.now }
{
    bytes.iter().all(|byte| byte.is_ascii_whitespace())
}

/// Reads the lines of a graph. There may be none that is a node or an edge.
fn read_lines(alloc: Global, bytes: &[u8]) -> Result<Graph, GraphFault>
    requires { length bytes.now ≤ max_bytes }
    ensures ok { IfOk result (λ graph. graph_in_lines (cut_lines bytes.now) ≡ Ok graph) }
    ensures err { IfErr result
        (λ fault. fault ≢ Memory → graph_in_lines (cut_lines bytes.now) ≡ Err fault) }
{
    let mut graph = Graph::new(alloc);
    let mut number = 0;
    let mut rest = bytes;
    'lines: while !rest.is_empty() {
        let len = len_before_feed(rest);
        number += 1;
        graph.add(number, read_line(alloc, &rest[..len])?)?;
        rest = after_feed(rest, len);
    }
    Ok(graph)
}

/// How many bytes come before the first line feed, or all of them if there is none.
fn len_before_feed(bytes: &[u8]) -> usize
    ensures bound { result ≤ length bytes.now }
    ensures before { All (λ byte. byte ≢ 10) (take result bytes.now) }
    ensures feed { result < length bytes.now → slice_index bytes.now result ≡ 10 }
{
    match memchr(b'\n', bytes) {
        Some(len) => len,
        None => bytes.len(),
    }
}

/// The bytes after `len` bytes and a line feed.
fn after_feed(bytes: &[u8], len: usize) -> &[u8]
    ensures { result.now ≡ drop (len + 1) bytes.now }
{
    if len < bytes.len() {
        &bytes[len + 1..]
    } else {
        &[]
    }
}
