//! Reads one line of a graph.

ghost use Rattle.std.specs.Prelude.{◌≡◌, codes, IfOk};
ghost use Rattle.std.specs.Option.{option_copied};
ghost use Rattle.apply_model.specs.Plan.Address.{after_prefix};
ghost use Rattle.input_graph.specs.Lines.{edge_line, edge_of, ends_line, graph_line, line_after_name, name_in_plan, node_of, skip_blanks, trim_blanks, without_semicolon};
ghost use Rattle.input_graph.specs.Quoted.{quoted};

use crate::graph_line::GraphLine;
use crate::quoted::read_quoted;
use apply_model::Text;
use std::alloc::{AllocError, Global};

/// Reads one line of a graph. `Err` where memory is refused.
pub fn read_line(alloc: Global, line: &[u8]) -> Result<GraphLine, AllocError>
    ensures { IfOk result (λ read. read ≡ graph_line line.now) }
{
    let text = skip_blanks(line);
    if text.first() != Some(&b'"') {
        return Ok(GraphLine::Other);
    }
    match read_quoted(alloc, text)? {
        Some(first) => line_after_name(alloc, &first.name, first.rest),
        None => Ok(GraphLine::Neither),
    }
}

/// Reads a line after its first name: an arrow and another name make it an edge.
fn line_after_name(alloc: Global, name: &Text, rest: &[u8]) -> Result<GraphLine, AllocError>
    ensures { IfOk result (λ line. line
        ≡ line_after_name name.now rest.now (after_prefix (codes "->") (skip_blanks rest.now))) }
{
    match after_arrow(skip_blanks(rest)) {
        Some(target) => edge_line(alloc, name, skip_blanks(target)),
        None => if ends_line(rest) {
            node(alloc, name)
        } else {
            Ok(GraphLine::Neither)
        },
    }
}

/// Reads the line of an edge after its arrow.
fn edge_line(alloc: Global, from: &Text, target: &[u8]) -> Result<GraphLine, AllocError>
    ensures { IfOk result (λ line. line ≡ edge_line from.now (quoted target.now)) }
{
    match read_quoted(alloc, target)? {
        Some(to) => if ends_line(to.rest) {
            edge(alloc, from, &to.name)
        } else {
            Ok(GraphLine::Neither)
        },
        None => Ok(GraphLine::Neither),
    }
}

/// The line of a node of that name.
fn node(alloc: Global, name: &Text) -> Result<GraphLine, AllocError>
    ensures { IfOk result (λ line. line ≡ node_of (name_in_plan name.now)) }
{
    match name_in_plan(name) {
        Some(name) => Ok(GraphLine::Node(Text::new(alloc, name)?)),
        None => Ok(GraphLine::NotOfPlan),
    }
}

/// The line of an edge between nodes of these names.
fn edge(alloc: Global, from: &Text, to: &Text) -> Result<GraphLine, AllocError>
    ensures { IfOk result (λ line. line ≡ edge_of (name_in_plan from.now) (name_in_plan to.now)) }
{
    match (name_in_plan(from), name_in_plan(to)) {
        (Some(from), Some(to)) => Ok(GraphLine::Edge(
            Text::new(alloc, from)?,
            Text::new(alloc, to)?,
        )),
        _ => Ok(GraphLine::NotOfPlan),
    }
}

/// The name without the `[root] ` at its front. `None` where it has none.
fn name_in_plan(name: &Text) -> Option<&str>
    ensures { option_copied result ≡ name_in_plan name.now }
{
    name.as_str().strip_prefix("[root] ")
}

/// The bytes after an arrow. `None` where they begin with none.
fn after_arrow(rest: &[u8]) -> Option<&[u8]>
    ensures { option_copied result ≡ after_prefix (codes "->") rest.now }
{
    if rest.starts_with(b"->") {
        Some(&rest[2..])
    } else {
        None
    }
}

/// Whether attributes in brackets or none, and a semicolon or none, are all that is left.
fn ends_line(rest: &[u8]) -> bool
    ensures { result ≡ ends_line rest.now }
{
    let attributes = trim_blanks(without_semicolon(trim_blanks(rest)));
    attributes.is_empty() || attributes.first() == Some(&b'[') && attributes.last() == Some(&b']')
}

/// The bytes without a semicolon at their end.
fn without_semicolon(bytes: &[u8]) -> &[u8]
    ensures { result.now ≡ without_semicolon bytes.now }
{
    match bytes.split_last() {
        Some((b';', front)) => front,
        _ => bytes,
    }
}

/// The bytes without the blanks at their front.
fn skip_blanks(bytes: &[u8]) -> &[u8]
    ensures { result.now ≡ skip_blanks bytes.now }
{
    bytes.trim_ascii_start()
}

/// The bytes without the blanks at both ends.
fn trim_blanks(bytes: &[u8]) -> &[u8]
    ensures { result.now ≡ trim_blanks bytes.now }
{
    skip_blanks(bytes).trim_ascii_end()
}
