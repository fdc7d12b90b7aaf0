// The lines of a graph.

ghost use Rattle.std.specs.Prelude.{◌≡◌, ◌+◌, ◌++◌, ◌<◌, length, IfOk, OnOk};
ghost use Rattle.java_cfg.specs.Contents.{arcs_of, nodes_of};
ghost use Rattle.graph_words.specs.Arcs.{arc_count, arc_end, arc_line, arc_lines, counts_line, edge_word, graph_lines, row_at, row_lines};

use crate::actions::put_action;
use crate::names::class_word;
use control_actions::Edge;
use java_cfg::{Arc, Graph};
use program_model::{Body, Program};
use program_texts::{put_line, put_number};
use rlc_base::{NoMemory, Text};
use std::alloc::Global;

fn put_edge(p: &Program, edge: Edge, into: &mut Text) -> Result<(), NoMemory>
    ensures { OnOk result (into.new ≡ into.old ++ edge_word p.now edge) }
{
    match edge {
        Edge::Go => into.push_bytes(b"go"),
        Edge::Null => into.push_bytes(b"null"),
        Edge::NonNull => into.push_bytes(b"nonnull"),
        Edge::True => into.push_bytes(b"true"),
        Edge::False => into.push_bytes(b"false"),
        Edge::Throws(class) => {
            into.push_bytes(b"throws ")?;
            into.push_bytes(class_word(p, class))
        }
    }
}

fn put_arc_end(alloc: Global, arc: Arc, into: &mut Text) -> Result<(), NoMemory>
    ensures { OnOk result (into.new ≡ into.old ++ arc_end arc) }
{
    into.push_bytes(b" ")?;
    put_number(alloc, u64::from(arc.to), into)?;
    into.push_bytes(b" ")?;
    put_line(alloc, arc.pos, into)?;
    into.push_bytes(b"\n")
}

fn put_arc(
    alloc: Global,
    p: &Program,
    body: &Body,
    node: u32,
    arc: Arc,
    into: &mut Text,
) -> Result<(), NoMemory>
    ensures { OnOk result (into.new ≡ into.old ++ arc_line p.now body.now node arc) }
{
    put_number(alloc, u64::from(node), into)?;
    into.push_bytes(b" ")?;
    put_action(alloc, p, body, arc.action, into)?;
    into.push_bytes(b" ")?;
    put_edge(p, arc.edge, into)?;
    put_arc_end(alloc, arc, into)
}

fn put_row(
    alloc: Global,
    p: &Program,
    body: &Body,
    node: u32,
    row: &[Arc],
    into: &mut Text,
) -> Result<(), NoMemory>
    ensures { OnOk result (into.new ≡ into.old ++ row_lines p.now body.now node row.now) }
{
    'each: for arc in row {
        put_arc(alloc, p, body, node, *arc, into)?;
    }
    Ok(())
}

fn put_arcs(
    alloc: Global,
    p: &Program,
    body: &Body,
    graph: &Graph,
    into: &mut Text,
) -> Result<(), NoMemory>
    ensures { OnOk result (into.new ≡ into.old ++ arc_lines p.now body.now (arcs_of graph.now) (length (nodes_of graph.now))) }
{
    'each: for node in 0..graph.nodes() {
        put_row(alloc, p, body, node, graph.arcs(node), into)?;
    }
    Ok(())
}

// How many arcs a graph has. A number that does not fit is answered as want of memory.
fn arc_count(graph: &Graph) -> Result<u64, NoMemory>
    ensures { IfOk result (λ count. count ≡ arc_count (arcs_of graph.now) (length (nodes_of graph.now))) }
{
    let mut count: u64 = 0;
    'each: for node in 0..graph.nodes() {
        match count.checked_add(graph.arcs(node).len() as u64) {
            None => return Err(NoMemory),
            Some(sum) => count = sum,
        }
    }
    Ok(count)
}

fn put_counts(alloc: Global, graph: &Graph, into: &mut Text) -> Result<(), NoMemory>
    ensures { OnOk result (into.new ≡ into.old ++ counts_line (arcs_of graph.now) (length (nodes_of graph.now))) }
{
    let count = arc_count(graph)?;
    put_number(alloc, u64::from(graph.nodes()), into)?;
    into.push_bytes(b" nodes, ")?;
    put_number(alloc, count, into)?;
    into.push_bytes(b" arcs\n")
}

/// Puts the counts of a graph, and its arcs where they are asked for.
pub(crate) fn put_graph(
    alloc: Global,
    p: &Program,
    body: &Body,
    with_arcs: bool,
    graph: &Graph,
    into: &mut Text,
) -> Result<(), NoMemory>
    ensures { OnOk result (into.new ≡ into.old ++ graph_lines p.now body.now with_arcs (arcs_of graph.now) (length (nodes_of graph.now))) }
{
    put_counts(alloc, graph, into)?;
    if with_arcs {
        put_arcs(alloc, p, body, graph, into)
    } else {
        Ok(())
    }
}
