//! The making of a graph.

ghost use Rattle.std.specs.Prelude.{◌↔◌, IfOk, IfErr, IsTrue};
ghost use Rattle.java_cfg.specs.Contents.{arcs_of, nodes_of};
ghost use Rattle.java_cfg.specs.Graphs.{IsGraphOf};
ghost use Rattle.java_cfg.specs.Limits.{HasTooManyPlaces, IsCause, IsSearchCause, ReachesMore};

use crate::graph::Graph;
use crate::limits::{MAX_OWNING_FIELDS, MAX_VARIABLES, method_place, owning_count, variable_count};
use crate::link::link;
use crate::small_actions::any_large;
use indexmap::IndexSet;
use java_control::{Lists, next, start};
use program_model::{BodyId, Program};
use rlc_base::{Code, Pos, Refusal, Stop};
use std::alloc::Global;

// The graph of a body, whatever places its frames have.
fn explore(alloc: Global, p: &Program, b: BodyId, pos: Pos) -> Result<Graph, Stop>
    ensures graph { IfOk result (λ g. IsGraphOf p.now b (nodes_of g) (arcs_of g)) }
    ensures cause { IfErr result (λ stop. IsSearchCause p.now b pos stop) }
{
    let mut lists = Lists::new(alloc);
    let mut numbers = IndexSet::new(alloc);
    let mut rows = Vec::new(alloc);
    let first = start(alloc, &mut lists, p, b)?;
    numbers.insert_full(first)?;
    'nodes: while rows.len() < numbers.len() {
        let at = numbers[rows.len()];
        let steps = next(alloc, &mut lists, p, b, at)?;
        let _count = lists.cells.len();
        let row = link(alloc, &mut numbers, &steps, pos)?;
        rows.push(row)?;
    }
    let _count = lists.cells.len();
    Ok(Graph {
        lists,
        numbers,
        rows,
    })
}

// Whether the frames of a body have more places than a set of places can hold.
fn has_too_many_places(p: &Program, b: BodyId, graph: &Graph) -> bool
    requires { IsGraphOf p.now b (nodes_of graph.now) (arcs_of graph.now) }
    ensures { IsTrue result ↔ HasTooManyPlaces p.now b }
{
    variable_count(p, b) > MAX_VARIABLES
        || owning_count(p, b) > MAX_OWNING_FIELDS
        || any_large(p, &graph.rows)
}

/// The control-flow graph of a body: its nodes stand for the controls that the control relation reaches from the body's
/// start, each once and numbered breadth first, and the arcs of a node are the steps of its control. A number that names
/// no body gives a graph of one node without arcs.
///
/// # Errors
///
/// `TooMuch` at the place of the body's method: code 63 where more than 65,536 controls are reachable, and else code 64
/// where the body has more than 160 parameters and locals, its class more than 16 fields marked `@Owning`, or an action of
/// a reachable control names a temp of depth 64 or more, a variable with a number from 160 on, or an owning field from
/// number 16 on. In a body of a valid program the last two come only with the first two limits passed: there a variable
/// that is named is one of the body's, and an owning field that is named is one of its class's. `NoMemory` where memory
/// runs out.
pub fn build_graph(alloc: Global, p: &Program, b: BodyId) -> Result<Graph, Stop>
    ensures graph { IfOk result (λ g. IsGraphOf p.now b (nodes_of g) (arcs_of g)) }
    ensures small { IfOk result (λ _. ReachesMore p.now b 65536 → ⊥) }
    ensures places { IfOk result (λ _. HasTooManyPlaces p.now b → ⊥) }
    ensures cause { IfErr result (λ stop. IsCause p.now b stop) }
{
    let pos = method_place(p, b);
    let graph = explore(alloc, p, b, pos)?;
    if has_too_many_places(p, b, &graph) {
        return Err(Refusal {
            code: Code::TooManyPlaces,
            pos,
        }
        .stop());
    }
    Ok(graph)
}
