//! A path as the steps that are told.

ghost use Rattle.std.specs.Prelude.{◌≡◌, ◌<◌, ℕ, length, reverse, slice_get, Some, IfOk};
ghost use Rattle.breadth_first.specs.Searches.{IsAt};
ghost use Rattle.fact_pool.specs.Regions.{list_of};
ghost use Rattle.fact_pool.specs.declared.handle.Handle.{Handle as DeclaredHandle};
ghost use Rattle.reached_facts.specs.Searched.{IsSearched};
ghost use Rattle.java_cfg.specs.Contents.{arcs_of, nodes_of};
ghost use Rattle.java_cfg.specs.declared.arc.Arc.{Arc as DeclaredArc};
ghost use Rattle.control_actions.specs.declared.fact.Fact.{Fact as DeclaredFact};
ghost use Rattle.reached_pairs.specs.Visited.{fact_in};
ghost use Rattle.reached_pairs.specs.declared.visit.Source.{Source as DeclaredSource};
ghost use Rattle.reached_pairs.specs.declared.visit.Visit.{Visit as DeclaredVisit};
ghost use Rattle.reached_facts.specs.Nodes.{arcs_at, relation_in};
ghost use Rattle.reached_facts.specs.Steps.{Begins, IsReady, Leads};
ghost use Rattle.shortest_paths.specs.Telling.{AreToldBack, IsShortestPath, IsToldStep};

use control_actions::Fact;
use fact_pool::{Handle, Pool, Region};
use flow_rules::PathStep;
use java_cfg::Graph;
use reached_facts::BodyFlow;
use reached_pairs::{Source, Visits};
use std::alloc::{AllocError, Global};

// The fact of a handle.
fn fact_of(pool: &Pool<Fact>, region: &Region, handle: Option<Handle>) -> Option<Fact>
    requires { (h : DeclaredHandle) → handle ≡ Some h → h.0 < length (list_of pool.now region.now) }
    ensures { result ≡ fact_in (list_of pool.now region.now) handle }
{
    match handle {
        None => None,
        Some(handle) => Some(pool.get(region, handle)),
    }
}

// The step of a search as it is told.
fn step_of(
    graph: &Graph,
    visits: &Visits,
    pool: &Pool<Fact>,
    region: &Region,
    source: &Source,
) -> PathStep
    requires long { length (arcs_of graph.now) ≡ length (nodes_of graph.now) }
    requires handles { (k : ℕ) (v : DeclaredVisit) (h : DeclaredHandle) → IsAt visits.now.visits.keys k v → v.fact ≡ Some h → h.0 < length (list_of pool.now region.now) }
    requires place { (v : DeclaredVisit) × ((a : DeclaredArc) × (IsAt visits.now.visits.keys source.now.visit v × IsAt (arcs_at (arcs_of graph.now) v.node) source.now.arc a)) }
    ensures { IsToldStep (arcs_of graph.now) (list_of pool.now region.now) visits.now.visits.keys source.now result }
{
    let visit = visits.visit(source.visit);
    let arc = graph.arcs(visit.node)[source.arc];
    PathStep {
        node: visit.node,
        pos: arc.pos,
        action: arc.action,
        edge: arc.edge,
        fact: fact_of(pool, region, visit.fact),
    }
}

// The step behind those that are told.
fn next_source(sources: &[Source], path: &Vec<PathStep>) -> Option<Source>
    ensures { result ≡ slice_get sources.now (length path.now.items) }
{
    sources.get(path.len()).copied()
}

// The steps of a search as they are told.
fn tell(
    alloc: Global,
    graph: &Graph,
    visits: &Visits,
    pool: &Pool<Fact>,
    region: &Region,
    sources: &[Source],
) -> Result<Vec<PathStep>, AllocError>
    requires long { length (arcs_of graph.now) ≡ length (nodes_of graph.now) }
    requires handles { (k : ℕ) (v : DeclaredVisit) (h : DeclaredHandle) → IsAt visits.now.visits.keys k v → v.fact ≡ Some h → h.0 < length (list_of pool.now region.now) }
    requires places { (i : ℕ) (s : DeclaredSource) → IsAt sources.now i s → (v : DeclaredVisit) × ((a : DeclaredArc) × (IsAt visits.now.visits.keys s.visit v × IsAt (arcs_at (arcs_of graph.now) v.node) s.arc a)) }
    ensures { IfOk result (λ v. AreToldBack (arcs_of graph.now) (list_of pool.now region.now) visits.now.visits.keys (reverse sources.now) v.items) }
{
    let mut path = Vec::new(alloc);
    'each: while let Some(source) = next_source(sources, &path) {
        path.push(step_of(graph, visits, pool, region, &source))?;
    }
    Ok(path)
}

/// A path of the fewest steps through the body to the visit at the place, which has this fact: its steps in order, each with
/// what held before it.
pub fn path_to(
    alloc: Global,
    flow: &BodyFlow,
    visits: &Visits,
    pool: &Pool<Fact>,
    region: &Region,
    at: usize,
) -> Result<Vec<PathStep>, AllocError>
    requires ready { IsReady flow.now.program.now flow.now.body (nodes_of flow.now.graph.now) (arcs_of flow.now.graph.now) flow.now.origins.now.keys }
    requires searched { IsSearched (Begins flow.now.program.now flow.now.body flow.now.origins.now.keys) (Leads flow.now.program.now flow.now.body (arcs_of flow.now.graph.now) flow.now.origins.now.keys)
        (list_of pool.now region.now) visits.now.visits.keys visits.now.pairs.items visits.now.sources.items (length visits.now.visits.keys) }
    requires within { at < length visits.now.visits.keys }
    ensures { IfOk result (λ v. (x : DeclaredVisit) (h : DeclaredHandle) (g : DeclaredFact) → slice_get visits.now.visits.keys at ≡ Some x → x.fact ≡ Some h → slice_get (list_of pool.now region.now) h.0 ≡ Some g
        → IsShortestPath flow.now.program.now flow.now.body (relation_in (arcs_of flow.now.graph.now)) flow.now.origins.now.keys x.node g v.items) }
{
    let steps = visits.steps_to(alloc, at)?;
    tell(alloc, flow.graph, visits, pool, region, &steps)
}
