//! A path whose last step breaks a rule.

ghost use Rattle.std.specs.Prelude.{◌≡◌, ◌<◌, ℕ, length, Some, IfOk};
ghost use Rattle.breadth_first.specs.Searches.{IsAt};
ghost use Rattle.fact_pool.specs.Regions.{list_of};
ghost use Rattle.fact_pool.specs.declared.handle.Handle.{Handle as DeclaredHandle};
ghost use Rattle.reached_facts.specs.Searched.{IsSearched};
ghost use Rattle.java_cfg.specs.Contents.{arcs_of, nodes_of};
ghost use Rattle.java_cfg.specs.declared.arc.Arc.{Arc as DeclaredArc};
ghost use Rattle.control_actions.specs.declared.fact.Origin.{Origin as DeclaredOrigin};
ghost use Rattle.reached_pairs.specs.Visited.{fact_in};
ghost use Rattle.graph_relation.specs.Nodes.{arcs_at, relation_in};
ghost use Rattle.reached_facts.specs.Steps.{Begins, IsReady, Leads};
ghost use Rattle.shortest_paths.specs.Telling.{step_from};
ghost use Rattle.body_faults.specs.Breaches.{IsFirstBreach};
ghost use Rattle.body_faults.specs.declared.breach.Breach.{Breach as DeclaredBreach};
ghost use Rattle.obligation_paths.specs.Paths.{TellsShortest, fault_from};

use body_faults::Breached;
use fact_pool::{Handle, Pool, Region};
use flow_rules::PathStep;
use java_cfg::Graph;
use java_control::Fact;
use reached_facts::BodyFlow;
use reached_pairs::{Visit, Visits};
use rlc_base::NoMemory;
use shortest_paths::path_to;
use std::alloc::Global;

// The fact of a handle.
fn fact_of(pool: &Pool<Fact>, region: &Region, handle: Option<Handle>) -> Option<Fact>
    requires { (h : DeclaredHandle) → handle ≡ Some h → h.0 < length (list_of pool.now region.now) }
    ensures { result ≡ fact_in (list_of pool.now region.now) handle }
{
    match handle {
        None => None,
        Some(handle) => Some(pool.get(region, handle)),
    }
}

// The step by an arc of the node of a visit, where this is known.
fn step_from(graph: &Graph, visit: Visit, arc: usize, known: Option<Fact>) -> PathStep
    requires long { length (arcs_of graph.now) ≡ length (nodes_of graph.now) }
    requires arc { (a : DeclaredArc) × IsAt (arcs_at (arcs_of graph.now) visit.node) arc a }
    ensures { (a : DeclaredArc) × (IsAt (arcs_at (arcs_of graph.now) visit.node) arc a × (result ≡ step_from visit a known)) }
{
    let arc = graph.arcs(visit.node)[arc];
    PathStep {
        node: visit.node,
        pos: arc.pos,
        action: arc.action,
        edge: arc.edge,
        fact: known,
    }
}

/// A path of the fewest steps whose last step is the one by which a rule is broken first.
pub fn breaking_path(
    alloc: Global,
    flow: &BodyFlow,
    visits: &Visits,
    pool: &Pool<Fact>,
    region: &Region,
    step: &Breached,
) -> Result<Vec<PathStep>, NoMemory>
    requires ready { IsReady flow.now.program.now flow.now.body (nodes_of flow.now.graph.now) (arcs_of flow.now.graph.now) flow.now.origins.now.keys }
    requires searched { IsSearched (Begins flow.now.program.now flow.now.body flow.now.origins.now.keys) (Leads flow.now.program.now flow.now.body (arcs_of flow.now.graph.now) flow.now.origins.now.keys)
        (list_of pool.now region.now) visits.now.visits.keys visits.now.pairs.items visits.now.sources.items (length visits.now.visits.keys) }
    requires first { (x : DeclaredBreach) × IsFirstBreach flow.now.program.now flow.now.body (arcs_of flow.now.graph.now) flow.now.origins.now.keys (list_of pool.now region.now) visits.now.visits.keys (x, step.now) }
    ensures { IfOk result (λ v. (x : DeclaredBreach) (o : DeclaredOrigin) → IsAt flow.now.origins.now.keys x.origin o
        → IsFirstBreach flow.now.program.now flow.now.body (arcs_of flow.now.graph.now) flow.now.origins.now.keys (list_of pool.now region.now) visits.now.visits.keys (x, step.now)
        → TellsShortest flow.now.program.now flow.now.body (relation_in (arcs_of flow.now.graph.now)) (fault_from o x step.now) v.items) }
{
    let mut path = path_to(alloc, flow, visits, pool, region, step.visit)?;
    let visit = visits.visit(step.visit);
    let known = fact_of(pool, region, visit.fact);
    path.push(step_from(flow.graph, visit, step.arc, known))?;
    Ok(path)
}
