//! The trace of a body.

ghost use Rattle.std.specs.Prelude.{◌≡◌, ◌<◌, [], ℕ, length, IfOk, IfErr};
ghost use Rattle.breadth_first.specs.Searches.{IsAt};
ghost use Rattle.fact_pool.specs.Regions.{IsLive, list_of, with_list};
ghost use Rattle.reached_facts.specs.Searched.{IsSearched};
ghost use Rattle.fault_order.specs.declared.fault.FaultAt.{FaultAt as DeclaredFault};
ghost use Rattle.flow_rules.specs.Paths.{relation_of};
ghost use Rattle.java_cfg.specs.Contents.{arcs_of, nodes_of};
ghost use Rattle.java_cfg.specs.Graphs.{IsGraphOf};
ghost use Rattle.java_cfg.specs.Limits.{method_place};
ghost use Rattle.obligation_paths.specs.Nodes.{FitsRows, relation_in};
ghost use Rattle.obligation_paths.specs.Origins.{origins_of};
ghost use Rattle.reached_facts.specs.Pairs.{IsPairsCause, ReachesMorePairs, most_pairs};
ghost use Rattle.reached_facts.specs.Reading.{AreReachedPairs};
ghost use Rattle.reached_facts.specs.Steps.{Begins, IsReady, Leads};
ghost use Rattle.obligation_paths.specs.Paths.{IsToldPathTo};
ghost use Rattle.obligation_flow.specs.Faults.{AreFaultsOf};
ghost use Rattle.obligation_flow.specs.Traces.{IsTraceOf, faults_of, origins_in, pairs_of};

use crate::faults::{TracedFault, body_faults};
use body_walk::{Walk, walk_body};
use control_actions::{Fact, Origin};
use fact_pool::{Handle, Pool, Region};
use fault_order::FaultAt;
use flow_rules::PathStep;
use indexmap::IndexSet;
use java_cfg::{Graph, method_place};
use obligation_paths::breaking_path;
use program_model::{BodyId, Program};
use reached_facts::BodyFlow;
use rlc_base::{NoMemory, Stop};
use std::alloc::Global;

/// What is known of a body once its facts were followed: its origins, the nodes of its graph with the facts that paths reach
/// there, and its faults. The facts stand in the list of the region in which they were followed.
#[derive(Drop)]
pub struct Trace {
    pub(crate) walk: Walk,
    pub(crate) faults: Vec<TracedFault>,
}

// The trace of a body whose facts were followed.
fn trace_of(
    alloc: Global,
    p: &Program,
    b: BodyId,
    graph: &Graph,
    pool: &Pool<Fact>,
    region: &Region,
    walk: Walk,
) -> Result<Trace, NoMemory>
    requires ready { IsReady p.now b (nodes_of graph.now) (arcs_of graph.now) walk.origins.keys }
    requires origins { walk.origins.keys ≡ origins_of p.now b (arcs_of graph.now) }
    requires searched { IsSearched (Begins p.now b walk.origins.keys) (Leads p.now b (arcs_of graph.now) walk.origins.keys)
        (list_of pool.now region.now) walk.visits.visits.keys walk.visits.pairs.items walk.visits.sources.items (length walk.visits.visits.keys) }
    ensures walk { IfOk result (λ t. t.walk ≡ walk) }
    ensures trace { IfOk result (λ t. IsTraceOf p.now b (nodes_of graph.now) (arcs_of graph.now) (list_of pool.now region.now) t) }
{
    let flow = BodyFlow {
        program: p,
        body: b,
        graph,
        origins: &walk.origins,
    };
    let faults = body_faults(alloc, &flow, &walk.visits, pool, region)?;
    Ok(Trace { walk, faults })
}

/// Follows the facts of a body through its graph, in the empty list of a region, which has then the facts that paths reach;
/// the pairs of the trace name them by their handles. The faults of the trace are those of the body.
///
/// # Errors
///
/// `TooMuch` with code 65 at the place of the body's method exactly where paths reach more than 1,000,000 pairs of a node and a
/// fact. `NoMemory` where memory runs out. The list of the region is open then, and other regions stay.
pub fn check_into(
    alloc: Global,
    p: &Program,
    b: BodyId,
    graph: &Graph,
    pool: &mut Pool<Fact>,
    region: &Region,
) -> Result<Trace, Stop>
    requires fits { FitsRows p.now b (arcs_of graph.now) }
    requires graph { IsGraphOf p.now b (nodes_of graph.now) (arcs_of graph.now) }
    requires live { IsLive pool.old region.now }
    requires empty { list_of pool.old region.now ≡ [] }
    ensures faults { IfOk result (λ t. AreFaultsOf p.now b (relation_of p.now b) (faults_of t)) }
    ensures pairs { IfOk result (λ t. AreReachedPairs p.now b (relation_in (arcs_of graph.now)) (origins_in t) (list_of pool.new region.now) (pairs_of t)) }
    ensures origins { IfOk result (λ t. origins_in t ≡ origins_of p.now b (arcs_of graph.now)) }
    ensures trace { IfOk result (λ t. IsTraceOf p.now b (nodes_of graph.now) (arcs_of graph.now) (list_of pool.new region.now) t) }
    ensures few { IfOk result (λ _. ReachesMorePairs p.now b (relation_in (arcs_of graph.now)) most_pairs → ⊥) }
    ensures cause { IfErr result (λ stop. IsPairsCause p.now b (relation_in (arcs_of graph.now)) (method_place p.now b) stop) }
    ensures others { pool.new ≡ with_list pool.old region.now (list_of pool.new region.now) }
    ensures live { IsLive pool.new region.now }
{
    let walk = walk_body(alloc, p, b, graph, pool, region, method_place(p, b))?;
    Ok(trace_of(alloc, p, b, graph, pool, region, walk)?)
}

impl Trace {
    /// The origins of the body, in the order of their births. A fact carries the place of its origin in this list.
    pub fn origins(&self) -> &IndexSet<Origin>
        ensures { result.now.keys ≡ origins_in self.now }
    {
        &self.walk.origins
    }

    /// The pairs of a node and the handle of a fact that paths reach there, each once.
    pub fn pairs(&self) -> &[(u32, Handle)]
        ensures { result.now ≡ pairs_of self.now }
    {
        self.walk.visits.pairs()
    }

    /// The number of faults.
    pub fn count(&self) -> usize
        ensures { result ≡ length (faults_of self.now) }
    {
        self.faults.len()
    }

    /// The fault of a place in the order of reports, counted from 0.
    pub fn fault(&self, at: usize) -> FaultAt
        requires { at < length (faults_of self.now) }
        ensures { IsAt (faults_of self.now) at result }
    {
        self.faults[at].fault()
    }

    /// A path to the fault of that place: the last step breaks its rule, and no path to it has fewer steps. The body, its
    /// graph, the pool and the region are those of the trace.
    pub fn path(
        &self,
        alloc: Global,
        p: &Program,
        b: BodyId,
        graph: &Graph,
        pool: &Pool<Fact>,
        region: &Region,
        at: usize,
    ) -> Result<Vec<PathStep>, NoMemory>
        requires trace { IsTraceOf p.now b (nodes_of graph.now) (arcs_of graph.now) (list_of pool.now region.now) self.now }
        requires graph { IsGraphOf p.now b (nodes_of graph.now) (arcs_of graph.now) }
        requires within { at < length (faults_of self.now) }
        ensures { IfOk result (λ v. (x : DeclaredFault) → IsAt (faults_of self.now) at x → IsToldPathTo p.now b (nodes_of graph.now) x v.items) }
    {
        let flow = BodyFlow {
            program: p,
            body: b,
            graph,
            origins: &self.walk.origins,
        };
        breaking_path(
            alloc,
            &flow,
            &self.walk.visits,
            pool,
            region,
            &self.faults[at].breached,
        )
    }
}
