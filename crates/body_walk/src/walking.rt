//! The walk of a body.

ghost use Rattle.std.specs.Prelude.{◌≡◌, [], length, IfOk, IfErr};
ghost use Rattle.fact_pool.specs.Regions.{IsLive, list_of, with_list};
ghost use Rattle.reached_facts.specs.Searched.{IsSearched};
ghost use Rattle.java_cfg.specs.Contents.{arcs_of, nodes_of};
ghost use Rattle.java_cfg.specs.Graphs.{IsGraphOf};
ghost use Rattle.body_origins.specs.Nodes.{FitsRows, relation_in};
ghost use Rattle.body_origins.specs.Origins.{origins_of};
ghost use Rattle.body_origins.specs.Pairs.{IsPairsCause};
ghost use Rattle.reached_facts.specs.Reading.{AreReachedPairs};
ghost use Rattle.reached_facts.specs.Steps.{Begins, IsReady, Leads};

use body_origins::body_origins;
use control_actions::{Fact, Origin};
use fact_pool::{Pool, Region};
use indexmap::IndexSet;
use java_cfg::Graph;
use program_model::{BodyId, Program};
use reached_facts::{BodyFlow, reached_facts};
use reached_pairs::Visits;
use rlc_base::{Pos, Stop};
use std::alloc::Global;

/// What a walk of a body found: its origins, and the visits of its nodes with nothing or with a fact.
#[derive(Drop)]
pub struct Walk {
    pub origins: IndexSet<Origin>,
    pub visits: Visits,
}

/// Walks the facts of a body through its graph, in the empty list of a region, which has then the facts that paths reach. A
/// fact carries the number of its origin in the body's list of origins.
///
/// # Errors
///
/// `TooMuch` with code 65 at the given place where paths reach more than 1,000,000 pairs of a node and a fact. `NoMemory`
/// where memory runs out. The list of the region is open then, and other regions stay.
pub fn walk_body(
    alloc: Global,
    p: &Program,
    b: BodyId,
    graph: &Graph,
    pool: &mut Pool<Fact>,
    region: &Region,
    pos: Pos,
) -> Result<Walk, Stop>
    requires fits { FitsRows p.now b (arcs_of graph.now) }
    requires graph { IsGraphOf p.now b (nodes_of graph.now) (arcs_of graph.now) }
    requires live { IsLive pool.old region.now }
    requires empty { list_of pool.old region.now ≡ [] }
    ensures ready { IfOk result (λ w. IsReady p.now b (nodes_of graph.now) (arcs_of graph.now) w.origins.keys) }
    ensures origins { IfOk result (λ w. w.origins.keys ≡ origins_of p.now b (arcs_of graph.now)) }
    ensures searched { IfOk result (λ w. IsSearched (Begins p.now b w.origins.keys) (Leads p.now b (arcs_of graph.now) w.origins.keys)
        (list_of pool.new region.now) w.visits.visits.keys w.visits.pairs.items w.visits.sources.items (length w.visits.visits.keys)) }
    ensures reached { IfOk result (λ w. AreReachedPairs p.now b (relation_in (arcs_of graph.now)) w.origins.keys (list_of pool.new region.now) w.visits.pairs.items) }
    ensures cause { IfErr result (λ stop. IsPairsCause p.now b (relation_in (arcs_of graph.now)) pos stop) }
    ensures others { pool.new ≡ with_list pool.old region.now (list_of pool.new region.now) }
    ensures live { IsLive pool.new region.now }
{
    let origins = body_origins(alloc, p, b, graph, pos)?;
    let flow = BodyFlow {
        program: p,
        body: b,
        graph,
        origins: &origins,
    };
    let visits = reached_facts(alloc, &flow, pool, region, pos)?;
    Ok(Walk { origins, visits })
}
