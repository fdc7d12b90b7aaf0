//! The search of a body.

ghost use Rattle.std.specs.Prelude.{◌≡◌, ◌≤◌, ◌<◌, ◌^◌, ℕ, [], length, Option, IfOk, IfErr};
ghost use Rattle.fact_search.specs.Turns.{AreStarts, AreSteps};
ghost use Rattle.fact_search.specs.Walks.{IsWalk};
ghost use Rattle.fact_pool.specs.Regions.{IsLive, list_of, with_list};
ghost use Rattle.fact_search.specs.Searched.{IsSearchCause, IsSearched};
ghost use Rattle.reached_pairs.specs.Additions.{points_in};
ghost use Rattle.java_cfg.specs.Contents.{arcs_of, nodes_of};
ghost use Rattle.body_origins.specs.Nodes.{AreNodes, FitsRows, relation_in};
ghost use Rattle.body_origins.specs.Pairs.{IsPairsCause};
ghost use Rattle.reached_facts.specs.Reading.{AreReachedPairs};
ghost use Rattle.reached_facts.specs.Steps.{Begins, IsReady, Leads};

use crate::points::{all_bare_points, all_entry_points, all_fact_points};
use control_actions::{Fact, Origin};
use fact_pool::{Pool, Region};
use fact_search::{Transitions, search};
use indexmap::IndexSet;
use java_cfg::Graph;
use program_model::{BodyId, Program};
use reached_pairs::{Point, Visits};
use rlc_base::{Pos, Stop};
use std::alloc::{AllocError, Global};

/// The flow of facts in a body: a body of a program, its graph, and its origins.
#[derive(Drop)]
pub struct BodyFlow<'a> {
    pub program: &'a Program,
    pub body: BodyId,
    pub graph: &'a Graph,
    pub origins: &'a IndexSet<Origin>,
}

impl Transitions<Fact> for BodyFlow<'_> {
    ghost fits = { λ x. IsReady x.program.now x.body (nodes_of x.graph.now) (arcs_of x.graph.now) x.origins.now.keys };

    ghost starts = { λ x. Begins x.program.now x.body x.origins.now.keys };

    ghost leads = { λ x. Leads x.program.now x.body (arcs_of x.graph.now) x.origins.now.keys };

    fn start_points(&self, alloc: Global) -> Result<Vec<Point<Fact>>, AllocError>
        requires { IsReady self.now.program.now self.now.body (nodes_of self.now.graph.now) (arcs_of self.now.graph.now) self.now.origins.now.keys }
        ensures { IfOk result (λ v. AreStarts (Begins self.now.program.now self.now.body self.now.origins.now.keys) (Leads self.now.program.now self.now.body (arcs_of self.now.graph.now) self.now.origins.now.keys) (points_in v.items)) }
    {
        all_entry_points(alloc, self.program, self.body, self.origins)
    }

    fn step_points(
        &self,
        alloc: Global,
        at: usize,
        node: u32,
        fact: Option<Fact>,
    ) -> Result<Vec<Point<Fact>>, AllocError>
        requires fits { IsReady self.now.program.now self.now.body (nodes_of self.now.graph.now) (arcs_of self.now.graph.now) self.now.origins.now.keys }
        requires reached { (n : ℕ) × IsWalk (Begins self.now.program.now self.now.body self.now.origins.now.keys) (Leads self.now.program.now self.now.body (arcs_of self.now.graph.now) self.now.origins.now.keys) n (node, fact) }
        ensures { IfOk result (λ v. AreSteps (Begins self.now.program.now self.now.body self.now.origins.now.keys) (Leads self.now.program.now self.now.body (arcs_of self.now.graph.now) self.now.origins.now.keys) at (node, fact) (points_in v.items)) }
    {
        let row = self.graph.arcs(node);
        match fact {
            None => all_bare_points(alloc, self.program, self.body, row, self.origins, at),
            Some(fact) => {
                let origin = &self.origins[fact.origin as usize];
                all_fact_points(alloc, self.program, self.body, row, origin, &fact, at)
            }
        }
    }
}

/// Visits what paths through a body reach, in the empty list of a region, which has then the facts of the visits. A fact
/// carries the number of its origin in the body's list of origins.
///
/// # Errors
///
/// `TooMuch` with code 65 at the given place where paths reach more than 1,000,000 pairs of a node and a fact. `NoMemory`
/// where memory runs out. The list of the region is open then, and other regions stay.
pub fn reached_facts(
    alloc: Global,
    flow: &BodyFlow,
    pool: &mut Pool<Fact>,
    region: &Region,
    pos: Pos,
) -> Result<Visits, Stop>
    requires ready { IsReady flow.now.program.now flow.now.body (nodes_of flow.now.graph.now) (arcs_of flow.now.graph.now) flow.now.origins.now.keys }
    requires live { IsLive pool.old region.now }
    requires empty { list_of pool.old region.now ≡ [] }
    ensures searched { IfOk result (λ v. IsSearched (Begins flow.now.program.now flow.now.body flow.now.origins.now.keys) (Leads flow.now.program.now flow.now.body (arcs_of flow.now.graph.now) flow.now.origins.now.keys)
        (list_of pool.new region.now) v.visits.keys v.pairs.items v.sources.items (length v.visits.keys)) }
    ensures reached { IfOk result (λ v. AreReachedPairs flow.now.program.now flow.now.body (relation_in (arcs_of flow.now.graph.now)) flow.now.origins.now.keys (list_of pool.new region.now) v.pairs.items) }
    ensures cause { IfErr result (λ stop. IsPairsCause flow.now.program.now flow.now.body (relation_in (arcs_of flow.now.graph.now)) pos stop) }
    ensures others { pool.new ≡ with_list pool.old region.now (list_of pool.new region.now) }
    ensures live { IsLive pool.new region.now }
{
    search(alloc, flow, pool, region, pos)
}
