//! The steps that break a rule, gathered.

ghost use Rattle.std.specs.Prelude.{◌≡◌, ◌<◌, ℕ, [], ◌∷◌, length, IfOk, OnOk};
ghost use Rattle.breadth_first.specs.Searches.{IsAt};
ghost use Rattle.fact_pool.specs.Regions.{list_of};
ghost use Rattle.reached_facts.specs.Searched.{IsSearched};
ghost use Rattle.indexmap.specs.IndexMap.{IsUnique};
ghost use Rattle.java_cfg.specs.Contents.{arcs_of, nodes_of};
ghost use Rattle.java_cfg.specs.declared.arc.Arc.{Arc as DeclaredArc};
ghost use Rattle.flow_rules.specs.WellFormed.{HasSmallInterests};
ghost use Rattle.java_cfg.specs.SmallActions.{IsSmallAction};
ghost use Rattle.flow_rules.specs.Room.{HasRoom};
ghost use Rattle.reached_facts.specs.Origins.{origins_of};
ghost use Rattle.reached_facts.specs.Points.{flat_from};
ghost use Rattle.reached_facts.specs.Steps.{Begins, IsReady, Leads};
ghost use Rattle.reached_pairs.specs.declared.visit.Visit.{Visit as DeclaredVisit};
ghost use Rattle.body_faults.specs.Breaches.{AreBreaches, Gathers, HasGathered};
ghost use Rattle.body_faults.specs.Broken.{all_broken, broken_by, broken_from, broken_step, same_breach};

use crate::breach::{Breach, Breached};
use control_actions::{Fact, Origin, Outcome};
use fact_pool::{Pool, Region};
use flow_rules::flow;
use indexmap::IndexMap;
use java_cfg::Arc;
use program_model::{BodyId, Program};
use reached_facts::BodyFlow;
use reached_pairs::{Source, Visits};
use rlc_base::{NameSet, NoMemory};
use std::alloc::Global;

// Joins a step that breaks a rule with those that are known.
fn gather(
    found: &mut IndexMap<Breach, Breached>,
    breach: Breach,
    names: NameSet,
    step: Source,
) -> Result<(), NoMemory>
    ensures { OnOk result (Gathers found.old found.new (broken_step breach names step.visit step.arc ∷ [])) }
{
    let breached = match found.get(&breach) {
        None => Breached {
            missing: names,
            visit: step.visit,
            arc: step.arc,
        },
        Some(known) => Breached {
            missing: known.missing.union(names),
            visit: known.visit,
            arc: known.arc,
        },
    };
    found.insert(breach, breached)?;
    Ok(())
}

// Joins the step of an arc from a fact, where it breaks a rule.
fn gather_arc(
    found: &mut IndexMap<Breach, Breached>,
    p: &Program,
    b: BodyId,
    arc: &Arc,
    origin: &Origin,
    fact: &Fact,
    step: Source,
) -> Result<(), NoMemory>
    requires room { HasRoom p.now b }
    requires interests { HasSmallInterests p.now }
    requires small { IsSmallAction p.now arc.now.action }
    ensures { OnOk result (Gathers found.old found.new (broken_by p.now b origin.now fact.now step.visit step.arc arc.now)) }
{
    match flow(p, b, origin, arc.action, arc.edge, fact) {
        Outcome::Next(_) => Ok(()),
        Outcome::Gone => Ok(()),
        Outcome::Fault(rule, names) => {
            let breach = Breach {
                origin: fact.origin,
                rule,
                at: arc.pos,
            };
            gather(found, breach, names, step)
        }
    }
}

// Joins those steps of the arcs of a node from a fact that break a rule.
fn gather_row(
    found: &mut IndexMap<Breach, Breached>,
    p: &Program,
    b: BodyId,
    row: &[Arc],
    origin: &Origin,
    fact: &Fact,
    at: usize,
) -> Result<(), NoMemory>
    requires room { HasRoom p.now b }
    requires interests { HasSmallInterests p.now }
    requires small { (i : ℕ) (a : DeclaredArc) → IsAt row.now i a → IsSmallAction p.now a.action }
    ensures { OnOk result (Gathers found.old found.new (flat_from (broken_by p.now b origin.now fact.now at) 0 row.now)) }
{
    'arcs: for (i, arc) in row.iter().enumerate() {
        gather_arc(found, p, b, arc, origin, fact, Source { visit: at, arc: i })?;
    }
    Ok(())
}

// Joins those steps from a visit that break a rule.
fn gather_visit(
    found: &mut IndexMap<Breach, Breached>,
    flow: &BodyFlow,
    visits: &Visits,
    pool: &Pool<Fact>,
    region: &Region,
    at: usize,
) -> Result<(), NoMemory>
    requires ready { IsReady flow.now.program.now flow.now.body (nodes_of flow.now.graph.now) (arcs_of flow.now.graph.now) flow.now.origins.now.keys }
    requires searched { IsSearched (Begins flow.now.program.now flow.now.body flow.now.origins.now.keys) (Leads flow.now.program.now flow.now.body (arcs_of flow.now.graph.now) flow.now.origins.now.keys)
        (list_of pool.now region.now) visits.now.visits.keys visits.now.pairs.items visits.now.sources.items (length visits.now.visits.keys) }
    requires within { at < length visits.now.visits.keys }
    ensures { OnOk result ((v : DeclaredVisit) → IsAt visits.now.visits.keys at v
        → Gathers found.old found.new (broken_from flow.now.program.now flow.now.body (arcs_of flow.now.graph.now) flow.now.origins.now.keys (list_of pool.now region.now) at v)) }
{
    let visit = visits.visit(at);
    match visit.fact {
        None => Ok(()),
        Some(handle) => {
            let fact = pool.get(region, handle);
            let row = flow.graph.arcs(visit.node);
            let origin = &flow.origins[fact.origin as usize];
            gather_row(found, flow.program, flow.body, row, origin, &fact, at)
        }
    }
}

// Joins all steps that break a rule.
fn gather_all(
    alloc: Global,
    flow: &BodyFlow,
    visits: &Visits,
    pool: &Pool<Fact>,
    region: &Region,
) -> Result<IndexMap<Breach, Breached>, NoMemory>
    requires ready { IsReady flow.now.program.now flow.now.body (nodes_of flow.now.graph.now) (arcs_of flow.now.graph.now) flow.now.origins.now.keys }
    requires searched { IsSearched (Begins flow.now.program.now flow.now.body flow.now.origins.now.keys) (Leads flow.now.program.now flow.now.body (arcs_of flow.now.graph.now) flow.now.origins.now.keys)
        (list_of pool.now region.now) visits.now.visits.keys visits.now.pairs.items visits.now.sources.items (length visits.now.visits.keys) }
    ensures { IfOk result (λ m. HasGathered m (all_broken flow.now.program.now flow.now.body (arcs_of flow.now.graph.now) flow.now.origins.now.keys (list_of pool.now region.now) visits.now.visits.keys)) }
{
    let mut found = IndexMap::new(alloc);
    'visits: for at in 0..visits.count() {
        gather_visit(&mut found, flow, visits, pool, region, at)?;
    }
    Ok(found)
}

// The rules with what is known of them, as a list.
fn list_breaches(
    alloc: Global,
    found: &IndexMap<Breach, Breached>,
) -> Result<Vec<(Breach, Breached)>, NoMemory>
    ensures items { IfOk result (λ v. v.items ≡ found.now.entries) }
    ensures unique { IsUnique same_breach found.now }
{
    let mut breaches = Vec::new(alloc);
    for (breach, breached) in found.iter() {
        breaches.push((*breach, *breached))?;
    }
    Ok(breaches)
}

/// The rules that paths through the body break: each origin, rule and place once, with all names that are missing on some
/// such path, and the first step of the search that breaks the rule there. The search of the body has come to its end.
pub fn body_breaches(
    alloc: Global,
    flow: &BodyFlow,
    visits: &Visits,
    pool: &Pool<Fact>,
    region: &Region,
) -> Result<Vec<(Breach, Breached)>, NoMemory>
    requires ready { IsReady flow.now.program.now flow.now.body (nodes_of flow.now.graph.now) (arcs_of flow.now.graph.now) flow.now.origins.now.keys }
    requires origins { flow.now.origins.now.keys ≡ origins_of flow.now.program.now flow.now.body (arcs_of flow.now.graph.now) }
    requires searched { IsSearched (Begins flow.now.program.now flow.now.body flow.now.origins.now.keys) (Leads flow.now.program.now flow.now.body (arcs_of flow.now.graph.now) flow.now.origins.now.keys)
        (list_of pool.now region.now) visits.now.visits.keys visits.now.pairs.items visits.now.sources.items (length visits.now.visits.keys) }
    ensures { IfOk result (λ v. AreBreaches flow.now.program.now flow.now.body (arcs_of flow.now.graph.now) flow.now.origins.now.keys (list_of pool.now region.now) visits.now.visits.keys v.items) }
{
    let found = gather_all(alloc, flow, visits, pool, region)?;
    list_breaches(alloc, &found)
}
