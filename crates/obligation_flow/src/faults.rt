//! The faults of a body, in their order.

ghost use Rattle.std.specs.Prelude.{◌≡◌, ◌<◌, ℕ, length, map, IfOk, OnOk};
ghost use Rattle.std.specs.List.Sorted.{IsNonDecreasingBy, IsPermutation};
ghost use Rattle.breadth_first.specs.Searches.{IsAt};
ghost use Rattle.fact_pool.specs.Regions.{list_of};
ghost use Rattle.reached_facts.specs.Searched.{IsSearched};
ghost use Rattle.java_cfg.specs.Contents.{arcs_of, nodes_of};
ghost use Rattle.obligation_paths.specs.Origins.{origins_of};
ghost use Rattle.reached_facts.specs.Steps.{Begins, IsReady, Leads};
ghost use Rattle.body_faults.specs.declared.breach.Breach.{Breach as DeclaredBreach};
ghost use Rattle.body_faults.specs.declared.breach.Breached.{Breached as DeclaredBreached};
ghost use Rattle.obligation_flow.specs.Faults.{AreNamed, breach_of, fault_of, order_of};
ghost use Rattle.obligation_flow.specs.Traces.{AreTracedFaults};

use body_faults::{Breach, Breached, body_breaches};
use control_actions::{Fact, Origin};
use fact_pool::{Pool, Region};
use fault_order::{FaultAt, compare_faults};
use indexmap::IndexSet;
use reached_facts::BodyFlow;
use reached_pairs::Visits;
use rlc_base::NoMemory;
use std::alloc::Global;

/// A fault of a body, with the step by which it was found.
#[derive(Clone, Copy)]
pub struct TracedFault {
    pub origin: Origin,
    pub breach: Breach,
    pub breached: Breached,
}

impl TracedFault {
    /// The fault.
    pub fn fault(&self) -> FaultAt
        ensures { result ≡ fault_of self.now }
    {
        FaultAt {
            rule: self.breach.rule,
            at: self.breach.at,
            origin: self.origin,
            missing: self.breached.missing,
        }
    }
}

// The rules that are broken, with their origins.
fn all_faults(
    alloc: Global,
    origins: &IndexSet<Origin>,
    breaches: &[(Breach, Breached)],
) -> Result<Vec<TracedFault>, NoMemory>
    requires { (i : ℕ) (x : DeclaredBreach × DeclaredBreached) → IsAt breaches.now i x → x.0.origin < length origins.now.keys }
    ensures breaches { IfOk result (λ v. map breach_of v.items ≡ breaches.now) }
    ensures named { IfOk result (λ v. AreNamed origins.now.keys v.items) }
{
    let mut faults = Vec::new(alloc);
    'each: for (breach, breached) in breaches {
        faults.push(TracedFault {
            origin: origins[breach.origin as usize],
            breach: *breach,
            breached: *breached,
        })?;
    }
    Ok(faults)
}

// Brings faults into their order.
fn sort_traced(faults: &mut Vec<TracedFault>) -> Result<(), NoMemory>
    ensures same { OnOk result (IsPermutation faults.old.items faults.new.items) }
    ensures order { OnOk result (IsNonDecreasingBy order_of faults.new.items) }
{
    faults.sort_by(|one, other| compare_faults(&one.fault(), &other.fault()))?;
    Ok(())
}

/// The faults of a body, in the order of reports: each origin, rule and place once for which some path through the body
/// breaks the rule, with all names that are missing on some such path. The search of the body has come to its end.
pub(crate) fn body_faults(
    alloc: Global,
    flow: &BodyFlow,
    visits: &Visits,
    pool: &Pool<Fact>,
    region: &Region,
) -> Result<Vec<TracedFault>, NoMemory>
    requires ready { IsReady flow.now.program.now flow.now.body (nodes_of flow.now.graph.now) (arcs_of flow.now.graph.now) flow.now.origins.now.keys }
    requires origins { flow.now.origins.now.keys ≡ origins_of flow.now.program.now flow.now.body (arcs_of flow.now.graph.now) }
    requires searched { IsSearched (Begins flow.now.program.now flow.now.body flow.now.origins.now.keys) (Leads flow.now.program.now flow.now.body (arcs_of flow.now.graph.now) flow.now.origins.now.keys)
        (list_of pool.now region.now) visits.now.visits.keys visits.now.pairs.items visits.now.sources.items (length visits.now.visits.keys) }
    ensures { IfOk result (λ v. AreTracedFaults flow.now.program.now flow.now.body (arcs_of flow.now.graph.now) flow.now.origins.now.keys (list_of pool.now region.now) visits.now.visits.keys v.items) }
{
    let breaches = body_breaches(alloc, flow, visits, pool, region)?;
    let mut faults = all_faults(alloc, flow.origins, &breaches)?;
    sort_traced(&mut faults)?;
    Ok(faults)
}
