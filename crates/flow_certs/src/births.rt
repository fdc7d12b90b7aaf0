//! Whether the births of a body are among the pairs of a certificate.

ghost use Rattle.std.specs.Prelude.{◌≡◌, ◌<◌, ◌^◌, ◌↔◌, ℕ, length, IsTrue, IfOk};
ghost use Rattle.breadth_first.specs.Searches.{AreOnce, IsAt};
ghost use Rattle.java_cfg.specs.Contents.{arcs_of, nodes_of};
ghost use Rattle.java_cfg.specs.declared.arc.Arc.{Arc as DeclaredArc};
ghost use Rattle.java_cfg.specs.SmallActions.{IsSmallAction};
ghost use Rattle.body_origins.specs.Nodes.{AreNodes, FitsRows};
ghost use Rattle.body_origins.specs.Origins.{arc_births, origins_of};
ghost use Rattle.body_origins.specs.Room.{HasRoom};
ghost use Rattle.flow_certs.specs.Certificates.{HaveBirths, Lists};
ghost use Rattle.flow_certs.specs.Listings.{ListBirths, ListRowBirths};

use crate::pair::Pair;
use crate::sets::{is_among, number_of};
use body_origins::{all_entry_births, all_step_births};
use control_actions::{Fact, Origin};
use indexmap::IndexSet;
use java_cfg::{Arc, Graph};
use program_model::{BodyId, Program};
use std::alloc::{AllocError, Global};

// Whether a birth is among the pairs at a node.
fn lists_birth(
    origins: &IndexSet<Origin>,
    pairs: &IndexSet<Pair>,
    node: u32,
    birth: &(Origin, Fact),
) -> bool
    requires { AreOnce origins.now.keys }
    ensures { IsTrue result ↔ Lists origins.now.keys pairs.now.keys node birth.now.0 birth.now.1 }
{
    match number_of(origins, &birth.0) {
        None => false,
        Some(origin) => {
            let pair = Pair {
                node: node as usize,
                origin,
                fact: birth.1,
            };
            is_among(pairs, &pair)
        }
    }
}

// Whether births are among the pairs at a node.
fn lists_births(
    origins: &IndexSet<Origin>,
    pairs: &IndexSet<Pair>,
    node: u32,
    births: &[(Origin, Fact)],
) -> bool
    requires { AreOnce origins.now.keys }
    ensures { IsTrue result ↔ ListBirths origins.now.keys pairs.now.keys node births.now }
{
    'births: for birth in births {
        let listed = lists_birth(origins, pairs, node, birth);
        if !listed {
            return false;
        }
    }
    true
}

// Whether the births of the arcs of a node are among the pairs.
fn lists_row(
    alloc: Global,
    p: &Program,
    b: BodyId,
    origins: &IndexSet<Origin>,
    pairs: &IndexSet<Pair>,
    row: &[Arc],
) -> Result<bool, AllocError>
    requires once { AreOnce origins.now.keys }
    requires room { HasRoom p.now b }
    requires small { (i : ℕ) (a : DeclaredArc) → IsAt row.now i a → IsSmallAction p.now a.action }
    requires few { (i : ℕ) (a : DeclaredArc) → IsAt row.now i a → length (arc_births p.now b a) < 2 ^ 32 }
    ensures { IfOk result (λ all. IsTrue all ↔ ListRowBirths p.now b origins.now.keys pairs.now.keys row.now) }
{
    'arcs: for arc in row {
        let births = all_step_births(alloc, p, b, arc)?;
        let listed = lists_births(origins, pairs, arc.to, &births);
        if !listed {
            return Ok(false);
        }
    }
    Ok(true)
}

/// Whether all births of a body are among the pairs: those at its entry and those of the arcs of its graph.
pub(crate) fn have_births(
    alloc: Global,
    p: &Program,
    b: BodyId,
    graph: &Graph,
    origins: &IndexSet<Origin>,
    pairs: &IndexSet<Pair>,
) -> Result<bool, AllocError>
    requires fits { FitsRows p.now b (arcs_of graph.now) }
    requires nodes { AreNodes (arcs_of graph.now) }
    requires long { length (arcs_of graph.now) ≡ length (nodes_of graph.now) }
    requires origins { origins.now.keys ≡ origins_of p.now b (arcs_of graph.now) }
    ensures { IfOk result (λ all. IsTrue all ↔ HaveBirths p.now b (arcs_of graph.now) pairs.now.keys) }
{
    let births = all_entry_births(alloc, p, b)?;
    let entered = lists_births(origins, pairs, 0, &births);
    if !entered {
        return Ok(false);
    }
    'nodes: for node in 0..graph.nodes() {
        let listed = lists_row(alloc, p, b, origins, pairs, graph.arcs(node))?;
        if !listed {
            return Ok(false);
        }
    }
    Ok(true)
}
