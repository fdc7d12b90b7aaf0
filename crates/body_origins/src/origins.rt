//! The origins of a body.

ghost use Rattle.std.specs.Prelude.{◌≡◌, ◌<◌, ◌≤◌, ◌^◌, ℕ, [], length, IfOk, IfErr, OnOk};
ghost use Rattle.rlc_base.specs.declared.code.Code.TheVariants as refused;
ghost use Rattle.rlc_base.specs.declared.faults.Stop.TheVariants as stops;
ghost use Rattle.reached_pairs.specs.Searches.{IsAt};
ghost use Rattle.java_cfg.specs.declared.arc.Arc.{Arc as DeclaredArc};
ghost use Rattle.java_cfg.specs.Limits.{refusal};
ghost use Rattle.java_cfg.specs.SmallActions.{IsSmallAction};
ghost use Rattle.flow_rules.specs.Room.{HasRoom};
ghost use Rattle.indexmap.specs.IndexSet.{insert_all};
ghost use Rattle.java_cfg.specs.Contents.{arcs_of, nodes_of};
ghost use Rattle.body_origins.specs.Nodes.{AreNodes, FitsRows, relation_in};
ghost use Rattle.body_origins.specs.Origins.{arc_births, origins_in, origins_of, row_births, same_origin};
ghost use Rattle.body_origins.specs.Pairs.{IsPairsCause, most_pairs};

use crate::births::{all_entry_births, all_step_births};
use control_actions::{Fact, Origin};
use indexmap::IndexSet;
use java_cfg::{Arc, Graph};
use program_model::{BodyId, Program};
use rlc_base::{Code, Pos, Refusal, Stop};
use std::alloc::{AllocError, Global};

/// The most pairs of a node and a fact that paths through a body may reach.
pub const MAX_PAIRS: usize = 1_000_000;

// Puts the origins of births last that are new.
fn add_origins(origins: &mut IndexSet<Origin>, births: &[(Origin, Fact)]) -> Result<(), AllocError>
    ensures { OnOk result (origins.new.keys ≡ insert_all same_origin origins.old.keys (origins_in births.now)) }
{
    'each: for birth in births {
        origins.insert_full(birth.0)?;
    }
    Ok(())
}

// Puts the origins of the births of a row of arcs last that are new.
fn add_row(
    alloc: Global,
    origins: &mut IndexSet<Origin>,
    p: &Program,
    b: BodyId,
    row: &[Arc],
) -> Result<(), AllocError>
    requires room { HasRoom p.now b }
    requires small { (i : ℕ) (a : DeclaredArc) → IsAt row.now i a → IsSmallAction p.now a.action }
    requires few { (i : ℕ) (a : DeclaredArc) → IsAt row.now i a → length (arc_births p.now b a) < 2 ^ 32 }
    ensures { OnOk result (origins.new.keys ≡ insert_all same_origin origins.old.keys (origins_in (row_births p.now b row.now))) }
{
    'each: for arc in row {
        let births = all_step_births(alloc, p, b, arc)?;
        add_origins(origins, &births)?;
    }
    Ok(())
}

/// The origins of a body, each once, in the order of their first births: at the entry, and then by node and arc. The number
/// of an origin is its place in this list.
pub fn all_origins(
    alloc: Global,
    p: &Program,
    b: BodyId,
    graph: &Graph,
) -> Result<IndexSet<Origin>, AllocError>
    requires fits { FitsRows p.now b (arcs_of graph.now) }
    requires long { length (arcs_of graph.now) ≡ length (nodes_of graph.now) }
    ensures { IfOk result (λ v. v.keys ≡ origins_of p.now b (arcs_of graph.now)) }
{
    let mut origins = IndexSet::new(alloc);
    let births = all_entry_births(alloc, p, b)?;
    add_origins(&mut origins, &births)?;
    'each: for node in 0..graph.nodes() {
        add_row(alloc, &mut origins, p, b, graph.arcs(node))?;
    }
    Ok(origins)
}

// Whether the origins are at most so many as the pairs may be.
fn check_count(origins: &IndexSet<Origin>, pos: Pos) -> Result<(), Stop>
    ensures few { OnOk result (length origins.now.keys ≤ 1000000) }
    ensures cause { IfErr result (λ stop. (stop ≡ stops.TooMuch (refusal refused.TooManyFacts pos)) × (most_pairs < length origins.now.keys)) }
{
    if origins.len() > MAX_PAIRS {
        return Err(Refusal {
            code: Code::TooManyFacts,
            pos,
        }
        .stop());
    }
    Ok(())
}

/// The origins of a body, where they are at most so many as the pairs may be.
///
/// # Errors
///
/// `TooMuch` with code 65 at the given place where paths reach more than 1,000,000 pairs of a node and a fact, since they
/// reach a fact of each origin. `NoMemory` where memory runs out.
pub fn body_origins(
    alloc: Global,
    p: &Program,
    b: BodyId,
    graph: &Graph,
    pos: Pos,
) -> Result<IndexSet<Origin>, Stop>
    requires fits { FitsRows p.now b (arcs_of graph.now) }
    requires nodes { AreNodes (arcs_of graph.now) }
    requires long { length (arcs_of graph.now) ≡ length (nodes_of graph.now) }
    ensures origins { IfOk result (λ v. v.keys ≡ origins_of p.now b (arcs_of graph.now)) }
    ensures few { IfOk result (λ v. length v.keys ≤ 1000000) }
    ensures cause { IfErr result (λ stop. IsPairsCause p.now b (relation_in (arcs_of graph.now)) pos stop) }
{
    let mut origins = IndexSet::new(alloc);
    let births = all_entry_births(alloc, p, b)?;
    add_origins(&mut origins, &births)?;
    check_count(&origins, pos)?;
    'each: for node in 0..graph.nodes() {
        add_row(alloc, &mut origins, p, b, graph.arcs(node))?;
        check_count(&origins, pos)?;
    }
    Ok(origins)
}
