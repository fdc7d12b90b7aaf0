//! The points to which one step leads.

ghost use Rattle.std.specs.Prelude.{◌≡◌, ◌<◌, ◌≤◌, ◌^◌, ◌++◌, ℕ, Some, length, position, IfOk, OnOk};
ghost use Rattle.reached_pairs.specs.Searches.{IsAt};
ghost use Rattle.java_cfg.specs.declared.arc.Arc.{Arc as DeclaredArc};
ghost use Rattle.body_origins.specs.WellFormed.{HasSmallInterests};
ghost use Rattle.java_cfg.specs.SmallActions.{IsSmallAction};
ghost use Rattle.body_origins.specs.Births.{births_at_entry};
ghost use Rattle.body_origins.specs.Room.{HasRoom};
ghost use Rattle.body_origins.specs.Origins.{arc_births, same_origin};
ghost use Rattle.reached_facts.specs.Points.{bare_points, birth_point, birth_points, entry_points, fact_points, flat_from};

use body_origins::{all_entry_births, all_step_births, flow};
use control_actions::{Fact, Origin, Outcome};
use indexmap::IndexSet;
use java_cfg::Arc;
use program_model::{BodyId, Program};
use reached_pairs::{Point, Source};
use std::alloc::{AllocError, Global};

// Adds the first fact of a birth, with the number of its origin.
fn push_birth(
    points: &mut Vec<Point<Fact>>,
    origins: &IndexSet<Origin>,
    birth: &(Origin, Fact),
    node: u32,
    source: Option<Source>,
) -> Result<(), AllocError>
    requires { length origins.now.keys ≤ 1000000 }
    ensures { OnOk result (points.new.items ≡ points.old.items ++ birth_point node source birth.now (position (same_origin birth.now.0) origins.now.keys)) }
{
    match origins.get_index_of(&birth.0) {
        None => Ok(()),
        Some(number) => {
            let fact = Fact {
                origin: number as u32,
                ..birth.1
            };
            points.push(Point {
                node,
                fact: Some(fact),
                source,
            })?;
            Ok(())
        }
    }
}

// Adds the first facts of births.
fn push_births(
    points: &mut Vec<Point<Fact>>,
    origins: &IndexSet<Origin>,
    births: &[(Origin, Fact)],
    node: u32,
    source: Option<Source>,
) -> Result<(), AllocError>
    requires { length origins.now.keys ≤ 1000000 }
    ensures { OnOk result (points.new.items ≡ points.old.items ++ birth_points origins.now.keys node source births.now) }
{
    'births: for birth in births {
        push_birth(points, origins, birth, node, source)?;
    }
    Ok(())
}

// Adds what an arc leads to where nothing is followed yet.
fn push_bare(
    alloc: Global,
    points: &mut Vec<Point<Fact>>,
    p: &Program,
    b: BodyId,
    arc: &Arc,
    origins: &IndexSet<Origin>,
    source: Source,
) -> Result<(), AllocError>
    requires room { HasRoom p.now b }
    requires small { IsSmallAction p.now arc.now.action }
    requires few { length (arc_births p.now b arc.now) < 2 ^ 32 }
    requires origins { length origins.now.keys ≤ 1000000 }
    ensures { OnOk result (points.new.items ≡ points.old.items ++ bare_points p.now b origins.now.keys source.visit source.arc arc.now) }
{
    points.push(Point {
        node: arc.to,
        fact: None,
        source: Some(source),
    })?;
    let births = all_step_births(alloc, p, b, arc)?;
    push_births(points, origins, &births, arc.to, Some(source))
}

/// What the arcs of a node lead to from a visit with no fact.
pub(crate) fn all_bare_points(
    alloc: Global,
    p: &Program,
    b: BodyId,
    row: &[Arc],
    origins: &IndexSet<Origin>,
    at: usize,
) -> Result<Vec<Point<Fact>>, AllocError>
    requires room { HasRoom p.now b }
    requires small { (i : ℕ) (a : DeclaredArc) → IsAt row.now i a → IsSmallAction p.now a.action }
    requires few { (i : ℕ) (a : DeclaredArc) → IsAt row.now i a → length (arc_births p.now b a) < 2 ^ 32 }
    requires origins { length origins.now.keys ≤ 1000000 }
    ensures { IfOk result (λ v. v.items ≡ flat_from (bare_points p.now b origins.now.keys at) 0 row.now) }
{
    let mut points = Vec::new(alloc);
    'arcs: for (i, arc) in row.iter().enumerate() {
        push_bare(
            alloc,
            &mut points,
            p,
            b,
            arc,
            origins,
            Source { visit: at, arc: i },
        )?;
    }
    Ok(points)
}

// Adds what an arc leads to from a fact.
fn push_fact(
    points: &mut Vec<Point<Fact>>,
    p: &Program,
    b: BodyId,
    arc: &Arc,
    origin: &Origin,
    fact: &Fact,
    source: Source,
) -> Result<(), AllocError>
    requires room { HasRoom p.now b }
    requires interests { HasSmallInterests p.now }
    requires small { IsSmallAction p.now arc.now.action }
    ensures { OnOk result (points.new.items ≡ points.old.items ++ fact_points p.now b origin.now fact.now source.visit source.arc arc.now) }
{
    match flow(p, b, origin, arc.action, arc.edge, fact) {
        Outcome::Next(next) => {
            points.push(Point {
                node: arc.to,
                fact: Some(next),
                source: Some(source),
            })?;
            Ok(())
        }
        Outcome::Gone => Ok(()),
        Outcome::Fault(_, _) => Ok(()),
    }
}

/// What the arcs of a node lead to from a visit with the fact, which is one of the origin.
pub(crate) fn all_fact_points(
    alloc: Global,
    p: &Program,
    b: BodyId,
    row: &[Arc],
    origin: &Origin,
    fact: &Fact,
    at: usize,
) -> Result<Vec<Point<Fact>>, AllocError>
    requires room { HasRoom p.now b }
    requires interests { HasSmallInterests p.now }
    requires small { (i : ℕ) (a : DeclaredArc) → IsAt row.now i a → IsSmallAction p.now a.action }
    ensures { IfOk result (λ v. v.items ≡ flat_from (fact_points p.now b origin.now fact.now at) 0 row.now) }
{
    let mut points = Vec::new(alloc);
    'arcs: for (i, arc) in row.iter().enumerate() {
        push_fact(
            &mut points,
            p,
            b,
            arc,
            origin,
            fact,
            Source { visit: at, arc: i },
        )?;
    }
    Ok(points)
}

/// What is known at the entry of the body.
pub(crate) fn all_entry_points(
    alloc: Global,
    p: &Program,
    b: BodyId,
    origins: &IndexSet<Origin>,
) -> Result<Vec<Point<Fact>>, AllocError>
    requires room { HasRoom p.now b }
    requires few { length (births_at_entry p.now b) < 2 ^ 32 }
    requires origins { length origins.now.keys ≤ 1000000 }
    ensures { IfOk result (λ v. v.items ≡ entry_points p.now b origins.now.keys) }
{
    let mut points = Vec::new(alloc);
    points.push(Point {
        node: 0,
        fact: None,
        source: None,
    })?;
    let births = all_entry_births(alloc, p, b)?;
    push_births(&mut points, origins, &births, 0, None)?;
    Ok(points)
}
