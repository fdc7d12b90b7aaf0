//! The part of one body.

ghost use Rattle.std.specs.Prelude.{◌≡◌, ◌<◌, [], ℕ, length, IfOk, IfErr};
ghost use Rattle.rlc_base.specs.declared.faults.Refusal.{Refusal as DeclaredRefusal};
ghost use Rattle.fact_pool.specs.Regions.{IsLive, list_of, with_list};
ghost use Rattle.java_cfg.specs.Contents.{arcs_of, nodes_of};
ghost use Rattle.java_cfg.specs.Graphs.{IsGraphOf};
ghost use Rattle.java_cfg.specs.Limits.{HasTooManyPlaces, PassesLimit};
ghost use Rattle.flow_rules.specs.WellFormed.{HasSmallInterests};
ghost use Rattle.program_faults.specs.ListedFields.{HasListedFields};
ghost use Rattle.program_faults.specs.BodyReports.{IsBodyStop};
ghost use Rattle.certificates.specs.Certified.{IsBodyVerdict};

use crate::lines::{pair_lines, put_number};
use crate::sheet::Sheet;
use fact_pool::{Pool, Region};
use java_cfg::{Graph, build_graph};
use java_control::Fact;
use obligation_flow::check_into;
use program_model::{BodyId, Program};
use rlc_base::{NoMemory, Stop};
use std::alloc::Global;

// The part of a body with these pairs: its line and theirs.
fn part_of(alloc: Global, b: BodyId, lines: &[(u32, Vec<u8>)]) -> Result<Vec<u8>, NoMemory> {
    let mut part = Vec::new(alloc);
    part.extend_from_slice(b"body ")?;
    put_number(alloc, u64::from(b.0), &mut part)?;
    part.extend_from_slice(b" ")?;
    put_number(alloc, lines.len() as u64, &mut part)?;
    part.extend_from_slice(b"\n")?;
    for (node, words) in lines {
        put_number(alloc, u64::from(*node), &mut part)?;
        part.extend_from_slice(b" ")?;
        part.extend_from_slice(words)?;
        part.extend_from_slice(b"\n")?;
    }
    Ok(part)
}

// Follows the facts of a body that passes no limit on controls and places in the empty list of a region, and puts its pairs where no step
// breaks a rule. Answers whether none does.
fn put_walked(
    alloc: Global,
    p: &Program,
    b: BodyId,
    graph: &Graph,
    pool: &mut Pool<Fact>,
    region: &Region,
    sheet: &mut Sheet,
) -> Result<bool, Stop>
    requires interests { HasSmallInterests p.now }
    requires fields { HasListedFields p.now }
    requires graph { IsGraphOf p.now b (nodes_of graph.now) (arcs_of graph.now) }
    requires places { HasTooManyPlaces p.now b → ⊥ }
    requires small { (r : DeclaredRefusal) → PassesLimit p.now b r → ⊥ }
    requires live { IsLive pool.old region.now }
    requires empty { list_of pool.old region.now ≡ [] }
    ensures verdict { IfOk result (IsBodyVerdict p.now b) }
    ensures cause { IfErr result (IsBodyStop p.now b 0) }
    ensures live { IsLive pool.new region.now }
    ensures others { pool.new ≡ with_list pool.old region.now (list_of pool.new region.now) }
{
    let trace = check_into(alloc, p, b, graph, pool, region)?;
    if trace.count() > 0 {
        return Ok(false);
    }
    let lines = pair_lines(alloc, p, b, pool, region, trace.pairs())?;
    let part = part_of(alloc, b, &lines)?;
    sheet.put(&part)?;
    Ok(true)
}

/// Puts the part of a body, where no step of a path breaks a rule. Answers whether none does. The facts of the body stand in a region of
/// their own, which is released whatever comes.
///
/// # Errors
///
/// `TooMuch` with the place of the body's method where the body passes a limit: code 63, 64 or 65. `NoMemory` where memory runs out.
pub(crate) fn put_body(
    alloc: Global,
    p: &Program,
    b: BodyId,
    pool: &mut Pool<Fact>,
    sheet: &mut Sheet,
) -> Result<bool, Stop>
    requires interests { HasSmallInterests p.now }
    requires fields { HasListedFields p.now }
    ensures verdict { IfOk result (IsBodyVerdict p.now b) }
    ensures cause { IfErr result (IsBodyStop p.now b 0) }
{
    let graph = build_graph(alloc, p, b)?;
    let region = pool.begin(alloc)?;
    let verdict = put_walked(alloc, p, b, &graph, pool, &region, sheet);
    pool.release(region);
    verdict
}
