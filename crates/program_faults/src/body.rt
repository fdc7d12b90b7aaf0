//! The faults of a body.

ghost use Rattle.std.specs.Prelude.{◌≡◌, ◌+◌, ◌<◌, ◌≤◌, [], length, IfErr, IfOk, OnOk};
ghost use Rattle.rlc_base.specs.declared.code.Code.TheVariants as refused;
ghost use Rattle.rlc_base.specs.declared.faults.Refusal.{Refusal as DeclaredRefusal};
ghost use Rattle.rlc_base.specs.declared.faults.Stop.TheVariants as stops;
ghost use Rattle.breadth_first.specs.Searches.{IsAt};
ghost use Rattle.fact_pool.specs.Regions.{IsLive, list_of, with_list};
ghost use Rattle.fault_order.specs.declared.fault.FaultAt.{FaultAt as DeclaredFault};
ghost use Rattle.graph_limits.specs.ListedFields.{HasListedFields};
ghost use Rattle.java_cfg.specs.Contents.{arcs_of, nodes_of};
ghost use Rattle.java_cfg.specs.Graphs.{IsGraphOf};
ghost use Rattle.java_cfg.specs.Limits.{HasTooManyPlaces, PassesLimit, refusal};
ghost use Rattle.flow_rules.specs.WellFormed.{HasSmallInterests};
ghost use Rattle.obligation_flow.specs.Traces.{IsTraceOf, faults_of};
ghost use Rattle.program_faults.specs.BodyReports.{AppendsReports, IsBodyStop, IsReportOf, PrintReports, most_faults};

use fact_pool::{Pool, Region};
use java_cfg::{Graph, build_graph, method_place};
use java_control::Fact;
use leak_report::{Report, print_report};
use obligation_flow::{Trace, check_into};
use program_model::{BodyId, Program};
use rlc_base::{Code, NoMemory, Pos, Refusal, Stop, Text};
use std::alloc::Global;

/// The most faults of a program that are reported.
pub const MAX_FAULTS: u32 = 10000;

// The report of the fault of that place in the order of faults.
fn fault_report(
    alloc: Global,
    p: &Program,
    b: BodyId,
    graph: &Graph,
    pool: &Pool<Fact>,
    region: &Region,
    trace: &Trace,
    at: usize,
) -> Result<Report, NoMemory>
    requires trace { IsTraceOf p.now b (nodes_of graph.now) (arcs_of graph.now) (list_of pool.now region.now) trace.now }
    requires graph { IsGraphOf p.now b (nodes_of graph.now) (arcs_of graph.now) }
    requires within { at < length (faults_of trace.now) }
    ensures { IfOk result (λ r. (x : DeclaredFault) → IsAt (faults_of trace.now) at x → IsReportOf p.now b x r) }
{
    let path = trace.path(alloc, p, b, graph, pool, region, at)?;
    let fault = trace.fault(at);
    Ok(Report {
        origin: fault.origin,
        rule: fault.rule,
        at: fault.at,
        missing: fault.missing,
        path,
    })
}

// Puts the reports of the faults of a trace.
fn print_faults(
    alloc: Global,
    p: &Program,
    b: BodyId,
    files: &[Text],
    graph: &Graph,
    pool: &Pool<Fact>,
    region: &Region,
    trace: &Trace,
    into: &mut Text,
) -> Result<(), NoMemory>
    requires trace { IsTraceOf p.now b (nodes_of graph.now) (arcs_of graph.now) (list_of pool.now region.now) trace.now }
    requires graph { IsGraphOf p.now b (nodes_of graph.now) (arcs_of graph.now) }
    ensures { OnOk result (PrintReports p.now files.now b (faults_of trace.now) into.old into.new) }
{
    'faults: for at in 0..trace.count() {
        let report = fault_report(alloc, p, b, graph, pool, region, trace, at)?;
        print_report(alloc, p, files, &report, into)?;
    }
    Ok(())
}

// The number of faults with those of a body, where they are not too many.
fn add_count(before: u32, found: usize, pos: Pos) -> Result<u32, Stop>
    requires { before ≤ most_faults }
    ensures sum { IfOk result (λ count. count ≡ before + found) }
    ensures few { IfOk result (λ count. count ≤ most_faults) }
    ensures stop { IfErr result (λ stop. stop ≡ stops.TooMuch (refusal refused.TooManyFaults pos)) }
    ensures many { IfErr result (λ stop. most_faults < before + found) }
{
    if found > (MAX_FAULTS - before) as usize {
        return Err(Refusal {
            code: Code::TooManyFaults,
            pos,
        }
        .stop());
    }
    Ok(before + found as u32)
}

// Follows the facts of a body that passes no limit on controls and places in the empty list of a region, and puts the reports of
// its faults.
fn report_body(
    alloc: Global,
    p: &Program,
    b: BodyId,
    files: &[Text],
    graph: &Graph,
    before: u32,
    pool: &mut Pool<Fact>,
    region: &Region,
    into: &mut Text,
) -> Result<u32, Stop>
    requires interests { HasSmallInterests p.now }
    requires fields { HasListedFields p.now }
    requires graph { IsGraphOf p.now b (nodes_of graph.now) (arcs_of graph.now) }
    requires places { HasTooManyPlaces p.now b → ⊥ }
    requires small { (r : DeclaredRefusal) → PassesLimit p.now b r → ⊥ }
    requires few { before ≤ most_faults }
    requires live { IsLive pool.old region.now }
    requires empty { list_of pool.old region.now ≡ [] }
    ensures reports { IfOk result (λ after. AppendsReports p.now files.now b before after into.old into.new) }
    ensures cause { IfErr result (IsBodyStop p.now b before) }
    ensures live { IsLive pool.new region.now }
    ensures others { pool.new ≡ with_list pool.old region.now (list_of pool.new region.now) }
{
    let trace = check_into(alloc, p, b, graph, pool, region)?;
    let after = add_count(before, trace.count(), method_place(p, b))?;
    print_faults(alloc, p, b, files, graph, pool, region, &trace, into)?;
    Ok(after)
}

/// Puts the reports of the faults of a body, where so many faults are in the bodies before it, and answers how many they are then.
/// The facts of the body stand in a region of their own, which is released whatever comes.
///
/// # Errors
///
/// `TooMuch` with the place of the body's method: code 63, 64 or 65 where the body passes a limit, and else 69 where the faults are
/// more than 10,000 then. `NoMemory` where memory runs out.
pub(crate) fn check_body(
    alloc: Global,
    p: &Program,
    b: BodyId,
    files: &[Text],
    before: u32,
    pool: &mut Pool<Fact>,
    into: &mut Text,
) -> Result<u32, Stop>
    requires interests { HasSmallInterests p.now }
    requires fields { HasListedFields p.now }
    requires few { before ≤ most_faults }
    ensures reports { IfOk result (λ after. AppendsReports p.now files.now b before after into.old into.new) }
    ensures cause { IfErr result (IsBodyStop p.now b before) }
    ensures lists { pool.new.lists ≡ pool.old.lists }
{
    let graph = build_graph(alloc, p, b)?;
    let region = pool.begin(alloc)?;
    let count = report_body(alloc, p, b, files, &graph, before, pool, &region, into);
    pool.release(region);
    count
}
