//! Whole paths.

ghost use Rattle.std.specs.Prelude.{◌≡◌, ◌↔◌, IsTrue, length};
ghost use Rattle.java_cfg.specs.Contents.{arcs_of, nodes_of};
ghost use Rattle.java_cfg.specs.Graphs.{IsGraphOf};
ghost use Rattle.obligation_paths.specs.Nodes.{FitsRows, arcs_at};
ghost use Rattle.obligation_paths.specs.Paths.{IsToldPathTo};
ghost use Rattle.fault_paths.specs.Paths.{IsFaultPath, fault_of};
ghost use Rattle.fault_paths.specs.Tests.{breaks, goes_on, goes_to, leads};

use crate::rows::{can_break, can_lead};
use crate::steps::can_enter;
use fault_order::FaultAt;
use flow_rules::PathStep;
use java_cfg::{Arc, Graph};
use java_control::Origin;
use leak_report::Report;
use program_model::{BodyId, Program};

// The arcs of a node; none for a number that names no node.
fn arcs_at(graph: &Graph, node: u32) -> &[Arc]
    requires long { length (arcs_of graph.now) ≡ length (nodes_of graph.now) }
    ensures { result.now ≡ arcs_at (arcs_of graph.now) node }
{
    if node < graph.nodes() {
        graph.arcs(node)
    } else {
        &[]
    }
}

// Whether some arc of the step's node leads to the next step.
fn leads(
    p: &Program,
    b: BodyId,
    graph: &Graph,
    origin: &Origin,
    step: &PathStep,
    next: &PathStep,
) -> bool
    requires fits { FitsRows p.now b (arcs_of graph.now) }
    requires long { length (arcs_of graph.now) ≡ length (nodes_of graph.now) }
    ensures { result ≡ leads p.now b (arcs_of graph.now) origin.now step.now next.now }
{
    can_lead(p, b, arcs_at(graph, step.node), origin, step, next)
}

// Whether the step by some arc of its node breaks the rule of the fault.
fn breaks(p: &Program, b: BodyId, graph: &Graph, fault: &FaultAt, step: &PathStep) -> bool
    requires fits { FitsRows p.now b (arcs_of graph.now) }
    requires long { length (arcs_of graph.now) ≡ length (nodes_of graph.now) }
    ensures { result ≡ breaks p.now b (arcs_of graph.now) fault.now step.now }
{
    can_break(p, b, arcs_at(graph, step.node), fault, step)
}

// Whether each step leads to the next one, and the last one breaks the rule of the fault.
fn goes_on(
    p: &Program,
    b: BodyId,
    graph: &Graph,
    fault: &FaultAt,
    first: &PathStep,
    others: &[PathStep],
) -> bool
    requires fits { FitsRows p.now b (arcs_of graph.now) }
    requires long { length (arcs_of graph.now) ≡ length (nodes_of graph.now) }
    ensures { result ≡ goes_on p.now b (arcs_of graph.now) fault.now first.now others.now }
{
    let mut step = first;
    let mut rest = others;
    'each: while let [next, after @ ..] = rest {
        if !leads(p, b, graph, &fault.origin, step, next) {
            return false;
        }
        step = next;
        rest = after;
    }
    breaks(p, b, graph, fault, step)
}

// Whether the steps go from the entry of the body to the fault, by the rows of its graph.
fn goes_to(p: &Program, b: BodyId, graph: &Graph, fault: &FaultAt, steps: &[PathStep]) -> bool
    requires fits { FitsRows p.now b (arcs_of graph.now) }
    requires long { length (arcs_of graph.now) ≡ length (nodes_of graph.now) }
    ensures { result ≡ goes_to p.now b (arcs_of graph.now) fault.now steps.now }
{
    let [first, rest @ ..] = steps else {
        return false;
    };
    first.node == 0
        && can_enter(p, b, &fault.origin, first.fact)
        && goes_on(p, b, graph, fault, first, rest)
}

/// Whether these steps tell a path to the fault: a path of the fault's origin from the entry of the body, by the numbers of the
/// nodes of its graph, whose last step breaks the rule of the fault at its place, with no missing name that the fault lacks. The
/// facts of the steps carry one number of the origin, whichever it is. It takes no memory.
pub fn is_fault_path(
    p: &Program,
    b: BodyId,
    graph: &Graph,
    fault: &FaultAt,
    steps: &[PathStep],
) -> bool
    requires fits { FitsRows p.now b (arcs_of graph.now) }
    requires graph { IsGraphOf p.now b (nodes_of graph.now) (arcs_of graph.now) }
    ensures path { IsTrue result ↔ IsFaultPath p.now b (nodes_of graph.now) fault.now steps.now }
    ensures shortest { IsToldPathTo p.now b (nodes_of graph.now) fault.now steps.now → IsTrue result }
{
    goes_to(p, b, graph, fault, steps)
}

/// Whether the path of a report is one to its fault, as `is_fault_path` says. It takes no memory.
pub fn is_path(p: &Program, b: BodyId, graph: &Graph, report: &Report) -> bool
    requires fits { FitsRows p.now b (arcs_of graph.now) }
    requires graph { IsGraphOf p.now b (nodes_of graph.now) (arcs_of graph.now) }
    ensures path { IsTrue result ↔ IsFaultPath p.now b (nodes_of graph.now) (fault_of report.now) report.now.path.items }
    ensures shortest { IsToldPathTo p.now b (nodes_of graph.now) (fault_of report.now) report.now.path.items → IsTrue result }
{
    let fault = FaultAt {
        rule: report.rule,
        at: report.at,
        origin: report.origin,
        missing: report.missing,
    };
    is_fault_path(p, b, graph, &fault, &report.path)
}
