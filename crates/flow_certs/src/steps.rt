//! Whether the steps of a pair lead to pairs of a certificate.

ghost use Rattle.std.specs.Prelude.{◌≡◌, ◌<◌, ◌↔◌, ℕ, length, IsTrue, IfSome};
ghost use Rattle.breadth_first.specs.Searches.{IsAt};
ghost use Rattle.java_cfg.specs.Contents.{arcs_of, nodes_of};
ghost use Rattle.java_cfg.specs.declared.arc.Arc.{Arc as DeclaredArc};
ghost use Rattle.java_cfg.specs.SmallActions.{IsSmallAction};
ghost use Rattle.body_origins.specs.Flow.{flow};
ghost use Rattle.body_origins.specs.Nodes.{FitsRows};
ghost use Rattle.body_origins.specs.Origins.{origins_of};
ghost use Rattle.body_origins.specs.Room.{HasRoom};
ghost use Rattle.body_origins.specs.WellFormed.{HasSmallInterests};
ghost use Rattle.flow_certs.specs.Certificates.{IsClosed, IsListed};
ghost use Rattle.flow_certs.specs.Forms.{ArePairLines, lines_of, pairs_in};
ghost use Rattle.flow_certs.specs.Lines.{pair_in};
ghost use Rattle.flow_certs.specs.Listings.{AreStepsListed, IsFirstOpen};

use crate::line::pair_in;
use crate::lists::next_line;
use crate::pair::Pair;
use crate::sets::is_among;
use body_origins::flow;
use control_actions::{Fact, Origin, Outcome};
use indexmap::IndexSet;
use java_cfg::{Arc, Graph};
use program_model::{BodyId, Program};

/// A body of a program with its graph, its origins, and the pairs that a certificate lists for it.
#[derive(Drop)]
pub(crate) struct Listed<'a> {
    pub program: &'a Program,
    pub body: BodyId,
    pub graph: &'a Graph,
    pub origins: &'a IndexSet<Origin>,
    pub pairs: &'a IndexSet<Pair>,
}

// Whether what a step makes of a fact is among the pairs, and no rule is broken.
fn is_listed(pairs: &IndexSet<Pair>, node: u32, origin: usize, outcome: Outcome) -> bool
    ensures { IsTrue result ↔ IsListed pairs.now.keys node origin outcome }
{
    match outcome {
        Outcome::Next(fact) => {
            let pair = Pair {
                node: node as usize,
                origin,
                fact,
            };
            is_among(pairs, &pair)
        }
        Outcome::Gone => true,
        Outcome::Fault(_, _) => false,
    }
}

// Whether what each arc of a row makes of a fact of the origin is among the pairs.
fn are_steps_listed(
    p: &Program,
    b: BodyId,
    pairs: &IndexSet<Pair>,
    row: &[Arc],
    number: usize,
    origin: &Origin,
    fact: &Fact,
) -> bool
    requires room { HasRoom p.now b }
    requires interests { HasSmallInterests p.now }
    requires small { (i : ℕ) (a : DeclaredArc) → IsAt row.now i a → IsSmallAction p.now a.action }
    ensures { IsTrue result ↔ AreStepsListed p.now b pairs.now.keys row.now number origin.now fact.now }
{
    'arcs: for arc in row {
        let outcome = flow(p, b, origin, arc.action, arc.edge, fact);
        let listed = is_listed(pairs, arc.to, number, outcome);
        if !listed {
            return false;
        }
    }
    true
}

// Whether a pair is one of the body's graph, and its steps lead to pairs.
fn is_closed(listed: &Listed, pair: &Pair) -> bool
    requires fits { FitsRows listed.now.program.now listed.now.body (arcs_of listed.now.graph.now) }
    requires long { length (arcs_of listed.now.graph.now) ≡ length (nodes_of listed.now.graph.now) }
    requires origins { listed.now.origins.now.keys ≡ origins_of listed.now.program.now listed.now.body (arcs_of listed.now.graph.now) }
    ensures { IsTrue result ↔ IsClosed listed.now.program.now listed.now.body (arcs_of listed.now.graph.now) listed.now.pairs.now.keys pair.now }
{
    if pair.node >= listed.graph.nodes() as usize {
        return false;
    }
    match listed.origins.get_index(pair.origin) {
        None => false,
        Some(origin) => are_steps_listed(
            listed.program,
            listed.body,
            listed.pairs,
            listed.graph.arcs(pair.node as u32),
            pair.origin,
            origin,
            &pair.fact,
        ),
    }
}

// Whether the pair that a line says is closed.
fn is_line_closed(listed: &Listed, line: &[u8]) -> bool
    requires fits { FitsRows listed.now.program.now listed.now.body (arcs_of listed.now.graph.now) }
    requires long { length (arcs_of listed.now.graph.now) ≡ length (nodes_of listed.now.graph.now) }
    requires origins { listed.now.origins.now.keys ≡ origins_of listed.now.program.now listed.now.body (arcs_of listed.now.graph.now) }
    ensures { IsTrue result ↔ IfSome (pair_in listed.now.program.now listed.now.body line.now) (IsClosed listed.now.program.now listed.now.body (arcs_of listed.now.graph.now) listed.now.pairs.now.keys) }
{
    match pair_in(listed.program, listed.body, line) {
        None => true,
        Some(pair) => is_closed(listed, &pair),
    }
}

/// The place of the first pair that is not closed, among the pairs that the first lines of a text say.
pub(crate) fn first_open(listed: &Listed, count: usize, text: &[u8]) -> Option<usize>
    requires fits { FitsRows listed.now.program.now listed.now.body (arcs_of listed.now.graph.now) }
    requires long { length (arcs_of listed.now.graph.now) ≡ length (nodes_of listed.now.graph.now) }
    requires origins { listed.now.origins.now.keys ≡ origins_of listed.now.program.now listed.now.body (arcs_of listed.now.graph.now) }
    requires lines { count < length (lines_of text.now) }
    requires pairs { ArePairLines listed.now.program.now listed.now.body count (lines_of text.now) }
    ensures { IsFirstOpen listed.now.program.now listed.now.body (arcs_of listed.now.graph.now) listed.now.pairs.now.keys
        (pairs_in listed.now.program.now listed.now.body count (lines_of text.now)) result }
{
    let mut rest = text;
    'lines: for place in 0..count {
        let (line, more) = next_line(rest);
        let closed = is_line_closed(listed, line);
        if !closed {
            return Some(place);
        }
        rest = more;
    }
    None
}
