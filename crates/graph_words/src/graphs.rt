// The answer on a body.

ghost use Rattle.std.specs.Prelude.{◌≡◌, IfOk, Some, length};
ghost use Rattle.java_cfg.specs.Contents.{arcs_of, nodes_of};
ghost use Rattle.program_model.specs.Lookups.{body_at};
ghost use Rattle.graph_words.specs.Answers.{IsAnswer, refusal_line};
ghost use Rattle.graph_words.specs.Arcs.{graph_lines};

use crate::arcs::put_graph;
use java_cfg::{Graph, build_graph};
use program_model::{Body, BodyId, Program};
use program_texts::{put_line, put_number};
use rlc_base::{NoMemory, Refusal, Stop, Text};
use std::alloc::Global;

/// The line of a refusal: its code, and the line and the column of its place.
pub fn refusal_text(alloc: Global, refusal: Refusal) -> Result<Text, NoMemory>
    ensures { IfOk result (λ text. text ≡ refusal_line refusal) }
{
    let mut text = Text::new(alloc);
    put_number(alloc, u64::from(refusal.code.number()), &mut text)?;
    text.push_bytes(b" ")?;
    put_line(alloc, refusal.pos, &mut text)?;
    text.push_bytes(b"\n")?;
    Ok(text)
}

fn graph_text(
    alloc: Global,
    p: &Program,
    body: &Body,
    with_arcs: bool,
    graph: &Graph,
) -> Result<Text, NoMemory>
    ensures { IfOk result (λ text. text ≡ graph_lines p.now body.now with_arcs (arcs_of graph.now) (length (nodes_of graph.now))) }
{
    let mut text = Text::new(alloc);
    put_graph(alloc, p, body, with_arcs, graph, &mut text)?;
    Ok(text)
}

// The answer on the body with a number.
fn body_answer(
    alloc: Global,
    p: &Program,
    body: &Body,
    number: BodyId,
    with_arcs: bool,
) -> Result<Text, NoMemory>
    requires { body_at p.now number ≡ Some body.now }
    ensures { IfOk result (IsAnswer p.now number with_arcs) }
{
    match build_graph(alloc, p, number) {
        Ok(graph) => graph_text(alloc, p, body, with_arcs, &graph),
        Err(Stop::TooMuch(refusal)) => refusal_text(alloc, refusal),
        Err(Stop::Refused(refusal)) => refusal_text(alloc, refusal),
        Err(Stop::NoMemory) => Err(NoMemory),
    }
}

/// The graph of a body in words: the line `N nodes, M arcs`, and behind it, where they are asked for, its arcs, in the order of
/// their nodes and of the steps of each; or the line of the refusal where the body has no graph. A number of no body gives no line.
pub fn graph_answer(
    alloc: Global,
    p: &Program,
    number: BodyId,
    with_arcs: bool,
) -> Result<Text, NoMemory>
    ensures { IfOk result (IsAnswer p.now number with_arcs) }
{
    match p.body(number) {
        None => Ok(Text::new(alloc)),
        Some(body) => body_answer(alloc, p, body, number, with_arcs),
    }
}
