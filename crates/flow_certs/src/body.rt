//! The part of one body.

ghost use Rattle.std.specs.Prelude.{◌≡◌, ◌+◌, ◌<◌, ◌^◌, length, drop, IfOk, IfErr};
ghost use Rattle.rlc_base.specs.Codes.{stop_of};
ghost use Rattle.rlc_base.specs.declared.faults.Refusal.{Refusal as DeclaredRefusal};
ghost use Rattle.graph_limits.specs.ListedFields.{HasListedFields};
ghost use Rattle.java_cfg.specs.Contents.{arcs_of, nodes_of};
ghost use Rattle.java_cfg.specs.Graphs.{IsGraphOf};
ghost use Rattle.java_cfg.specs.Limits.{PassesLimit};
ghost use Rattle.body_origins.specs.Nodes.{AreNodes, FitsRows};
ghost use Rattle.body_origins.specs.Origins.{origins_of};
ghost use Rattle.body_origins.specs.WellFormed.{HasSmallInterests};
ghost use Rattle.flow_certs.specs.Causes.{IsFirstOpenLine, IsPartStop, refusal_at};
ghost use Rattle.flow_certs.specs.Certificates.{IsCertified};
ghost use Rattle.flow_certs.specs.Forms.{ArePairLines, AreSamePairs, lines_of, pairs_in};

use crate::births::have_births;
use crate::lists::read_pairs;
use crate::steps::{Listed, first_open};
use body_origins::all_origins;
use java_cfg::{Graph, build_graph};
use program_model::{BodyId, Program};
use rlc_base::{Code, Pos, Refusal, Stop};
use std::alloc::{AllocError, Global};

/// The refusal of a line of a file.
pub(crate) fn refused(code: Code, file: u32, line: u32) -> Stop
    ensures { result ≡ stop_of (refusal_at code file line) }
{
    let pos = Pos { file, line, col: 1 };
    Refusal { code, pos }.stop()
}

/// The number of the line behind a line and so many others.
pub(crate) fn line_behind(line: u32, count: usize) -> u32
    requires { line + 1 + count < 2 ^ 32 }
    ensures { result ≡ line + 1 + count }
{
    line + 1 + count as u32
}

// The first line of the part of a body at which its pairs are no certificate, where there is one. The line of the body has that number,
// and its pairs are those that the first lines of the text say.
fn open_line(
    alloc: Global,
    listed: &Listed,
    line: u32,
    count: usize,
    text: &[u8],
) -> Result<Option<u32>, AllocError>
    requires fits { FitsRows listed.now.program.now listed.now.body (arcs_of listed.now.graph.now) }
    requires nodes { AreNodes (arcs_of listed.now.graph.now) }
    requires long { length (arcs_of listed.now.graph.now) ≡ length (nodes_of listed.now.graph.now) }
    requires origins { listed.now.origins.now.keys ≡ origins_of listed.now.program.now listed.now.body (arcs_of listed.now.graph.now) }
    requires lines { count < length (lines_of text.now) }
    requires pairs { ArePairLines listed.now.program.now listed.now.body count (lines_of text.now) }
    requires same { AreSamePairs listed.now.pairs.now.keys (pairs_in listed.now.program.now listed.now.body count (lines_of text.now)) }
    requires room { line + length (lines_of text.now) < 2 ^ 32 }
    ensures { IfOk result (IsFirstOpenLine listed.now.program.now listed.now.body (arcs_of listed.now.graph.now) line (pairs_in listed.now.program.now listed.now.body count (lines_of text.now))) }
{
    let born = have_births(
        alloc,
        listed.program,
        listed.body,
        listed.graph,
        listed.origins,
        listed.pairs,
    )?;
    if !born {
        return Ok(Some(line));
    }
    match first_open(listed, count, text) {
        None => Ok(None),
        Some(place) => Ok(Some(line_behind(line, place))),
    }
}

// Whether the pairs are a certificate of a body with this graph, which passes no limit on controls and places. Answers what stands behind
// their lines.
fn check_over<'a>(
    alloc: Global,
    p: &Program,
    b: BodyId,
    graph: &Graph,
    file: u32,
    line: u32,
    count: usize,
    text: &'a [u8],
) -> Result<&'a [u8], Stop>
    requires fits { FitsRows p.now b (arcs_of graph.now) }
    requires graph { IsGraphOf p.now b (nodes_of graph.now) (arcs_of graph.now) }
    requires small { (r : DeclaredRefusal) → PassesLimit p.now b r → ⊥ }
    requires lines { count < length (lines_of text.now) }
    requires pairs { ArePairLines p.now b count (lines_of text.now) }
    requires room { line + length (lines_of text.now) < 2 ^ 32 }
    ensures certified { IfOk result (λ _. IsCertified p.now b (pairs_in p.now b count (lines_of text.now))) }
    ensures rest { IfOk result (λ r. lines_of r.now ≡ drop count (lines_of text.now)) }
    ensures cause { IfErr result (IsPartStop p.now file b line (pairs_in p.now b count (lines_of text.now))) }
{
    let origins = all_origins(alloc, p, b, graph)?;
    let listing = read_pairs(alloc, p, b, count, text)?;
    let listed = Listed {
        program: p,
        body: b,
        graph,
        origins: &origins,
        pairs: &listing.pairs,
    };
    let open = open_line(alloc, &listed, line, count, text)?;
    match open {
        None => Ok(listing.rest),
        Some(at) => Err(refused(Code::CertOpen, file, at)),
    }
}

/// Whether the pairs that the first lines of a text say, which stand behind the line of the body, are a certificate of the body. Answers
/// what stands behind these lines.
pub(crate) fn check_body<'a>(
    alloc: Global,
    p: &Program,
    b: BodyId,
    file: u32,
    line: u32,
    count: usize,
    text: &'a [u8],
) -> Result<&'a [u8], Stop>
    requires interests { HasSmallInterests p.now }
    requires fields { HasListedFields p.now }
    requires lines { count < length (lines_of text.now) }
    requires pairs { ArePairLines p.now b count (lines_of text.now) }
    requires room { line + length (lines_of text.now) < 2 ^ 32 }
    ensures certified { IfOk result (λ _. IsCertified p.now b (pairs_in p.now b count (lines_of text.now))) }
    ensures rest { IfOk result (λ r. lines_of r.now ≡ drop count (lines_of text.now)) }
    ensures cause { IfErr result (IsPartStop p.now file b line (pairs_in p.now b count (lines_of text.now))) }
{
    let graph = build_graph(alloc, p, b)?;
    check_over(alloc, p, b, &graph, file, line, count, text)
}
