//! The certificate of a program.

ghost use Rattle.std.specs.Prelude.{◌≡◌, ◌+◌, ◌<◌, ◌^◌, None, Some, length, IfOk, IfErr};
ghost use Rattle.graph_limits.specs.ListedFields.{HasListedFields};
ghost use Rattle.body_origins.specs.WellFormed.{HasSmallInterests};
ghost use Rattle.flow_certs.specs.declared.form.Stage.TheVariants as stages;
ghost use Rattle.flow_certs.specs.Causes.{IsCertificateStop, IsPartStop};
ghost use Rattle.flow_certs.specs.Certificates.{AreCertified, IsCertificate, IsCertified};
ghost use Rattle.flow_certs.specs.Forms.{behind_part, body_count, body_id, first_part, first_wrong, lines_of, pair_count, sections, wrong_from};

use crate::body::{check_body, line_behind, refused};
use crate::form::first_wrong;
use crate::line::said_count;
use crate::lists::next_line;
use program_model::{BodyId, Program};
use rlc_base::{Code, Stop};
use std::alloc::Global;

// Whether the part of a body, at whose line a text of the form stands, is a certificate of the body. Answers the number of the line behind
// the part, and the text from there on.
fn check_next<'a>(
    alloc: Global,
    p: &Program,
    file: u32,
    body: u32,
    line: u32,
    text: &'a [u8],
) -> Result<(u32, &'a [u8]), Stop>
    requires interests { HasSmallInterests p.now }
    requires fields { HasListedFields p.now }
    requires inside { body < body_count p.now }
    requires form { wrong_from p.now (Some (stages.Within body 0)) line (lines_of text.now) ≡ None }
    requires room { line + length (lines_of text.now) < 2 ^ 32 + 1 }
    ensures certified { IfOk result (λ _. IsCertified p.now (body_id body) (first_part p.now body line (lines_of text.now)).pairs) }
    ensures line { IfOk result (λ r. r.0 ≡ line + 1 + pair_count body (lines_of text.now)) }
    ensures rest { IfOk result (λ r. lines_of r.1.now ≡ behind_part body (lines_of text.now)) }
    ensures cause { IfErr result (IsPartStop p.now file (body_id body) line (first_part p.now body line (lines_of text.now)).pairs) }
{
    let (first, pairs) = next_line(text);
    let count = said_count(body, first);
    let rest = check_body(alloc, p, BodyId(body), file, line, count, pairs)?;
    Ok((line_behind(line, count), rest))
}

// Whether the parts of the bodies are certificates, in a text of the form.
fn check_bodies(alloc: Global, p: &Program, file: u32, bytes: &[u8]) -> Result<(), Stop>
    requires interests { HasSmallInterests p.now }
    requires fields { HasListedFields p.now }
    requires bodies { body_count p.now < 2 ^ 32 }
    requires fits { length bytes.now + 1 < 2 ^ 32 }
    requires form { first_wrong p.now bytes.now ≡ None }
    ensures certified { IfOk result (λ _. AreCertified p.now (sections p.now bytes.now) (body_count p.now)) }
    ensures cause { IfErr result (IsCertificateStop p.now file bytes.now) }
{
    let (_head, text) = next_line(bytes);
    let mut rest = text;
    let mut line = 2;
    'bodies: for body in 0..p.bodies.len() as u32 {
        let next = check_next(alloc, p, file, body, line, rest)?;
        line = next.0;
        rest = next.1;
    }
    Ok(())
}

/// Whether a text is a certificate of a program: the first line `rlc-cert 1`; for each body in order a line `body`, its number and how many
/// pairs follow, and a line for each pair; and the line `end`. A pair is the number of a node, that of an origin, the places that hold the
/// object, the mode, the numbers of the called names, and the need. The pairs of each body must have all births at reachable nodes, be
/// closed under the steps of the body's graph and the flow rules, and break none of them. Then no path through a body breaks a rule.
/// Reading a line takes no memory; the pairs of a body are given up when it is done.
///
/// # Errors
///
/// `Refused` with code 80 at the first line of the file with which no text of this form begins, or where each line begins one at the line
/// in which the text ends. Else for the first body with such a cause: `TooMuch` with code 63 or 64 at the place of its method, where it
/// passes a limit on controls and places, or `Refused` with code 81 at the body's line, where a birth is missing, and else at the line of
/// the first pair with a node or an origin that is none of the body's graph, or with a step that leads to what is not listed or breaks a
/// rule. `NoMemory` where memory runs out, for which 4,294,967,296 bodies or more count too.
pub fn check_cert(alloc: Global, p: &Program, file: u32, bytes: &[u8]) -> Result<(), Stop>
    requires interests { HasSmallInterests p.now }
    requires fields { HasListedFields p.now }
    requires fits { length bytes.now + 1 < 2 ^ 32 }
    ensures certificate { IfOk result (λ _. IsCertificate p.now bytes.now) }
    ensures cause { IfErr result (IsCertificateStop p.now file bytes.now) }
{
    if p.bodies.len() > u32::MAX as usize {
        return Err(Stop::NoMemory);
    }
    match first_wrong(p, bytes) {
        Some(line) => Err(refused(Code::BadCert, file, line)),
        None => check_bodies(alloc, p, file, bytes),
    }
}
