//! The choice of a method or constructor.

ghost use Rattle.std.specs.Prelude.{◌≡◌, IfOk};
ghost use Rattle.java_overloads.specs.Overloads.{choice_among, choice_in, choice_of};
ghost use Rattle.java_overloads.specs.MostSpecific.{IsChoice};

use crate::applicable::applicable;
use crate::specific::{most_specific, preferred};
use program_model::{MethodId, Program, VType};
use rlc_base::NoMemory;
use std::alloc::Global;

/// What overload resolution finds.
#[derive(Clone, Copy, Debug, PartialEq, Eq)]
pub enum Choice {
    /// No method is applicable.
    NotApplicable,
    /// Several are applicable, and none is the most specific.
    NotSpecific,
    Chosen(MethodId),
}

fn choice_in(found: Option<MethodId>) -> Choice
    ensures { result ≡ choice_in found }
{
    match found {
        None => Choice::NotSpecific,
        Some(method) => Choice::Chosen(method),
    }
}

/// Which of these applicable methods or constructors is meant: the most specific (JLS 15.12.2.5), if there is one. Of several
/// with one list of parameter types it is one whose result is a subtype of all others' results: the first whose throws clause is
/// the least, else the first.
pub fn choice_among(alloc: Global, p: &Program, all: &[MethodId]) -> Result<Choice, NoMemory>
    ensures { IfOk result (λ x. x ≡ choice_among p.now all.now) }
{
    if all.is_empty() {
        Ok(Choice::NotApplicable)
    } else {
        let best = most_specific(alloc, p, all)?;
        Ok(choice_in(preferred(p, &best)))
    }
}

/// Which of these methods or constructors a call with arguments of these types means: the most specific (JLS 15.12.2.5) of
/// those that are applicable by strict invocation (JLS 15.12.2.2). Of several with one list of parameter types it is one
/// whose result is a subtype of all others' results: the first whose throws clause is the least, else the first. The
/// candidates are members of one class, as it inherits them, or its constructors.
#[tactic(auto, using(crate::proofs::ChoiceLaws::choice_is_choice))]
pub fn choose(
    alloc: Global,
    p: &Program,
    candidates: &[MethodId],
    arguments: &[VType],
) -> Result<Choice, NoMemory>
    ensures computes { IfOk result (λ x. x ≡ choice_of p.now candidates.now arguments.now) }
    ensures rule { IfOk result (λ x. IsChoice p.now candidates.now arguments.now x) }
{
    let found = applicable(alloc, p, candidates, arguments)?;
    choice_among(alloc, p, &found)
}
