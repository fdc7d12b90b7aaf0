//! What a call makes of a fact, but for its places: the steps in their order.

ghost use Rattle.std.specs.Prelude.{◌≡◌};
ghost use Rattle.must_call_sets.specs.WellFormed.{HasSmallInterests};
ghost use Rattle.flow_rules.specs.Calls.{after_move, after_reset, anew, at_move, at_reset, called, given_away, missing_at_call, with_called};
ghost use Rattle.obligation_facts.specs.SmallActions.{IsSmallAction};
ghost use Rattle.ownership_rules.specs.Room.{HasRoom};

use called_methods::{called_step, precondition};
use java_control::{Action, Edge, Fact, Mode, Origin, Outcome, Rule};
use must_call_reset::{ResetMove, reset_step};
use must_call_sets::{beyond_type, must};
use obligation_facts::missing;
use ownership_rules::{Moved, move_at_call, owner_type};
use program_model::{BodyId, Program};
use rlc_base::NameSet;

// The obligation is created anew: all that the class asks for must be called, and nothing was.
fn anew(fact: &Fact) -> Fact
    ensures { result ≡ anew fact.now }
{
    Fact {
        origin: fact.origin,
        places: fact.places,
        mode: fact.mode,
        called: NameSet::empty(),
        full: true,
    }
}

pub(crate) fn with_called(fact: &Fact, called: NameSet) -> Fact
    ensures { result ≡ with_called fact.now called }
{
    Fact {
        origin: fact.origin,
        places: fact.places,
        mode: fact.mode,
        called,
        full: fact.full,
    }
}

// Another owns the object from now on.
fn given_away(fact: &Fact) -> Fact
    ensures { result ≡ given_away fact.now }
{
    Fact {
        origin: fact.origin,
        places: fact.places,
        mode: Mode::None,
        called: NameSet::empty(),
        full: fact.full,
    }
}

fn after_reset(p: &Program, origin: &Origin, fact: &Fact, reset: ResetMove) -> Outcome
    ensures { result ≡ after_reset p.now origin.now fact.now reset }
{
    match reset {
        ResetMove::Untouched => Outcome::Next(*fact),
        ResetMove::Emptied => Outcome::Next(anew(fact)),
        ResetMove::Bad(rule) => Outcome::Fault(rule, must(p, origin.class)),
    }
}

// The reset of the call's signature.
fn at_reset(p: &Program, b: BodyId, origin: &Origin, action: Action, fact: &Fact) -> Outcome
    requires { IsSmallAction p.now action }
    ensures { result ≡ at_reset p.now b origin.now action fact.now }
{
    after_reset(p, origin, fact, reset_step(p, b, origin, action, fact))
}

// The call counts for its name, and its promises hold.
fn after_move(
    p: &Program,
    b: BodyId,
    origin: &Origin,
    action: Action,
    edge: Edge,
    fact: &Fact,
) -> Outcome
    requires small { IsSmallAction p.now action }
    requires room { HasRoom p.now b }
    requires interests { HasSmallInterests p.now }
    ensures { result ≡ after_move p.now b origin.now action edge fact.now }
{
    let named = with_called(fact, called_step(p, b, action, edge, fact));
    at_reset(p, b, origin, action, &named)
}

// What a rule on the arguments tells as missing.
fn missing_at_call(p: &Program, origin: &Origin, action: Action, fact: &Fact, rule: Rule) -> NameSet
    requires { IsSmallAction p.now action }
    ensures { result ≡ missing_at_call p.now origin.now action fact.now rule }
{
    match rule {
        Rule::Narrow => beyond_type(p, origin.class, owner_type(p, action, fact.places)),
        Rule::Throw => missing(origin, fact),
        _ => must(p, origin.class),
    }
}

// An owned argument moves at the start of the call.
fn at_move(
    p: &Program,
    b: BodyId,
    origin: &Origin,
    action: Action,
    edge: Edge,
    fact: &Fact,
    moved: Moved,
) -> Outcome
    requires small { IsSmallAction p.now action }
    requires room { HasRoom p.now b }
    requires interests { HasSmallInterests p.now }
    ensures { result ≡ at_move p.now b origin.now action edge fact.now moved }
{
    match moved {
        Moved::Stays => after_move(p, b, origin, action, edge, fact),
        Moved::Moves => after_move(p, b, origin, action, edge, &given_away(fact)),
        Moved::Bad(rule) => Outcome::Fault(rule, missing_at_call(p, origin, action, fact, rule)),
    }
}

/// What a call makes of a fact, but for its places: first what must have been called before, then the move of an owned
/// argument, then the called names, and then the reset.
pub(crate) fn called(
    p: &Program,
    b: BodyId,
    origin: &Origin,
    action: Action,
    edge: Edge,
    fact: &Fact,
) -> Outcome
    requires small { IsSmallAction p.now action }
    requires room { HasRoom p.now b }
    requires interests { HasSmallInterests p.now }
    ensures { result ≡ called p.now b origin.now action edge fact.now }
{
    match precondition(p, action, fact) {
        None => {
            let moved = move_at_call(p, origin, action, edge, fact);
            at_move(p, b, origin, action, edge, fact, moved)
        }
        Some(names) => Outcome::Fault(Rule::CalledMissing, names),
    }
}
