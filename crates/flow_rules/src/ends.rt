//! What the end of a body makes of a fact.

ghost use Rattle.std.specs.Prelude.{◌≡◌};
ghost use Rattle.flow_rules.specs.Ends.{after_return, alias_never_returned, constructor_throws, ended, exit_rule, is_throw, left_at_end, missing_at_return, moved_away, promise_at_end};
ghost use Rattle.control_actions.specs.declared.action.Action.TheVariants as actions;
ghost use Rattle.obligation_facts.specs.SmallActions.{IsSmallAction};
ghost use Rattle.ownership_rules.specs.Room.{HasRoom};

use called_methods::ensures_at;
use java_control::{Action, Completion, Fact, Origin, Outcome, Rule};
use must_call_sets::{alias_position, beyond_type, is_constructor, is_heavy_class, must};
use obligation_facts::{has_field, is_alias, is_held, is_met, is_origin_at, missing, owes};
use ownership_rules::{Moved, move_at_return, result_type};
use program_model::{BodyId, Program};
use rlc_base::NameSet;

fn is_throw(completion: Completion) -> bool
    ensures { result ≡ is_throw completion }
{
    match completion {
        Completion::Throw(_, _, _) => true,
        _ => false,
    }
}

// Whether the aliased argument is not returned: in a constructor it must be kept in an owning field.
fn alias_never_returned(
    p: &Program,
    b: BodyId,
    origin: &Origin,
    completion: Completion,
    fact: &Fact,
) -> bool
    ensures { result ≡ alias_never_returned p.now b origin.now completion fact.now }
{
    !is_throw(completion)
        && is_origin_at(origin.kind, alias_position(p, b))
        && is_heavy_class(p, origin.class)
        && !(is_constructor(p, b) && has_field(fact.places))
}

// Whether a constructor throws, and what its object owns has its obligation open.
fn constructor_throws(
    p: &Program,
    b: BodyId,
    origin: &Origin,
    completion: Completion,
    fact: &Fact,
) -> bool
    ensures { result ≡ constructor_throws p.now b origin.now completion fact.now }
{
    is_throw(completion)
        && is_constructor(p, b)
        && is_held(fact.mode)
        && !is_met(origin, fact)
        && !is_origin_at(origin.kind, alias_position(p, b))
}

fn promise_at_end(broken: Option<NameSet>) -> Outcome
    ensures { result ≡ promise_at_end broken }
{
    match broken {
        None => Outcome::Gone,
        Some(names) => Outcome::Fault(Rule::Ensures, names),
    }
}

fn exit_rule(completion: Completion) -> Rule
    ensures { result ≡ exit_rule completion }
{
    if is_throw(completion) {
        Rule::Throw
    } else {
        Rule::Exit
    }
}

// The rules of an end, the first that is broken.
fn left_at_end(
    p: &Program,
    b: BodyId,
    origin: &Origin,
    completion: Completion,
    fact: &Fact,
) -> Outcome
    requires { HasRoom p.now b }
    ensures { result ≡ left_at_end p.now b origin.now completion fact.now }
{
    if alias_never_returned(p, b, origin, completion, fact) {
        Outcome::Fault(Rule::AliasKept, must(p, origin.class))
    } else if owes(origin, fact) {
        Outcome::Fault(exit_rule(completion), missing(origin, fact))
    } else if constructor_throws(p, b, origin, completion, fact) {
        Outcome::Fault(Rule::CtorThrow, missing(origin, fact))
    } else {
        promise_at_end(ensures_at(p, b, origin, Action::End(completion), fact))
    }
}

// What a rule on the result tells as missing.
fn missing_at_return(p: &Program, b: BodyId, origin: &Origin, rule: Rule) -> NameSet
    ensures { result ≡ missing_at_return p.now b origin.now rule }
{
    match rule {
        Rule::Narrow => beyond_type(p, origin.class, result_type(p, b)),
        _ => must(p, origin.class),
    }
}

// The result has moved. Where it is an alias, the caller believes what the method promises of what it is an alias of.
fn moved_away(
    p: &Program,
    b: BodyId,
    origin: &Origin,
    completion: Completion,
    fact: &Fact,
) -> Outcome
    requires { HasRoom p.now b }
    ensures { result ≡ moved_away p.now b origin.now completion fact.now }
{
    if is_alias(fact.mode) {
        promise_at_end(ensures_at(p, b, origin, Action::End(completion), fact))
    } else {
        Outcome::Gone
    }
}

fn after_return(
    p: &Program,
    b: BodyId,
    origin: &Origin,
    completion: Completion,
    fact: &Fact,
    moved: Moved,
) -> Outcome
    requires { HasRoom p.now b }
    ensures { result ≡ after_return p.now b origin.now completion fact.now moved }
{
    match moved {
        Moved::Stays => left_at_end(p, b, origin, completion, fact),
        Moved::Moves => moved_away(p, b, origin, completion, fact),
        Moved::Bad(rule) => Outcome::Fault(rule, missing_at_return(p, b, origin, rule)),
    }
}

/// What the end of a body makes of a fact: first the result moves, and then the rules of an end hold.
pub(crate) fn ended(
    p: &Program,
    b: BodyId,
    origin: &Origin,
    completion: Completion,
    fact: &Fact,
) -> Outcome
    requires small { IsSmallAction p.now (actions.End completion) }
    requires room { HasRoom p.now b }
    ensures { result ≡ ended p.now b origin.now completion fact.now }
{
    let moved = move_at_return(p, b, origin, Action::End(completion), fact);
    after_return(p, b, origin, completion, fact, moved)
}
