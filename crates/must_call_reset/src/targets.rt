//! What a call that creates an obligation anew makes of what is known of its target.

ghost use Rattle.std.specs.Prelude.{◌≡◌};
ghost use Rattle.obligation_facts.specs.Callees.{callee};
ghost use Rattle.obligation_facts.specs.SmallActions.{IsSmallAction};
ghost use Rattle.must_call_reset.specs.Resets.{is_bad_target, is_hidden_this, is_partial_constructor, is_partial_object, is_this_reset, is_unannounced, is_unanswered, reset_at, reset_of, reset_target};
ghost use Rattle.must_call_sets.specs.Bodies.{reset_in};

use crate::reset_move::ResetMove;
use control_actions::{Action, Fact, Mode, Origin, Rule};
use must_call_sets::{
    alias_position, is_alias_constructor, is_constructor, is_extended_constructor, is_heavy_class,
    resets_this,
};
use obligation_facts::{
    callee, holds_operand, is_held, is_lent, is_origin_at, is_this_origin, is_this_target,
};
use program_model::{BodyId, Program};

// Whether nobody of this body answers for the object's obligation.
fn is_unanswered(mode: Mode, is_heavy: bool) -> bool
    ensures { result ≡ is_unanswered mode is_heavy }
{
    match mode {
        Mode::Own => !is_heavy,
        Mode::None => true,
        Mode::Held => !is_heavy,
        Mode::Lent => false,
        Mode::Alias => true,
    }
}

// Whether the constructor has not the whole of its object.
fn is_partial_constructor(p: &Program, b: BodyId) -> bool
    ensures { result ≡ is_partial_constructor p.now b }
{
    is_alias_constructor(p, b) || is_extended_constructor(p, b)
}

// Whether it is the object that such a constructor makes.
fn is_partial_object(p: &Program, b: BodyId, origin: &Origin, fact: &Fact) -> bool
    ensures { result ≡ is_partial_object p.now b origin.now fact.now }
{
    is_partial_constructor(p, b)
        && (is_lent(fact.mode) || is_held(fact.mode) && is_this_origin(origin.kind))
}

// Whether the target is `this`, written or implied.
fn is_this_reset(action: Action, position: u32) -> bool
    ensures { result ≡ is_this_reset action position }
{
    position == 0 && is_this_target(action)
}

// Whether `this` is reset under another name.
fn is_hidden_this(action: Action, position: u32, origin: &Origin) -> bool
    ensures { result ≡ is_hidden_this action position origin.now }
{
    is_this_origin(origin.kind) && !is_this_reset(action, position)
}

fn is_bad_target(
    p: &Program,
    b: BodyId,
    origin: &Origin,
    action: Action,
    position: u32,
    fact: &Fact,
) -> bool
    ensures { result ≡ is_bad_target p.now b origin.now action position fact.now }
{
    is_unanswered(fact.mode, is_heavy_class(p, origin.class))
        || is_origin_at(origin.kind, alias_position(p, b))
        || is_partial_object(p, b, origin, fact)
        || is_hidden_this(action, position, origin)
}

// Whether what a field holds is reset in a method that does not say so.
fn is_unannounced(p: &Program, b: BodyId, fact: &Fact) -> bool
    ensures { result ≡ is_unannounced p.now b fact.now }
{
    is_held(fact.mode) && !(is_constructor(p, b) || resets_this(p, b))
}

// The object is the target, at this position.
fn reset_target(
    p: &Program,
    b: BodyId,
    origin: &Origin,
    action: Action,
    position: u32,
    fact: &Fact,
) -> ResetMove
    ensures { result ≡ reset_target p.now b origin.now action position fact.now }
{
    if is_bad_target(p, b, origin, action, position, fact) {
        ResetMove::Bad(Rule::ResetNotOwned)
    } else if is_unannounced(p, b, fact) {
        ResetMove::Bad(Rule::ResetMissing)
    } else {
        ResetMove::Emptied
    }
}

// The position whose obligation the call's signature creates anew.
fn reset_position(p: &Program, action: Action) -> Option<u32>
    ensures { result ≡ reset_in (callee p.now action) }
{
    match callee(p, action) {
        None => None,
        Some(method) => method.sig.reset,
    }
}

/// What the reset of a call's signature makes of a fact (Checker Framework manual, Resource Leak Checker, "Creating
/// obligations"). An action that calls nothing resets nothing. The places that the action names have room in a set of
/// places.
pub fn reset_step(p: &Program, b: BodyId, origin: &Origin, action: Action, fact: &Fact) -> ResetMove
    requires { IsSmallAction p.now action }
    ensures { result ≡ reset_of p.now b origin.now action fact.now }
{
    match reset_position(p, action) {
        None => ResetMove::Untouched,
        Some(position) => {
            if holds_operand(p, action, fact.places, position) {
                reset_target(p, b, origin, action, position, fact)
            } else {
                ResetMove::Untouched
            }
        }
    }
}
