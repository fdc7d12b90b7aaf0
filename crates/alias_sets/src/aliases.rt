//! What a call makes of the places that hold an object.

ghost use Rattle.std.specs.Prelude.{◌≡◌, ◌<◌};
ghost use Rattle.obligation_facts.specs.Callees.{callee};
ghost use Rattle.obligation_facts.specs.SmallActions.{IsSmallAction};
ghost use Rattle.must_call_sets.specs.Bodies.{alias_in};
ghost use Rattle.alias_sets.specs.Aliases.{called_places, gives_alias, without_operands, without_reset};

use control_actions::{Action, Edge, Place, Places, is_reset_of_this};
use obligation_facts::{callee, holds_operand, without_parts, without_temps};
use program_model::Program;

// The position whose resource the result of the call is an alias of.
fn alias_of_call(p: &Program, action: Action) -> Option<u32>
    ensures { result ≡ alias_in (callee p.now action) }
{
    match callee(p, action) {
        None => None,
        Some(method) => method.sig.alias,
    }
}

// The operand whose resource the result of the call is an alias of is among these places.
fn holds_aliased(p: &Program, action: Action, held: Places) -> bool
    requires { IsSmallAction p.now action }
    ensures { result ≡ gives_alias p.now action Edge.Go held }
{
    match alias_of_call(p, action) {
        None => false,
        Some(position) => holds_operand(p, action, held, position),
    }
}

fn gives_alias(p: &Program, action: Action, edge: Edge, held: Places) -> bool
    requires { IsSmallAction p.now action }
    ensures { result ≡ gives_alias p.now action edge held }
{
    match edge {
        Edge::Go => holds_aliased(p, action, held),
        _ => false,
    }
}

fn without_operands(p: &Program, action: Action, held: Places) -> Places
    requires { IsSmallAction p.now action }
    ensures { result ≡ without_operands action held }
{
    match action {
        Action::Call(_, d, n, _) => without_temps(held, d, n).without(Place::Temp(d)),
        Action::New(_, d, n) => without_temps(held, d + 1, n).without(Place::Temp(d)),
        Action::Super(_, d, n) => without_temps(held, d, n).without(Place::Temp(d)),
        _ => held,
    }
}

// A call that creates the obligation of `this` anew leaves nothing of what was held in its fields.
fn without_reset(p: &Program, action: Action, held: Places) -> Places
    ensures { result ≡ without_reset p.now action held }
{
    if is_reset_of_this(p, action) {
        without_parts(held)
    } else {
        held
    }
}

// The places after a call whose result is in the temp of depth `d`.
pub(crate) fn called_places(p: &Program, action: Action, d: u32, edge: Edge, held: Places) -> Places
    requires action { IsSmallAction p.now action }
    requires depth { d < 64 }
    ensures { result ≡ called_places p.now action d edge held }
{
    let left = without_operands(p, action, without_reset(p, action, held));
    if gives_alias(p, action, edge, held) {
        left.with(Place::Temp(d))
    } else {
        left
    }
}
