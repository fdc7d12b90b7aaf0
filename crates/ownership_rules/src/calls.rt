//! What a call makes of the obligations of its arguments.

ghost use Rattle.std.specs.Prelude.{◌≡◌, length};
ghost use Rattle.obligation_facts.specs.Callees.{callee};
ghost use Rattle.obligation_facts.specs.SmallActions.{IsSmallAction};
ghost use Rattle.ownership_rules.specs.Heavy.{is_owned};
ghost use Rattle.ownership_rules.specs.MovesAtCalls.{are_two, first_of, has_two_owners, is_heavy_owner, is_heavy_target, moved_at_call, moved_to, moves_at, owners, owners_from, owners_in, takes, target, target_at, target_in};

use crate::moved::Moved;
use control_actions::{Action, Edge, Fact, Origin, Places, Rule};
use must_call_sets::{fits_type, is_heavy_as, is_heavy_class, type_at};
use obligation_facts::{callee, holds_argument, holds_operand, is_met, is_own, may_be_null_target};
use program_model::{ClassId, Method, ParamSig, Program, VType};

/// Whether the frame owns the object, which has an obligation by its class.
pub(crate) fn is_owned(p: &Program, origin: &Origin, fact: &Fact) -> bool
    ensures { result ≡ is_owned p.now origin.now fact.now }
{
    is_heavy_class(p, origin.class) && is_own(fact.mode)
}

// Whether the parameter of this index is owning, and its operand is among these places.
fn takes(p: &Program, action: Action, held: Places, index: usize, parameter: &ParamSig) -> bool
    requires { IsSmallAction p.now action }
    ensures { result ≡ takes action held index parameter.now }
{
    parameter.owning && holds_argument(p, action, held, index)
}

fn first_owner(p: &Program, action: Action, held: Places, parameters: &[ParamSig]) -> Option<VType>
    requires { IsSmallAction p.now action }
    ensures { result ≡ first_of (owners_from action held 0 parameters.now) }
{
    for (index, parameter) in parameters.iter().enumerate() {
        if takes(p, action, held, index, parameter) {
            return Some(parameter.vtype);
        }
    }
    None
}

fn owner_count(p: &Program, action: Action, held: Places, parameters: &[ParamSig]) -> usize
    requires { IsSmallAction p.now action }
    ensures { result ≡ length (owners_from action held 0 parameters.now) }
{
    let mut count = 0;
    for (index, parameter) in parameters.iter().enumerate() {
        if takes(p, action, held, index, parameter) {
            count += 1;
        }
    }
    count
}

fn has_heavy_owner(
    p: &Program,
    class: ClassId,
    action: Action,
    held: Places,
    parameters: &[ParamSig],
) -> bool
    requires { IsSmallAction p.now action }
    ensures { result ≡ is_heavy_owner p.now class (owners_from action held 0 parameters.now) }
{
    for (index, parameter) in parameters.iter().enumerate() {
        if takes(p, action, held, index, parameter)
            && is_heavy_as(p, class, Some(parameter.vtype))
        {
            return true;
        }
    }
    false
}

// Whether a declared parameter stands at the position, and it is owning.
fn moves_at(method: &Method, position: u32) -> bool
    ensures { result ≡ moves_at method.now position }
{
    if position == 0 {
        false
    } else {
        match method.sig.params.get((position - 1) as usize) {
            None => false,
            Some(parameter) => parameter.owning,
        }
    }
}

// The declared type of the reset's target, where the object is the target and does not move there.
fn target_in(p: &Program, action: Action, held: Places, method: &Method) -> Option<Option<VType>>
    requires { IsSmallAction p.now action }
    ensures { result ≡ target_at action held method.now method.now.sig.reset }
{
    match method.sig.reset {
        None => None,
        Some(position) => {
            if holds_operand(p, action, held, position) && !moves_at(method, position) {
                Some(type_at(&method.sig, position))
            } else {
                None
            }
        }
    }
}

fn are_two(count: usize, target: Option<Option<VType>>) -> bool
    ensures { result ≡ are_two count target }
{
    count > 1 || count > 0 && target.is_some()
}

fn is_heavy_target(p: &Program, class: ClassId, target: Option<Option<VType>>) -> bool
    ensures { result ≡ is_heavy_target p.now class target }
{
    match target {
        None => false,
        Some(vtype) => is_heavy_as(p, class, vtype),
    }
}

// Whether two parameters take the object, or one does and the call creates its obligation anew at another position.
fn has_two_owners(p: &Program, class: ClassId, action: Action, held: Places) -> bool
    requires { IsSmallAction p.now action }
    ensures { result ≡ has_two_owners p.now class action held }
{
    match callee(p, action) {
        None => false,
        Some(method) => {
            let target = target_in(p, action, held, method);
            are_two(owner_count(p, action, held, &method.sig.params), target)
                && (has_heavy_owner(p, class, action, held, &method.sig.params)
                    || is_heavy_target(p, class, target))
        }
    }
}

/// The declared type of the first owning parameter that takes the object at these places; none where no parameter does.
pub fn owner_type(p: &Program, action: Action, held: Places) -> Option<VType>
    requires { IsSmallAction p.now action }
    ensures { result ≡ first_of (owners p.now action held) }
{
    match callee(p, action) {
        None => None,
        Some(method) => first_owner(p, action, held, &method.sig.params),
    }
}

// The object moves to a parameter of this type.
fn moved_to(
    p: &Program,
    origin: &Origin,
    action: Action,
    edge: Edge,
    fact: &Fact,
    vtype: VType,
) -> Moved
    ensures { result ≡ moved_to p.now origin.now action edge fact.now vtype }
{
    if !is_heavy_as(p, origin.class, Some(vtype)) {
        Moved::Stays
    } else if !is_owned(p, origin, fact) {
        Moved::Bad(Rule::NotOwned)
    } else if !fits_type(p, origin.class, Some(vtype)) {
        Moved::Bad(Rule::Narrow)
    } else if may_be_null_target(p, action, edge) && !is_met(origin, fact) {
        Moved::Bad(Rule::Throw)
    } else {
        Moved::Moves
    }
}

/// What the start of a call makes of the obligation of an argument (Checker Framework manual, Resource Leak Checker,
/// "Ownership"): it moves to the owning parameter that takes the object. An action that calls nothing moves nothing. The
/// places that the action names have room in a set of places.
pub fn move_at_call(p: &Program, origin: &Origin, action: Action, edge: Edge, fact: &Fact) -> Moved
    requires { IsSmallAction p.now action }
    ensures { result ≡ moved_at_call p.now origin.now action edge fact.now }
{
    if has_two_owners(p, origin.class, action, fact.places) {
        Moved::Bad(Rule::Twice)
    } else {
        match owner_type(p, action, fact.places) {
            None => Moved::Stays,
            Some(vtype) => moved_to(p, origin, action, edge, fact, vtype),
        }
    }
}
