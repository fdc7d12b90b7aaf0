//! From which place each place of a frame takes its value in a step.

ghost use Rattle.std.specs.Prelude.{◌≡◌, ◌+◌, ◌≤◌};
ghost use Rattle.control_actions.specs.Sources.{call_source, emptied, is_null_pointer, is_part, is_place, is_temp, is_temp_among, is_temp_from, is_throws, is_variable, enter_source, move_source, put_source, settle_source, source, source_or_itself};

use crate::calls::{completion_temp, is_reset_of_this};
use crate::scopes::is_dropped;
use crate::{Action, Edge, Place, field_place};
use program_model::{Body, Program};

fn is_variable(x: u32, place: Place) -> bool
    ensures { result ≡ is_variable x place }
{
    match place {
        Place::Var(y) => x == y,
        _ => false,
    }
}

fn is_temp(d: u32, place: Place) -> bool
    ensures { result ≡ is_temp d place }
{
    match place {
        Place::Temp(e) => d == e,
        _ => false,
    }
}

// Whether the two are one place.
fn is_place(x: Place, place: Place) -> bool
    ensures { result ≡ is_place x place }
{
    match (x, place) {
        (Place::Var(x), Place::Var(y)) => x == y,
        (Place::Field(k), Place::Field(j)) => k == j,
        (Place::Temp(d), Place::Temp(e)) => d == e,
        (Place::This, Place::This) | (Place::Super, Place::Super) => true,
        _ => false,
    }
}

// Whether the place is one of `n` temps from depth `d` on.
fn is_temp_among(d: u32, n: u64, place: Place) -> bool
    requires { n ≤ 4294967296 }
    ensures { result ≡ is_temp_among d n place }
{
    match place {
        Place::Temp(e) => d <= e && u64::from(e) < u64::from(d) + n,
        _ => false,
    }
}

// Whether the place is a temp of depth `b` or more.
fn is_temp_from(b: u32, place: Place) -> bool
    ensures { result ≡ is_temp_from b place }
{
    match place {
        Place::Temp(e) => b <= e,
        _ => false,
    }
}

// A place that is emptied has no source, and every other one keeps its value.
fn emptied(gone: bool, place: Place) -> Option<Place>
    ensures { result ≡ emptied gone place }
{
    if gone { None } else { Some(place) }
}

fn is_throws(edge: Edge) -> bool
    ensures { result ≡ is_throws edge }
{
    match edge {
        Edge::Throws(_) => true,
        _ => false,
    }
}

// Whether the edge is that of a NullPointerException.
fn is_null_pointer(p: &Program, edge: Edge) -> bool
    ensures { result ≡ is_null_pointer p.now edge }
{
    match edge {
        Edge::Throws(t) => t == p.core.null_pointer_exception,
        _ => false,
    }
}

// A `Put` leaves the stored value in t(d), where it goes on.
fn put_source(d: u32, edge: Edge, place: Place) -> Option<Place>
    ensures { result ≡ put_source d edge place }
{
    match edge {
        Edge::Throws(_) => emptied(is_temp_among(d, 2, place), place),
        _ => {
            let stored = d.saturating_add(1);
            if is_temp(d, place) {
                Some(Place::Temp(stored))
            } else {
                emptied(is_temp(stored, place), place)
            }
        }
    }
}

// Where the place has the source of its own, and else keeps its value.
fn source_or_itself(taken: bool, from: Place, place: Place) -> Option<Place>
    ensures { result ≡ source_or_itself taken from place }
{
    if taken { Some(from) } else { Some(place) }
}

fn move_source(x: Place, y: Place, place: Place) -> Option<Place>
    ensures { result ≡ move_source x y place }
{
    if is_place(y, place) {
        None
    } else {
        source_or_itself(is_place(x, place), y, place)
    }
}

fn settle_source(b: u32, value: Option<u32>, place: Place) -> Option<Place>
    ensures { result ≡ settle_source b value place }
{
    if is_temp(b, place) {
        match value {
            None => None,
            Some(d) => Some(Place::Temp(d)),
        }
    } else {
        emptied(is_temp_from(b, place), place)
    }
}

fn enter_source(x: u32, b: u32, d: u32, place: Place) -> Option<Place>
    ensures { result ≡ enter_source x b d place }
{
    if is_variable(x, place) {
        Some(Place::Temp(d))
    } else {
        emptied(is_temp_from(b, place), place)
    }
}

// Whether the place is an owning field of `this`, or the part of the super class.
fn is_part(place: Place) -> bool
    ensures { result ≡ is_part place }
{
    match place {
        Place::Field(_) | Place::Super => true,
        _ => false,
    }
}

// A call takes its operands, and one that creates the obligation of `this` anew may store into its owning fields.
fn call_source(resets: bool, d: u32, n: u32, place: Place) -> Option<Place>
    ensures { result ≡ call_source resets d n place }
{
    let taken = is_temp_among(d, u64::from(n.max(1)), place);
    emptied(taken || resets && is_part(place), place)
}

/// From which place `place` takes its value in a step, by the action of the step and its edge: after the step `place` holds
/// what the answer held before it. None where it then holds nothing, or a value that the action makes: one without an
/// object, a result (also one that is an alias of an operand's resource), an object that is read, or an exception; and for the
/// fields of `this` at a call that creates the obligation of `this` anew, which may store into them. The edge is one that the
/// steps of the action have.
pub fn source(p: &Program, body: &Body, action: Action, edge: Edge, place: Place) -> Option<Place>
    ensures { result ≡ source p.now body.now action edge place }
{
    match action {
        Action::Skip => Some(place),
        Action::Copy(x, y) => source_or_itself(is_place(x, place), y, place),
        Action::Move(x, y) => move_source(x, y, place),
        Action::Plain(x, _) => emptied(is_place(x, place), place),
        Action::Drop(scope) => emptied(is_dropped(body, scope, place), place),
        Action::Settle(b, c) => settle_source(b, completion_temp(c), place),
        Action::Enter(_, x, b, d) => enter_source(x, b, d, place),
        Action::Test(d) => emptied(is_temp(d, place), place),
        Action::Op(_, d, n) => emptied(is_temp_among(d, u64::from(n.max(1)), place), place),
        Action::Get(_, d, _) => emptied(is_temp(d, place), place),
        Action::Put(_, d, _) => put_source(d, edge, place),
        Action::Cast(_, d) => emptied(is_throws(edge) && is_temp(d, place), place),
        Action::PutOwn(f, d) => {
            let field = field_place(p, f);
            source_or_itself(is_place(field, place), Place::Temp(d), place)
        }
        Action::Call(_, d, n, _) => call_source(is_reset_of_this(p, action), d, n, place),
        Action::New(_, d, n) => emptied(is_temp_among(d, u64::from(n) + 1, place), place),
        Action::Super(_, d, n) => emptied(is_temp_among(d, u64::from(n.max(1)), place), place),
        Action::Raise(d, _) => emptied(is_null_pointer(p, edge) && is_temp(d, place), place),
        Action::End(_) => Some(place),
    }
}
