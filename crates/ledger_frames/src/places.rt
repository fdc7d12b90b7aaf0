//! What the places of a frame hold after a step.

ghost use Rattle.std.specs.Prelude.{◌≡◌, ◌≤◌, map, IfOk};
ghost use Rattle.std.specs.List.{range_with_len};
ghost use Rattle.java_control.specs.Sources.{is_place};
ghost use Rattle.ledger_frames.specs.Choosing.{method_body};
ghost use Rattle.ledger_frames.specs.Frames.{depth_by, depth_in, depth_of, is_made, locals_after, made_place, numbers_below, source_by, sourced, value_after};
ghost use Rattle.control_actions.specs.declared.place.Place.TheVariants as places;

use crate::choosing::method_body;
use java_control::{Action, Edge, Place, source};
use ledger_operations::place_value;
use ledger_state::{Heap, Locals, Value, Values};
use program_model::{MethodId, Program};
use rlc_base::NoMemory;
use std::alloc::Global;

// Where a step puts the value that it makes.
fn made_place(action: Action) -> Option<Place>
    ensures { result ≡ made_place action }
{
    match action {
        Action::Plain(place, _) => Some(place),
        Action::Op(_, d, _)
        | Action::Get(_, d, _)
        | Action::Put(_, d, _)
        | Action::Cast(_, d)
        | Action::Call(_, d, _, _)
        | Action::New(_, d, _)
        | Action::Super(_, d, _)
        | Action::Raise(d, _) => Some(Place::Temp(d)),
        Action::Skip
        | Action::Copy(_, _)
        | Action::Move(_, _)
        | Action::Drop(_)
        | Action::Settle(_, _)
        | Action::Enter(_, _, _, _)
        | Action::Test(_)
        | Action::PutOwn(_, _)
        | Action::End(_) => None,
    }
}

// Whether the two are one place.
fn is_place(x: Place, place: Place) -> bool
    ensures { result ≡ is_place x place }
{
    match (x, place) {
        (Place::Var(a), Place::Var(b))
        | (Place::Field(a), Place::Field(b))
        | (Place::Temp(a), Place::Temp(b)) => a == b,
        (Place::This, Place::This) | (Place::Super, Place::Super) => true,
        _ => false,
    }
}

fn is_made(made: Option<Place>, place: Place) -> bool
    ensures { result ≡ is_made made place }
{
    match made {
        None => false,
        Some(found) => is_place(found, place),
    }
}

fn source_by(
    p: &Program,
    method: MethodId,
    action: Action,
    edge: Edge,
    place: Place,
) -> Option<Place>
    ensures { result ≡ source_by p.now (method_body p.now method) action edge place }
{
    match method_body(p, method) {
        None => Some(place),
        Some(body) => source(p, body, action, edge, place),
    }
}

fn value_after(
    p: &Program,
    heap: &Heap,
    method: MethodId,
    locals: &Locals,
    action: Action,
    edge: Edge,
    made: Value,
    place: Place,
) -> Value
    ensures { result ≡ value_after p.now heap.now method locals.now action edge made place }
{
    match source_by(p, method, action, edge, place) {
        Some(from) => place_value(p, heap, method, locals, from),
        None => {
            if is_made(made_place(action), place) {
                made
            } else {
                Value::Nothing
            }
        }
    }
}

fn depth_in(place: Place) -> u64
    ensures { result ≡ depth_in place }
{
    match place {
        Place::Temp(d) => u64::from(d) + 1,
        Place::Var(_) | Place::This | Place::Field(_) | Place::Super => 0,
    }
}

// How many temps a step leaves at least.
fn depth_of(action: Action) -> u64
    ensures { result ≡ depth_of action }
{
    match action {
        Action::Copy(place, _) | Action::Move(place, _) => depth_in(place),
        Action::Settle(d, _) => u64::from(d) + 1,
        _ => match made_place(action) {
            None => 0,
            Some(place) => depth_in(place),
        },
    }
}

fn variables_after(
    alloc: Global,
    p: &Program,
    heap: &Heap,
    method: MethodId,
    locals: &Locals,
    action: Action,
    edge: Edge,
    made: Value,
    count: u64,
) -> Result<Vec<Value>, NoMemory>
    requires { count ≤ 4294967296 }
    ensures { IfOk result (λ v. v.items ≡ map (λ i. value_after p.now heap.now method locals.now action edge made (places.Var i)) (range_with_len 0 count)) }
{
    let mut values = Vec::new(alloc);
    'each: for number in 0..count {
        let place = Place::Var(number as u32);
        values.push(value_after(p, heap, method, locals, action, edge, made, place))?;
    }
    Ok(values)
}

fn temps_after(
    alloc: Global,
    p: &Program,
    heap: &Heap,
    method: MethodId,
    locals: &Locals,
    action: Action,
    edge: Edge,
    made: Value,
    count: u64,
) -> Result<Vec<Value>, NoMemory>
    requires { count ≤ 4294967296 }
    ensures { IfOk result (λ v. v.items ≡ map (λ d. value_after p.now heap.now method locals.now action edge made (places.Temp d)) (range_with_len 0 count)) }
{
    let mut values = Vec::new(alloc);
    'each: for depth in 0..count {
        let place = Place::Temp(depth as u32);
        values.push(value_after(p, heap, method, locals, action, edge, made, place))?;
    }
    Ok(values)
}

/// The values of a frame of the method after a step that makes this value.
pub fn locals_after(
    alloc: Global,
    p: &Program,
    heap: &Heap,
    method: MethodId,
    locals: &Locals,
    action: Action,
    edge: Edge,
    made: Value,
) -> Result<Locals, NoMemory>
    ensures { IfOk result (λ l. l ≡ locals_after p.now heap.now method locals.now action edge made) }
{
    let variables = (locals.variables.len() as u64).min(4294967296);
    let temps = (locals.temps.len() as u64)
        .max(depth_of(action))
        .min(4294967296);
    let variables = variables_after(
        alloc, p, heap, method, locals, action, edge, made, variables,
    )?;
    let temps = temps_after(alloc, p, heap, method, locals, action, edge, made, temps)?;
    Ok(Locals {
        variables: Values::of(variables),
        this: locals.this,
        temps: Values::of(temps),
    })
}
