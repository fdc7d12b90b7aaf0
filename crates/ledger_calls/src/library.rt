//! What the library does at a call.

ghost use Rattle.std.specs.Prelude.{◌≡◌, None, if◌then◌else◌};
ghost use Rattle.ledger_obligations.specs.Obligations.{finished, first_set};
ghost use Rattle.ledger_state.specs.Heaps.{change_one};
ghost use Rattle.ledger_state.specs.declared.entry.Owner.TheVariants as owners;
ghost use Rattle.ledger_calls.specs.Calls.{operand_of, position_of};
ghost use Rattle.ledger_calls.specs.Conducts.{argument_of, fits_type, fresh_born, library_birth, library_method, on_this, plainly, result_in, result_owner, settled, settled_by};
ghost use Rattle.program_model.specs.Lookups.{method_at};

use crate::operands::{alias_target, value_at};
use crate::signatures::{alias_position, first_of, has_owning_result, is_alias, result_of};
use java_control::Action;
use ledger_obligations::{alias_born, finished, first_set, is_library_method};
use ledger_state::{ArrayObject, Heap, Locals, Object, Owner, Value, is_instance};
use program_model::{ClassId, MethodId, Program, VType};
use stub_conduct::{Choice, Conduct, conduct};

/// The method whose signature says what the library may do: the named one where a stub declares it, else the one that runs.
pub fn library_method(p: &Program, named: MethodId, runs: MethodId) -> MethodId
    ensures { result ≡ library_method p.now named runs }
{
    if is_library_method(p, named) {
        named
    } else {
        runs
    }
}

fn fits_type(
    p: &Program,
    heap: &Heap,
    arrays: &[ArrayObject],
    vtype: Option<VType>,
    value: Value,
) -> bool
    ensures { result ≡ fits_type p.now heap.now arrays.now vtype value }
{
    match vtype {
        None => false,
        Some(found) => is_instance(p, heap, arrays, found, value),
    }
}

fn plainly(p: &Program, method: MethodId, choice: Choice) -> Conduct
    ensures { result ≡ plainly p.now method choice }
{
    conduct(p, method, Choice { way: 0, ..choice })
}

// What was asked where the given value is of the result's type; else the call returns plainly.
fn settled_as(
    p: &Program,
    heap: &Heap,
    arrays: &[ArrayObject],
    method: MethodId,
    choice: Choice,
    given: Value,
    asked: Conduct,
) -> Conduct
    ensures { result ≡ (if fits_type p.now heap.now arrays.now (result_in (method_at p.now method)) given then asked else plainly p.now method choice) }
{
    if fits_type(p, heap, arrays, result_of(p, method), given) {
        asked
    } else {
        plainly(p, method, choice)
    }
}

/// What the library does at a call of its method by this choice. An existing object or an argument is given only where it is
/// of the result's type; else the call returns plainly.
pub fn settled(
    p: &Program,
    heap: &Heap,
    arrays: &[ArrayObject],
    method: MethodId,
    choice: Choice,
    locals: &Locals,
    action: Action,
) -> Conduct
    ensures { result ≡ settled p.now heap.now arrays.now method choice (position_of None locals.now action) }
{
    let asked = conduct(p, method, choice);
    match asked {
        Conduct::Existing(number) => {
            settled_as(
                p,
                heap,
                arrays,
                method,
                choice,
                Value::Object(number),
                asked,
            )
        }
        Conduct::Argument => {
            let argument = value_at(None, locals, action, alias_position(p, method));
            settled_as(p, heap, arrays, method, choice, argument, asked)
        }
        Conduct::Throws(_)
        | Conduct::Fresh(_)
        | Conduct::Null
        | Conduct::Value(_)
        | Conduct::Nothing => asked,
    }
}

/// A super constructor runs on `this`: it makes no object.
pub fn on_this(action: Action, conduct: Conduct) -> Conduct
    ensures { result ≡ on_this action conduct }
{
    match action {
        Action::Super(_, _, _) => match conduct {
            Conduct::Fresh(_) => Conduct::Nothing,
            other => other,
        },
        _ => conduct,
    }
}

// The owner of a fresh result, where the caller's frame is at this position.
fn result_owner(p: &Program, action: Action, method: MethodId, position: u64) -> Owner
    ensures { result ≡ result_owner action (method_at p.now method) position }
{
    match action {
        Action::New(_, _, _) => Owner::Frame(position),
        Action::Plain(_, _) => Owner::Library,
        _ => {
            if has_owning_result(p, method) {
                Owner::Frame(position)
            } else {
                Owner::Library
            }
        }
    }
}

fn fresh_born(
    p: &Program,
    class: ClassId,
    method: MethodId,
    action: Action,
    position: u64,
    locals: &Locals,
    x: Object,
) -> Object
    ensures { result ≡ fresh_born p.now class (method_at p.now method) action position (position_of None locals.now action) x }
{
    if is_alias(p, method) {
        alias_born(p, true, alias_target(p, None, locals, action, method), x)
    } else {
        finished(
            first_set(p, class, first_of(p, method)),
            result_owner(p, action, method, position),
            x,
        )
    }
}

// The exception that a call of the library throws has the set of its class, and the library owns it.
#[tactic(auto, using(ledger_obligations::proofs::ChangeLaws::change_absent))]
fn thrown_birth(p: &Program, class: ClassId, number: u64, heap: &mut Heap)
    ensures { heap.new ≡ change_one number (finished (first_set p.now class None) owners.Library) heap.old }
{
    if let Some(x) = heap.object(number) {
        heap.put(
            number,
            finished(first_set(p, class, None), Owner::Library, x),
        );
    }
}

// The object that a call of the library gives gets its set and its owner.
#[tactic(auto, using(ledger_obligations::proofs::ChangeLaws::change_absent))]
fn fresh_birth(
    p: &Program,
    class: ClassId,
    method: MethodId,
    action: Action,
    position: u64,
    locals: &Locals,
    number: u64,
    heap: &mut Heap,
)
    ensures { heap.new ≡ change_one number (fresh_born p.now class (method_at p.now method) action position (position_of None locals.now action)) heap.old }
{
    if let Some(x) = heap.object(number) {
        heap.put(
            number,
            fresh_born(p, class, method, action, position, locals, x),
        );
    }
}

/// The object with this number, which a call of the library makes, gets its set and its owner, where the caller's frame is
/// at this position. An exception has the set of its class, and the library owns it.
pub fn library_birth(
    p: &Program,
    locals: &Locals,
    action: Action,
    method: MethodId,
    position: u64,
    number: u64,
    conduct: Conduct,
    heap: &mut Heap,
)
    ensures { heap.new ≡ library_birth p.now locals.now action (method_at p.now method) position number conduct heap.old }
{
    match conduct {
        Conduct::Throws(class) => thrown_birth(p, class, number, heap),
        Conduct::Fresh(class) => {
            fresh_birth(p, class, method, action, position, locals, number, heap)
        }
        Conduct::Null
        | Conduct::Existing(_)
        | Conduct::Argument
        | Conduct::Value(_)
        | Conduct::Nothing => {}
    }
}
