//! What a call of the library gives, and what it notes.

ghost use Rattle.std.specs.Prelude.{◌≡◌, ◌++◌, OnOk};
ghost use Rattle.std.specs.List.{flat_map};
ghost use Rattle.ledger_calls.specs.Calls.{kept_promise, kept_promises, note_of_object, position_of, receiver_note};
ghost use Rattle.ledger_calls.specs.Conducts.{conduct_value, given_value, library_notes, positions, promises_by};
ghost use Rattle.program_model.specs.Lookups.{method_at};

use crate::dispatch::form_of;
use crate::operands::{made_by_new, operand_of, position_of, value_at};
use crate::signatures::{alias_position, interest_of, result_of};
use java_control::{Action, TargetForm};
use ledger_obligations::{Note, add_kept, note_on};
use ledger_state::{Heap, Locals, Value, field_of};
use program_model::{MethodId, Program, Promise, Target, VType};
use rlc_base::{NameId, NoMemory};
use stub_conduct::Conduct;

fn add_note_of(
    object: Option<u64>,
    name: Option<NameId>,
    into: &mut Vec<Note>,
) -> Result<(), NoMemory>
    ensures { OnOk result (into.new.items ≡ into.old.items ++ note_of_object object name) }
{
    match object {
        None => Ok(()),
        Some(number) => match name {
            None => Ok(()),
            Some(found) => Ok(into.push(note_on(false, number, found))?),
        },
    }
}

/// Puts the note of a call without arguments on its receiver, but for `super.m()`, at the end of the list.
pub fn add_receiver_note(
    p: &Program,
    locals: &Locals,
    action: Action,
    named: MethodId,
    into: &mut Vec<Note>,
) -> Result<(), NoMemory>
    ensures { OnOk result (into.new.items ≡ into.old.items ++ receiver_note locals.now action (method_at p.now named)) }
{
    match form_of(action) {
        TargetForm::Static | TargetForm::Super => Ok(()),
        TargetForm::This | TargetForm::Other => add_note_of(
            operand_of(locals, action, 0).object(),
            interest_of(p, named),
            into,
        ),
    }
}

fn add_promise(
    p: &Program,
    heap: &Heap,
    made: Option<u64>,
    locals: &Locals,
    action: Action,
    promise: Promise,
    into: &mut Vec<Note>,
) -> Result<(), NoMemory>
    ensures { OnOk result (into.new.items ≡ into.old.items ++ kept_promise p.now heap.now (position_of made locals.now action) promise) }
{
    let kept = match promise.target {
        Target::At(position) => position_of(made, locals, action, u64::from(position)),
        Target::OfField(field) => field_of(p, heap, position_of(made, locals, action, 0), field),
    };
    add_kept(kept.object(), promise.names, into)
}

fn add_promises(
    p: &Program,
    heap: &Heap,
    made: Option<u64>,
    locals: &Locals,
    action: Action,
    promises: &[Promise],
    into: &mut Vec<Note>,
) -> Result<(), NoMemory>
    ensures { OnOk result (into.new.items ≡ into.old.items ++ kept_promises p.now heap.now (position_of made locals.now action) promises.now) }
{
    'each: for promise in promises {
        add_promise(p, heap, made, locals, action, *promise, into)?;
    }
    Ok(())
}

// The promises of the method that the library keeps when it does so: those on exception where the call throws.
fn promises_by(p: &Program, method: MethodId, conduct: Conduct) -> &[Promise]
    ensures { result.now ≡ promises_by (method_at p.now method) conduct }
{
    match p.method(method) {
        None => &[],
        Some(m) => match conduct {
            Conduct::Throws(_) => &m.sig.on_throw,
            Conduct::Fresh(_)
            | Conduct::Null
            | Conduct::Existing(_)
            | Conduct::Argument
            | Conduct::Value(_)
            | Conduct::Nothing => &m.sig.promises,
        },
    }
}

/// Puts the notes of a call of the library at the end of the list: that of the receiver, then those of the promises that the
/// library keeps, where `number` is that of the object that the call makes.
pub fn add_library_notes(
    p: &Program,
    heap: &Heap,
    locals: &Locals,
    action: Action,
    named: MethodId,
    method: MethodId,
    number: u64,
    conduct: Conduct,
    into: &mut Vec<Note>,
) -> Result<(), NoMemory>
    ensures { OnOk result (into.new.items ≡ into.old.items ++ library_notes p.now heap.now locals.now action (method_at p.now named) (method_at p.now method) number conduct) }
{
    add_receiver_note(p, locals, action, named, into)?;
    let made = made_by_new(action, number, conduct);
    let promises = promises_by(p, method, conduct);
    add_promises(p, heap, made, locals, action, promises, into)?;
    Ok(())
}

fn given_value(count: usize, vtype: Option<VType>, value: i64) -> Value
    ensures { result ≡ given_value count vtype value }
{
    match vtype {
        Some(VType::Arr(_)) => Value::Array(count as u64),
        Some(VType::Str) => Value::Text,
        Some(VType::Primitive(_)) | Some(VType::Obj(_)) | Some(VType::NullType) | None => {
            Value::Number(value)
        }
    }
}

/// The value that the call gives, or the exception that it throws, where `count` arrays are there, and `number` is that of
/// the object that the call makes.
pub fn conduct_value(
    p: &Program,
    count: usize,
    method: MethodId,
    locals: &Locals,
    action: Action,
    number: u64,
    conduct: Conduct,
) -> Value
    ensures { result ≡ conduct_value count (method_at p.now method) (positions locals.now action number conduct) number conduct }
{
    match conduct {
        Conduct::Throws(_) | Conduct::Fresh(_) => Value::Object(number),
        Conduct::Null => Value::Null,
        Conduct::Existing(existing) => Value::Object(existing),
        Conduct::Argument => {
            let made = made_by_new(action, number, conduct);
            value_at(made, locals, action, alias_position(p, method))
        }
        Conduct::Value(value) => given_value(count, result_of(p, method), value),
        Conduct::Nothing => Value::Nothing,
    }
}
