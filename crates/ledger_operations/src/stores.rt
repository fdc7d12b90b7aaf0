//! What operations do to arrays, static fields and choices.

ghost use Rattle.std.specs.Prelude.{◌≡◌, IfOk};
ghost use Rattle.ledger_operations.specs.Operations.{array_by_operator, array_by_type, array_made, elements_after, elements_by_operator, reads_shared, static_by_operator, static_of, store_element, takes_choice, used_after};

use crate::choices::one_more_used;
use crate::exceptions::operand;
use control_actions::{Action, Operator};
use ledger_state::{ArrayObject, Locals, StoredStatic, Value, index_of, is_shared, new_array};
use program_model::VType;
use rlc_base::NoMemory;
use std::alloc::Global;
use stub_conduct::Choice;

fn array_by_type(alloc: Global, vtype: VType, length: i64) -> Result<Option<ArrayObject>, NoMemory>
    ensures { IfOk result (λ a. a ≡ array_by_type vtype length) }
{
    match vtype {
        VType::Arr(element) => Ok(Some(new_array(alloc, element, length)?)),
        _ => Ok(None),
    }
}

/// The array that a step makes, where it throws nothing.
pub fn array_made(
    alloc: Global,
    locals: &Locals,
    action: Action,
) -> Result<Option<ArrayObject>, NoMemory>
    ensures { IfOk result (λ a. a ≡ array_made locals.now action) }
{
    match action {
        Action::Op(Operator::NewArray(vtype), d, _) => {
            array_by_type(alloc, vtype, operand(locals, d, 0).number())
        }
        _ => Ok(None),
    }
}

// The element of an array that is not shared takes the value.
fn store_element(arrays: &mut [ArrayObject], array: Value, index: i64, value: Value)
    ensures { arrays.new ≡ store_element arrays.old array index value }
{
    if let Value::Array(place) = array {
        let place = place as usize;
        if place < arrays.len() {
            let found = &mut arrays[place];
            if !found.shared {
                found.elements.set(index_of(index), value);
            }
        }
    }
}

/// Does what a step that throws nothing does to the elements of arrays.
pub fn store_into_array(arrays: &mut [ArrayObject], locals: &Locals, action: Action)
    ensures { arrays.new ≡ elements_after arrays.old locals.now action }
{
    if let Action::Op(Operator::StoreElement, d, _) = action {
        let array = operand(locals, d, 0);
        let index = operand(locals, d, 1).number();
        store_element(arrays, array, index, operand(locals, d, 2));
    }
}

/// The store into a static field of a step that throws nothing.
pub fn static_of(locals: &Locals, action: Action) -> Option<StoredStatic>
    ensures { result ≡ static_of locals.now action }
{
    match action {
        Action::Op(Operator::StoreStatic(field), d, _) => Some(StoredStatic {
            field,
            value: operand(locals, d, 0),
        }),
        _ => None,
    }
}

fn takes_choice(arrays: &[ArrayObject], locals: &Locals, action: Action) -> bool
    ensures { result ≡ takes_choice arrays.now locals.now action }
{
    match action {
        Action::Op(Operator::Element, d, _) => is_shared(arrays, operand(locals, d, 0)),
        _ => false,
    }
}

/// The number of used choices after a step that throws nothing and calls nothing.
pub fn used_after(
    arrays: &[ArrayObject],
    choices: &[Choice],
    used: usize,
    locals: &Locals,
    action: Action,
) -> usize
    ensures { result ≡ used_after arrays.now choices.now used locals.now action }
{
    if takes_choice(arrays, locals, action) {
        one_more_used(choices, used)
    } else {
        used
    }
}
