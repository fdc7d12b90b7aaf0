//! The arguments of a call: their values, those that move, and the arrays that the library gets.

ghost use Rattle.std.specs.Prelude.{◌≡◌, IfOk};
ghost use Rattle.ledger_calls.specs.Calls.{argument_values, arguments_moved, move_param, move_params, operand_of};
ghost use Rattle.ledger_calls.specs.Conducts.{arguments_shared, share, share_all, share_value};
ghost use Rattle.program_model.specs.Lookups.{method_at};

use crate::operands::operand_of;
use crate::signatures::params_of;
use java_control::Action;
use ledger_obligations::move_value;
use ledger_state::{ArrayObject, Heap, Locals, Owner, Value};
use program_model::{MethodId, ParamSig, Program};
use rlc_base::NoMemory;
use std::alloc::Global;

/// The values of the arguments of a call of the named method, from position 1 on.
#[tactic(auto, using(crate::proofs::ArgumentLaws::one_more))]
pub fn argument_values(
    alloc: Global,
    p: &Program,
    locals: &Locals,
    action: Action,
    named: MethodId,
) -> Result<Vec<Value>, NoMemory>
    ensures { IfOk result (λ v. v.items ≡ argument_values locals.now action (method_at p.now named)) }
{
    let mut values = Vec::new(alloc);
    let count = params_of(p, named).len();
    'each: for place in 0..count {
        values.push(operand_of(locals, action, place as u64 + 1))?;
    }
    Ok(values)
}

fn move_param(p: &Program, owner: Owner, value: Value, parameter: &ParamSig, heap: &mut Heap)
    ensures { heap.new ≡ move_param p.now owner value parameter.now heap.old }
{
    if parameter.owning {
        move_value(p, parameter.vtype, owner, value, heap);
    }
}

fn move_each(
    p: &Program,
    owner: Owner,
    locals: &Locals,
    action: Action,
    parameters: &[ParamSig],
    heap: &mut Heap,
)
    ensures { heap.new ≡ move_params p.now owner (operand_of locals.now action) 1 parameters.now heap.old }
{
    'each: for place in 0..parameters.len() {
        let value = operand_of(locals, action, place as u64 + 1);
        move_param(p, owner, value, &parameters[place], heap);
    }
}

/// The owning arguments of a call of the named method move to the frame of the callee, or to the library.
pub fn move_arguments(
    p: &Program,
    owner: Owner,
    locals: &Locals,
    action: Action,
    named: MethodId,
    heap: &mut Heap,
)
    ensures { heap.new ≡ arguments_moved p.now owner locals.now action (method_at p.now named) heap.old }
{
    move_each(p, owner, locals, action, params_of(p, named), heap);
}

// The array is shared from now on.
#[tactic(auto, using(crate::proofs::ArgumentLaws::share_at, crate::proofs::ArgumentLaws::share_past))]
fn share_value(arrays: &mut [ArrayObject], value: Value)
    ensures { arrays.new ≡ share_value arrays.old value }
{
    if let Value::Array(number) = value {
        let place = number as usize;
        if place < arrays.len() {
            arrays[place].shared = true;
        }
    }
}

/// The arrays among the arguments of a call of the named method are shared from now on.
pub fn share_arguments(
    p: &Program,
    locals: &Locals,
    action: Action,
    named: MethodId,
    arrays: &mut [ArrayObject],
)
    ensures { arrays.new ≡ arguments_shared arrays.old locals.now action (method_at p.now named) }
{
    let count = params_of(p, named).len();
    'each: for place in 0..count {
        share_value(arrays, operand_of(locals, action, place as u64 + 1));
    }
}
