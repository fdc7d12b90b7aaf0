//! The exceptions that operations throw of themselves (JLS 15.6).

ghost use Rattle.std.specs.Prelude.{◌≡◌};
ghost use Rattle.ledger_operations.specs.Operations.{is_cast_refused, is_index, operand, thrown_by_index, thrown_by_number, thrown_by_operation, thrown_by_operator, thrown_where};

use control_actions::{Action, Operator};
use ledger_state::{ArrayObject, Heap, Locals, Value, array_length, is_instance};
use program_model::{BinaryOperator, ClassId, Program, VType};

/// The operand `place`, from 0, of an operation whose operands stand from the temp of depth `from` on.
pub fn operand(locals: &Locals, from: u32, place: u32) -> Value
    ensures { result ≡ operand locals.now from place }
{
    locals.temp(u64::from(from) + u64::from(place))
}

fn is_index(index: i64, length: i64) -> bool
    ensures { result ≡ is_index index length }
{
    0 <= index && index < length
}

fn thrown_where(throws: bool, class: ClassId) -> Option<ClassId>
    ensures { result ≡ thrown_where throws class }
{
    if throws { Some(class) } else { None }
}

fn thrown_by_number(p: &Program, operator: BinaryOperator, divisor: Value) -> Option<ClassId>
    ensures { result ≡ thrown_by_number p.now operator divisor }
{
    match operator {
        BinaryOperator::Divide | BinaryOperator::Remainder => {
            thrown_where(divisor.number() == 0, p.core.arithmetic_exception)
        }
        _ => None,
    }
}

fn thrown_by_index(
    p: &Program,
    arrays: &[ArrayObject],
    array: Value,
    index: Value,
) -> Option<ClassId>
    ensures { result ≡ thrown_by_index p.now arrays.now array index }
{
    if array.is_null() {
        return Some(p.core.null_pointer_exception);
    }
    let within = is_index(index.number(), array_length(arrays, array));
    thrown_where(!within, p.core.array_index_exception)
}

fn thrown_by_operator(
    p: &Program,
    arrays: &[ArrayObject],
    locals: &Locals,
    operator: Operator,
    d: u32,
) -> Option<ClassId>
    ensures { result ≡ thrown_by_operator p.now arrays.now locals.now operator d }
{
    match operator {
        Operator::Binary(binary, _, _) => thrown_by_number(p, binary, operand(locals, d, 1)),
        Operator::Element | Operator::StoreElement => {
            thrown_by_index(p, arrays, operand(locals, d, 0), operand(locals, d, 1))
        }
        Operator::Length => {
            thrown_where(
                operand(locals, d, 0).is_null(),
                p.core.null_pointer_exception,
            )
        }
        Operator::NewArray(_) => {
            let size = operand(locals, d, 0).number();
            thrown_where(size < 0, p.core.negative_array_size_exception)
        }
        Operator::Unary(_, _)
        | Operator::InstanceOf(_)
        | Operator::Convert(_)
        | Operator::StoreStatic(_) => None,
    }
}

// A cast of a null succeeds (JLS 15.16).
fn is_cast_refused(
    p: &Program,
    heap: &Heap,
    arrays: &[ArrayObject],
    vtype: VType,
    value: Value,
) -> bool
    ensures { result ≡ is_cast_refused p.now heap.now arrays.now vtype value }
{
    !value.is_null() && !is_instance(p, heap, arrays, vtype, value)
}

/// The class of the exception that the operation itself throws, where it throws one.
pub fn thrown_by_operation(
    p: &Program,
    heap: &Heap,
    arrays: &[ArrayObject],
    locals: &Locals,
    action: Action,
) -> Option<ClassId>
    ensures { result ≡ thrown_by_operation p.now heap.now arrays.now locals.now action }
{
    match action {
        Action::Op(operator, d, _) => thrown_by_operator(p, arrays, locals, operator, d),
        Action::Get(_, d, _) | Action::Put(_, d, _) | Action::Raise(d, _) => {
            let target = locals.temp(u64::from(d));
            thrown_where(target.is_null(), p.core.null_pointer_exception)
        }
        Action::Cast(vtype, d) => {
            let refused = is_cast_refused(p, heap, arrays, vtype, locals.temp(u64::from(d)));
            thrown_where(refused, p.core.class_cast_exception)
        }
        Action::Skip
        | Action::Copy(_, _)
        | Action::Move(_, _)
        | Action::Plain(_, _)
        | Action::Drop(_)
        | Action::Settle(_, _)
        | Action::Enter(_, _, _, _)
        | Action::Test(_)
        | Action::PutOwn(_, _)
        | Action::Call(_, _, _, _)
        | Action::New(_, _, _)
        | Action::Super(_, _, _)
        | Action::End(_) => None,
    }
}
