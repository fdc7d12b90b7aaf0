//! The values that operations give (JLS 15).

ghost use Rattle.std.specs.Prelude.{◌≡◌};
ghost use Rattle.ledger_operations.specs.Operations.{by_operand_type, by_reference, chosen_element, converted_to, element_in, made_value, number_or_nothing, operand_type_of, operator_value, plain_value, same_reference};
ghost use Rattle.ledger_state.specs.Classes.{array_of};

use crate::exceptions::operand;
use control_actions::{Action, Operator, PlainValue};
use java_constants::{converted, folded, folded_unary};
use ledger_state::{
    ArrayObject, Heap, Locals, StoredStatic, Value, array_length, array_of, default_of, field_of,
    index_of, is_instance, literal_value, static_value,
};
use program_model::{BinaryOperator, ElementType, OperandType, Primitive, Program, VType};
use stub_conduct::{Choice, cut};

fn operand_type_of(vtype: VType) -> OperandType
    ensures { result ≡ operand_type_of vtype }
{
    match vtype {
        VType::Primitive(Primitive::Long) => OperandType::Long,
        VType::Primitive(Primitive::Boolean) => OperandType::Boolean,
        _ => OperandType::Int,
    }
}

// A number cast to a primitive type; any other value stays.
fn converted_to(vtype: VType, value: Value) -> Value
    ensures { result ≡ converted_to vtype value }
{
    match vtype {
        VType::Primitive(to) => Value::Number(converted(to, value.number())),
        _ => value,
    }
}

fn number_or_nothing(number: Option<i64>) -> Value
    ensures { result ≡ number_or_nothing number }
{
    match number {
        None => Value::Nothing,
        Some(number) => Value::Number(number),
    }
}

// Whether two references are equal (JLS 15.21.3). Of two texts nothing is kept that could tell them apart.
fn same_reference(a: Value, b: Value) -> bool
    ensures { result ≡ same_reference a b }
{
    match (a, b) {
        (Value::Object(a), Value::Object(b)) => a == b,
        (Value::Array(a), Value::Array(b)) => a == b,
        (Value::Text, Value::Text) => true,
        _ => a.is_null() && b.is_null(),
    }
}

fn by_reference(operator: BinaryOperator, a: Value, b: Value) -> Value
    ensures { result ≡ by_reference operator a b }
{
    match operator {
        BinaryOperator::Equal => Value::truth(same_reference(a, b)),
        BinaryOperator::NotEqual => Value::truth(!same_reference(a, b)),
        _ => Value::Nothing,
    }
}

fn by_operand_type(operator: BinaryOperator, t: OperandType, a: Value, b: Value) -> Value
    ensures { result ≡ by_operand_type operator t a b }
{
    match t {
        OperandType::Text => Value::Text,
        OperandType::Reference => by_reference(operator, a, b),
        OperandType::Boolean | OperandType::Int | OperandType::Long => {
            number_or_nothing(folded(operator, t, a.number(), b.number()))
        }
    }
}

// An element that the library chooses.
fn chosen_element(element: ElementType, number: i64) -> Value
    ensures { result ≡ chosen_element element number }
{
    match element {
        ElementType::Primitive(to) => Value::Number(cut(to, number)),
        ElementType::Str => {
            if number == 0 {
                Value::Text
            } else {
                Value::Null
            }
        }
    }
}

fn element_in(choice: Choice, arrays: &[ArrayObject], array: Value, index: i64) -> Value
    ensures { result ≡ element_in choice (array_of arrays.now array) index }
{
    match array_of(arrays, array) {
        None => Value::Nothing,
        Some(array) => {
            if array.shared {
                chosen_element(array.element, choice.value)
            } else {
                array.elements.get(index_of(index))
            }
        }
    }
}

// The value of an operation that throws nothing; the choice is that which a read of a shared array's element takes.
fn operator_value(
    p: &Program,
    heap: &Heap,
    arrays: &[ArrayObject],
    choice: Choice,
    locals: &Locals,
    operator: Operator,
    d: u32,
) -> Value
    ensures { result ≡ operator_value p.now heap.now arrays.now choice locals.now operator d }
{
    let first = operand(locals, d, 0);
    match operator {
        Operator::Unary(unary, t) => {
            let number = folded_unary(unary, operand_type_of(t), first.number());
            converted_to(t, Value::Number(number))
        }
        Operator::Binary(binary, t, to) => {
            converted_to(to, by_operand_type(binary, t, first, operand(locals, d, 1)))
        }
        Operator::InstanceOf(t) => Value::truth(is_instance(p, heap, arrays, t, first)),
        Operator::Convert(t) => converted_to(t, first),
        Operator::Length => Value::Number(array_length(arrays, first)),
        Operator::Element => element_in(choice, arrays, first, operand(locals, d, 1).number()),
        Operator::StoreElement => operand(locals, d, 2),
        Operator::StoreStatic(_) => first,
        Operator::NewArray(_) => Value::Array(arrays.len() as u64),
    }
}

fn plain_value(p: &Program, statics: &[StoredStatic], value: PlainValue) -> Value
    ensures { result ≡ plain_value p.now statics.now value }
{
    match value {
        PlainValue::Literal(literal) => literal_value(literal),
        PlainValue::Default(vtype) => default_of(vtype),
        PlainValue::StaticField(f) => static_value(p, statics, f),
        PlainValue::LibraryConstant(_) => Value::Nothing,
    }
}

/// The value that the step makes, where it throws no exception of its own and calls nothing; the choice is that which a read
/// of a shared array's element takes.
pub fn made_value(
    p: &Program,
    heap: &Heap,
    arrays: &[ArrayObject],
    statics: &[StoredStatic],
    choice: Choice,
    locals: &Locals,
    action: Action,
) -> Value
    ensures { result ≡ made_value p.now heap.now arrays.now statics.now choice locals.now action }
{
    match action {
        Action::Plain(_, value) => plain_value(p, statics, value),
        Action::Op(operator, d, _) => operator_value(p, heap, arrays, choice, locals, operator, d),
        Action::Get(f, d, _) => field_of(p, heap, locals.temp(u64::from(d)), f),
        Action::Raise(d, _) => locals.temp(u64::from(d)),
        Action::Skip
        | Action::Copy(_, _)
        | Action::Move(_, _)
        | Action::Drop(_)
        | Action::Settle(_, _)
        | Action::Enter(_, _, _, _)
        | Action::Test(_)
        | Action::Put(_, _, _)
        | Action::Cast(_, _)
        | Action::PutOwn(_, _)
        | Action::Call(_, _, _, _)
        | Action::New(_, _, _)
        | Action::Super(_, _, _)
        | Action::End(_) => Value::Nothing,
    }
}
