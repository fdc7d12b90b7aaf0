// The words of operators, and of the targets of calls.

ghost use Rattle.std.specs.Prelude.{◌≡◌, ◌++◌, OnOk};
ghost use Rattle.graph_words.specs.Names.{type_word};
ghost use Rattle.graph_words.specs.Operators.{binary_word, form_word, operand_word, operator_word, unary_word};

use crate::names::put_type;
use control_actions::{Operator, TargetForm};
use program_model::{BinaryOperator, OperandType, Program, UnaryOperator, VType};
use program_texts::put_field;
use rlc_base::{NoMemory, Text};

fn binary_word(operator: BinaryOperator) -> &'static [u8]
    ensures { result.now ≡ binary_word operator }
{
    match operator {
        BinaryOperator::Multiply => b"*",
        BinaryOperator::Divide => b"/",
        BinaryOperator::Remainder => b"%",
        BinaryOperator::Add => b"+",
        BinaryOperator::Subtract => b"-",
        BinaryOperator::ShiftLeft => b"<<",
        BinaryOperator::ShiftRight => b">>",
        BinaryOperator::ShiftRightUnsigned => b">>>",
        BinaryOperator::Less => b"<",
        BinaryOperator::Greater => b">",
        BinaryOperator::LessOrEqual => b"<=",
        BinaryOperator::GreaterOrEqual => b">=",
        BinaryOperator::Equal => b"==",
        BinaryOperator::NotEqual => b"!=",
        BinaryOperator::And => b"&",
        BinaryOperator::Xor => b"^",
        BinaryOperator::Or => b"|",
        BinaryOperator::ConditionalAnd => b"&&",
        BinaryOperator::ConditionalOr => b"||",
    }
}

fn unary_word(operator: UnaryOperator) -> &'static [u8]
    ensures { result.now ≡ unary_word operator }
{
    match operator {
        UnaryOperator::Plus => b"+",
        UnaryOperator::Minus => b"-",
        UnaryOperator::Complement => b"~",
        UnaryOperator::Not => b"!",
    }
}

fn operand_word(operands: OperandType) -> &'static [u8]
    ensures { result.now ≡ operand_word operands }
{
    match operands {
        OperandType::Boolean => b"boolean",
        OperandType::Int => b"int",
        OperandType::Long => b"long",
        OperandType::Text => b"String",
        OperandType::Reference => b"reference",
    }
}

pub(crate) fn form_word(form: TargetForm) -> &'static [u8]
    ensures { result.now ≡ form_word form }
{
    match form {
        TargetForm::Static => b"static",
        TargetForm::This => b"this",
        TargetForm::Super => b"super",
        TargetForm::Other => b"other",
    }
}

// A word in front of a type.
fn put_typed(p: &Program, word: &[u8], typ: VType, into: &mut Text) -> Result<(), NoMemory>
    ensures { OnOk result (into.new ≡ into.old ++ (word.now ++ type_word p.now typ)) }
{
    into.push_bytes(word)?;
    put_type(p, typ, into)
}

pub(crate) fn put_operator(p: &Program, operator: Operator, into: &mut Text) -> Result<(), NoMemory>
    ensures { OnOk result (into.new ≡ into.old ++ operator_word p.now operator) }
{
    match operator {
        Operator::Unary(operator, typ) => {
            into.push_bytes(unary_word(operator))?;
            put_typed(p, b" to ", typ, into)
        }
        Operator::Binary(operator, operands, typ) => {
            into.push_bytes(operand_word(operands))?;
            into.push_bytes(b" ")?;
            into.push_bytes(binary_word(operator))?;
            put_typed(p, b" to ", typ, into)
        }
        Operator::InstanceOf(typ) => put_typed(p, b"instanceof ", typ, into),
        Operator::Convert(typ) => put_typed(p, b"to ", typ, into),
        Operator::Length => into.push_bytes(b"length"),
        Operator::Element => into.push_bytes(b"element"),
        Operator::StoreElement => into.push_bytes(b"store element"),
        Operator::StoreStatic(field) => {
            into.push_bytes(b"store ")?;
            put_field(p, field, into)
        }
        Operator::NewArray(typ) => put_typed(p, b"new ", typ, into),
    }
}
