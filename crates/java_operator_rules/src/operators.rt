//! The rules of unary and binary expressions (JLS 15.15, 15.17 to 15.24), and of the assignments that use an operator
//! (JLS 15.14.2, 15.14.3, 15.15.1, 15.15.2, 15.26.2).

ghost use Rattle.std.specs.Prelude.{◌≡◌};
ghost use Rattle.std.specs.Option.{option_map};
ghost use Rattle.java_constants.specs.Folding.{folded_unary};
ghost use Rattle.java_typed_trees.specs.declared.shapes.Shape.TheVariants as shapes;
ghost use Rattle.java_operator_rules.specs.Operators.{assigned_by, binary_by, binary_of, constant_as, folded_both, operator_assignment_by, postfix_step_by, prefix_step_by, promoted_or_boolean, unary_by, unary_of};

use java_constants::{folded, folded_unary};
use java_conversions::{
    binary_result, compound_operands, operands_of, promoted, step_operands, unary_result,
};
use java_typed_trees::{Answer, Facts, Shape, constant_at, mismatch, type_of, value_at};
use program_model::{BinaryOperator, OperandType, Program, UnaryOperator, VType};
use rlc_base::Pos;

// An expression of the type, where there is one; else it has no type.
pub(crate) fn constant_as(
    shape: Shape,
    pos: Pos,
    vtype: Option<VType>,
    constant: Option<i64>,
) -> Answer
    ensures { result ≡ constant_as shape pos vtype constant }
{
    match vtype {
        None => mismatch(pos),
        Some(found) => Answer::Is(shape, constant_at(pos, found, constant)),
    }
}

fn promoted_or_boolean(promoted: Option<OperandType>) -> OperandType
    ensures { result ≡ promoted_or_boolean promoted }
{
    match promoted {
        None => OperandType::Boolean,
        Some(found) => found,
    }
}

fn folded_operand(
    operator: UnaryOperator,
    operand: OperandType,
    constant: Option<i64>,
) -> Option<i64>
    ensures { result ≡ option_map (folded_unary operator operand) constant }
{
    match constant {
        None => None,
        Some(value) => Some(folded_unary(operator, operand, value)),
    }
}

fn unary_of(operator: UnaryOperator, pos: Pos, constant: Option<i64>, operand: VType) -> Answer
    ensures { result ≡ unary_of operator pos constant operand }
{
    let promoted = promoted_or_boolean(promoted(operand));
    let value = folded_operand(operator, promoted, constant);
    constant_as(
        Shape::Unary(operator),
        pos,
        unary_result(operator, operand),
        value,
    )
}

/// `+a`, `-a`, `~a` or `!a` (JLS 15.15.3 to 15.15.6).
pub fn unary_by(operator: UnaryOperator, pos: Pos, a: Facts) -> Answer
    ensures { result ≡ unary_by operator pos a }
{
    match type_of(a) {
        None => Answer::Silent(pos),
        Some(operand) => unary_of(operator, pos, a.constant, operand),
    }
}

fn folded_both(
    operator: BinaryOperator,
    operands: OperandType,
    a: Option<i64>,
    b: Option<i64>,
) -> Option<i64>
    ensures { result ≡ folded_both operator operands a b }
{
    let left = a?;
    let right = b?;
    folded(operator, operands, left, right)
}

fn binary_of(
    operator: BinaryOperator,
    pos: Pos,
    a: Option<i64>,
    b: Option<i64>,
    operands: Option<OperandType>,
) -> Answer
    ensures { result ≡ binary_of operator pos a b operands }
{
    match operands {
        None => mismatch(pos),
        Some(found) => {
            let value = folded_both(operator, found, a, b);
            let shape = Shape::Binary(operator, found);
            constant_as(shape, pos, binary_result(operator, found), value)
        }
    }
}

/// `a operator b` (JLS 15.17 to 15.24).
pub fn binary_by(p: &Program, operator: BinaryOperator, pos: Pos, a: Facts, b: Facts) -> Answer
    ensures { result ≡ binary_by p.now operator pos a b }
{
    match type_of(a) {
        None => Answer::Silent(pos),
        Some(left) => match type_of(b) {
            None => Answer::Silent(pos),
            Some(right) => {
                let operands = operands_of(p, operator, left, right);
                binary_of(operator, pos, a.constant, b.constant, operands)
            }
        },
    }
}

fn operator_assignment_of(
    operator: BinaryOperator,
    pos: Pos,
    variable: VType,
    operands: Option<OperandType>,
) -> Answer
    ensures { result ≡ assigned_by pos variable operands (shapes.OperatorAssignment operator) }
{
    match operands {
        None => mismatch(pos),
        Some(found) => {
            let shape = Shape::OperatorAssignment(operator, found);
            Answer::Is(shape, value_at(pos, variable))
        }
    }
}

fn postfix_step_of(
    operator: BinaryOperator,
    pos: Pos,
    variable: VType,
    operands: Option<OperandType>,
) -> Answer
    ensures { result ≡ assigned_by pos variable operands (shapes.PostfixStep operator) }
{
    match operands {
        None => mismatch(pos),
        Some(found) => {
            let shape = Shape::PostfixStep(operator, found);
            Answer::Is(shape, value_at(pos, variable))
        }
    }
}

/// `x operator= b` (JLS 15.26.2), over a variable that may be assigned.
pub fn operator_assignment_by(
    p: &Program,
    operator: BinaryOperator,
    pos: Pos,
    x: Facts,
    b: Facts,
) -> Answer
    ensures { result ≡ operator_assignment_by p.now operator pos x b }
{
    match type_of(x) {
        None => Answer::Silent(pos),
        Some(variable) => match type_of(b) {
            None => Answer::Silent(pos),
            Some(value) => {
                let operands = compound_operands(p, operator, variable, value);
                operator_assignment_of(operator, pos, variable, operands)
            }
        },
    }
}

/// `++x` and `--x` (JLS 15.15.1, 15.15.2), over a variable that may be assigned. The operator is that which takes the step:
/// an addition or a subtraction.
pub fn prefix_step_by(operator: BinaryOperator, pos: Pos, x: Facts) -> Answer
    ensures { result ≡ prefix_step_by operator pos x }
{
    match type_of(x) {
        None => Answer::Silent(pos),
        Some(variable) => {
            operator_assignment_of(operator, pos, variable, step_operands(variable))
        }
    }
}

/// `x++` and `x--` (JLS 15.14.2, 15.14.3), over a variable that may be assigned. The operator is that which takes the step:
/// an addition or a subtraction.
pub fn postfix_step_by(operator: BinaryOperator, pos: Pos, x: Facts) -> Answer
    ensures { result ≡ postfix_step_by operator pos x }
{
    match type_of(x) {
        None => Answer::Silent(pos),
        Some(variable) => postfix_step_of(operator, pos, variable, step_operands(variable)),
    }
}
