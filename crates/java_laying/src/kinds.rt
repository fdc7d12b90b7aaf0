//! The kind of an expression of a body, from its shape and the numbers of its parts.

ghost use Rattle.std.specs.Prelude.{◌≡◌, ◌≤◌, ◌+◌, ◌∷◌, ◌++◌, [], length};
ghost use Rattle.program_model.specs.Trees.{assignment_operands, call_target, operands};
ghost use Rattle.java_typed_trees.specs.WellFormed.{Takes, TakesArguments, parts_of_target};
ghost use Rattle.java_typed_trees.specs.declared.shapes.Shape.TheVariants as shapes;
ghost use Rattle.java_laying.specs.Cells.{call_shape, shape_of, target_shape};

use java_typed_trees::{CallShape, Shape, TargetShape};
use program_model::{
    AssignmentTarget, BinaryExpression, BinaryOperator, CallExpression, CallTarget, ExprId,
    ExpressionKind, MethodId, NewObject, OperandType, OperatorAssignment,
};

// The one number.
pub(crate) fn one_of<T: Copy>(ids: &[T]) -> T
    requires { length ids.now ≡ 1 }
    ensures { ids.now ≡ result ∷ [] }
{
    ids[0]
}

fn two_of(ids: &[ExprId]) -> (ExprId, ExprId)
    requires { length ids.now ≡ 2 }
    ensures { ids.now ≡ result.0 ∷ result.1 ∷ [] }
{
    (ids[0], ids[1])
}

fn three_of(ids: &[ExprId]) -> (ExprId, ExprId, ExprId)
    requires { length ids.now ≡ 3 }
    ensures { ids.now ≡ result.0 ∷ result.1 ∷ result.2 ∷ [] }
{
    (ids[0], ids[1], ids[2])
}

fn binary_kind(
    operator: BinaryOperator,
    operand_type: OperandType,
    ids: &[ExprId],
) -> ExpressionKind
    requires { length ids.now ≡ 2 }
    ensures shape { shape_of result ≡ shapes.Binary operator operand_type }
    ensures parts { operands result ≡ ids.now }
{
    let (left, right) = two_of(ids);
    ExpressionKind::Binary(BinaryExpression {
        operator,
        left,
        right,
        operands: operand_type,
    })
}

fn conditional_kind(ids: &[ExprId]) -> ExpressionKind
    requires { length ids.now ≡ 3 }
    ensures shape { shape_of result ≡ shapes.Conditional }
    ensures parts { operands result ≡ ids.now }
{
    let (condition, when_true, when_false) = three_of(ids);
    ExpressionKind::Conditional(condition, when_true, when_false)
}

fn element_kind(ids: &[ExprId]) -> ExpressionKind
    requires { length ids.now ≡ 2 }
    ensures shape { shape_of result ≡ shapes.Element }
    ensures parts { operands result ≡ ids.now }
{
    let (array, index) = two_of(ids);
    ExpressionKind::Element(array, index)
}

// The target of an assignment, and the value.
fn assignment_target(target: TargetShape, ids: &[ExprId]) -> (AssignmentTarget, ExprId)
    requires { length ids.now ≡ parts_of_target target + 1 }
    ensures shape { target_shape result.0 ≡ target }
    ensures parts { ids.now ≡ assignment_operands result.0 ++ result.1 ∷ [] }
{
    match target {
        TargetShape::Local(variable) => (AssignmentTarget::Local(variable), one_of(ids)),
        TargetShape::Field(field) => {
            let (object, value) = two_of(ids);
            (AssignmentTarget::Field(object, field), value)
        }
        TargetShape::StaticField(field) => (AssignmentTarget::StaticField(field), one_of(ids)),
        TargetShape::Element => {
            let (array, index, value) = three_of(ids);
            (AssignmentTarget::Element(array, index), value)
        }
    }
}

fn assignment_kind(target: TargetShape, ids: &[ExprId]) -> ExpressionKind
    requires { length ids.now ≡ parts_of_target target + 1 }
    ensures shape { shape_of result ≡ shapes.Assignment target }
    ensures parts { operands result ≡ ids.now }
{
    let (target, value) = assignment_target(target, ids);
    ExpressionKind::Assignment(target, value)
}

fn operator_assignment(
    operator: BinaryOperator,
    operand_type: OperandType,
    ids: &[ExprId],
) -> OperatorAssignment
    requires { length ids.now ≡ 2 }
    ensures operator { result.operator ≡ operator }
    ensures operands { result.operands ≡ operand_type }
    ensures parts { ids.now ≡ result.target ∷ result.value ∷ [] }
{
    let (target, value) = two_of(ids);
    OperatorAssignment {
        target,
        operator,
        value,
        operands: operand_type,
    }
}

fn target_in(form: CallShape, target: ExprId) -> CallTarget
    requires { TakesArguments form 0 → ⊥ }
    ensures shape { call_shape result ≡ form }
    ensures parts { call_target result ≡ target ∷ [] }
{
    match form {
        CallShape::Static => unreachable!(),
        CallShape::This => CallTarget::This(target),
        CallShape::Super => CallTarget::Super(target),
        CallShape::Other => CallTarget::Other(target),
    }
}

// A call whose target stands before the arguments.
fn call_on_target(form: CallShape, method: MethodId, mut ids: Vec<ExprId>) -> ExpressionKind
    requires has_target { TakesArguments form 0 → ⊥ }
    requires target { 1 ≤ length ids.items }
    ensures shape { shape_of result ≡ shapes.Call form method }
    ensures parts { operands result ≡ ids.items }
{
    let target = target_in(form, ids.remove(0));
    ExpressionKind::Call(CallExpression {
        target,
        method,
        arguments: ids,
    })
}

fn call_kind(form: CallShape, method: MethodId, ids: Vec<ExprId>) -> ExpressionKind
    requires { TakesArguments form (length ids.items) }
    ensures shape { shape_of result ≡ shapes.Call form method }
    ensures parts { operands result ≡ ids.items }
{
    match form {
        CallShape::Static => ExpressionKind::Call(CallExpression {
            target: CallTarget::Static,
            method,
            arguments: ids,
        }),
        CallShape::This => call_on_target(CallShape::This, method, ids),
        CallShape::Super => call_on_target(CallShape::Super, method, ids),
        CallShape::Other => call_on_target(CallShape::Other, method, ids),
    }
}

/// The expression of this shape whose parts have these numbers: as many as the shape takes.
pub fn kind_of(shape: Shape, ids: Vec<ExprId>) -> ExpressionKind
    requires { Takes shape (length ids.items) }
    ensures shape { shape_of result ≡ shape }
    ensures parts { operands result ≡ ids.items }
{
    match shape {
        Shape::Literal(literal) => ExpressionKind::Literal(literal),
        Shape::Local(variable) => ExpressionKind::Local(variable),
        Shape::This(written) => ExpressionKind::This(written),
        Shape::Field(field) => ExpressionKind::Field(one_of(&ids), field),
        Shape::StaticField(field) => ExpressionKind::StaticField(field),
        Shape::LibraryConstant(method) => ExpressionKind::LibraryConstant(method),
        Shape::Unary(operator) => ExpressionKind::Unary(operator, one_of(&ids)),
        Shape::Binary(operator, operands) => binary_kind(operator, operands, &ids),
        Shape::Conditional => conditional_kind(&ids),
        Shape::InstanceOf(tested) => ExpressionKind::InstanceOf(one_of(&ids), tested),
        Shape::PrimitiveCast => ExpressionKind::PrimitiveCast(one_of(&ids)),
        Shape::ReferenceCast => ExpressionKind::ReferenceCast(one_of(&ids)),
        Shape::Assignment(target) => assignment_kind(target, &ids),
        Shape::OperatorAssignment(operator, operands) => {
            ExpressionKind::OperatorAssignment(operator_assignment(operator, operands, &ids))
        }
        Shape::PostfixStep(operator, operands) => {
            ExpressionKind::PostfixStep(operator_assignment(operator, operands, &ids))
        }
        Shape::Call(form, method) => call_kind(form, method, ids),
        Shape::NewObject(class, constructor) => ExpressionKind::NewObject(NewObject {
            class,
            constructor,
            arguments: ids,
        }),
        Shape::NewArray => ExpressionKind::NewArray(one_of(&ids)),
        Shape::Element => element_kind(&ids),
        Shape::Length => ExpressionKind::Length(one_of(&ids)),
        Shape::Erroneous => unreachable!(),
    }
}
