//! The typings of literals, of `this`, and of the expressions that are made of operators, over those of their parts (JLS 15).

ghost use Rattle.std.specs.Prelude.{◌≡◌, ◌++◌, IfOk, OnOk};
ghost use Rattle.java_syntax.specs.ExpressionTrees.{expr_of};
ghost use Rattle.java_operator_expressions.specs.OperatorExpressions.{answer_under, answer_under_minus, binary_typing, cast_typing, conditional_typing, element_typing, instance_of_typing, literal_typing, new_array_typing, this_typing, unary_typing};
ghost use Rattle.java_expression_parts.specs.Surroundings.{surroundings_of};
ghost use Rattle.java_expression_parts.specs.TypedParts.{own_refusals, typing_of};

use java_expression_parts::{BodyScope, ExpressionTyping, one, operand, settle_in, three, two};
use java_literals::literal_value;
use java_member_rules::this_by;
use java_operator_rules::{
    binary_by, cast_by, conditional_by, element_by, instance_of_by, literal_by,
    literal_under_minus_by, new_array_by, unary_by,
};
use java_syntax::{Expr, PrefixOperator};
use java_typed_trees::Answer;
use program_model::{BinaryOperator, UnaryOperator, VType};
use rlc_base::{NoMemory, Pos, Refusal, Text};
use std::alloc::Global;

/// A literal (JLS 15.8.1).
pub fn literal(
    alloc: Global,
    scope: &BodyScope,
    refusals: &mut Vec<Refusal>,
    pos: Pos,
    text: &Text,
) -> Result<ExpressionTyping, NoMemory>
    ensures typing { IfOk result (λ r. typing_of r ≡ literal_typing pos text.now) }
    ensures cases { OnOk result (refusals.new.items ≡ refusals.old.items ++ own_refusals (surroundings_of scope.now) (literal_typing pos text.now)) }
{
    let answer = literal_by(pos, literal_value(text.bytes()));
    settle_in(scope, refusals, answer, Vec::new(alloc))
}

/// `this` (JLS 15.8.3).
pub fn this(
    alloc: Global,
    scope: &BodyScope,
    refusals: &mut Vec<Refusal>,
    pos: Pos,
) -> Result<ExpressionTyping, NoMemory>
    ensures typing { IfOk result (λ r. typing_of r ≡ this_typing (surroundings_of scope.now) pos) }
    ensures cases { OnOk result (refusals.new.items ≡ refusals.old.items ++ own_refusals (surroundings_of scope.now) (this_typing (surroundings_of scope.now) pos)) }
{
    let answer = this_by(scope.scope.has_this, scope.scope.class, pos);
    settle_in(scope, refusals, answer, Vec::new(alloc))
}

/// `a[i]` (JLS 15.10.3).
pub fn element(
    alloc: Global,
    scope: &BodyScope,
    refusals: &mut Vec<Refusal>,
    pos: Pos,
    a: ExpressionTyping,
    i: ExpressionTyping,
) -> Result<ExpressionTyping, NoMemory>
    ensures typing { IfOk result (λ r. typing_of r ≡ element_typing pos (typing_of a) (typing_of i)) }
    ensures cases { OnOk result (refusals.new.items ≡ refusals.old.items ++ own_refusals (surroundings_of scope.now) (element_typing pos (typing_of a) (typing_of i))) }
{
    let answer = element_by(pos, operand(a.answer), operand(i.answer));
    let parts = two(alloc, a.tree, i.tree)?;
    settle_in(scope, refusals, answer, parts)
}

/// `new T[n]` (JLS 15.10.1). The type of the elements is None where its name is refused.
pub fn new_array(
    alloc: Global,
    scope: &BodyScope,
    refusals: &mut Vec<Refusal>,
    pos: Pos,
    element: Option<VType>,
    size: ExpressionTyping,
) -> Result<ExpressionTyping, NoMemory>
    ensures typing { IfOk result (λ r. typing_of r ≡ new_array_typing pos element (typing_of size)) }
    ensures cases { OnOk result (refusals.new.items ≡ refusals.old.items ++ own_refusals (surroundings_of scope.now) (new_array_typing pos element (typing_of size))) }
{
    let answer = new_array_by(pos, element, operand(size.answer));
    let parts = one(alloc, size.tree)?;
    settle_in(scope, refusals, answer, parts)
}

fn answer_under_minus(operand: &Expr) -> Option<Answer>
    ensures { result ≡ answer_under_minus (expr_of operand.now) }
{
    match operand {
        Expr::Literal { text, pos } => {
            Some(literal_under_minus_by(*pos, literal_value(text.bytes())))
        }
        _ => None,
    }
}

/// What the rule of a literal under a unary minus says of the operand, where it is one (JLS 3.10.1).
pub fn answer_under(operator: PrefixOperator, operand: &Expr) -> Option<Answer>
    ensures { result ≡ answer_under operator (expr_of operand.now) }
{
    match operator {
        PrefixOperator::Plus => None,
        PrefixOperator::Minus => answer_under_minus(operand),
        PrefixOperator::Not => None,
        PrefixOperator::Complement => None,
    }
}

/// `+a`, `-a`, `~a` or `!a` (JLS 15.15.3 to 15.15.6).
pub fn unary(
    alloc: Global,
    scope: &BodyScope,
    refusals: &mut Vec<Refusal>,
    operator: UnaryOperator,
    pos: Pos,
    a: ExpressionTyping,
) -> Result<ExpressionTyping, NoMemory>
    ensures typing { IfOk result (λ r. typing_of r ≡ unary_typing operator pos (typing_of a)) }
    ensures cases { OnOk result (refusals.new.items ≡ refusals.old.items ++ own_refusals (surroundings_of scope.now) (unary_typing operator pos (typing_of a))) }
{
    let answer = unary_by(operator, pos, operand(a.answer));
    let parts = one(alloc, a.tree)?;
    settle_in(scope, refusals, answer, parts)
}

/// `(T) a` (JLS 15.16). The type that is written is None where its name is refused.
pub fn cast(
    alloc: Global,
    scope: &BodyScope,
    refusals: &mut Vec<Refusal>,
    pos: Pos,
    to: Option<VType>,
    a: ExpressionTyping,
) -> Result<ExpressionTyping, NoMemory>
    ensures typing { IfOk result (λ r. typing_of r ≡ cast_typing (surroundings_of scope.now) pos to (typing_of a)) }
    ensures cases { OnOk result (refusals.new.items ≡ refusals.old.items ++ own_refusals (surroundings_of scope.now) (cast_typing (surroundings_of scope.now) pos to (typing_of a))) }
{
    let answer = cast_by(scope.scope.program, pos, to, operand(a.answer));
    let parts = one(alloc, a.tree)?;
    settle_in(scope, refusals, answer, parts)
}

/// `a operator b` (JLS 15.17 to 15.24).
pub fn binary(
    alloc: Global,
    scope: &BodyScope,
    refusals: &mut Vec<Refusal>,
    operator: BinaryOperator,
    pos: Pos,
    a: ExpressionTyping,
    b: ExpressionTyping,
) -> Result<ExpressionTyping, NoMemory>
    ensures typing { IfOk result (λ r. typing_of r ≡ binary_typing (surroundings_of scope.now) operator pos (typing_of a) (typing_of b)) }
    ensures cases { OnOk result (refusals.new.items ≡ refusals.old.items ++ own_refusals (surroundings_of scope.now) (binary_typing (surroundings_of scope.now) operator pos (typing_of a) (typing_of b))) }
{
    let left = operand(a.answer);
    let right = operand(b.answer);
    let answer = binary_by(scope.scope.program, operator, pos, left, right);
    let parts = two(alloc, a.tree, b.tree)?;
    settle_in(scope, refusals, answer, parts)
}

/// `a instanceof T` (JLS 15.20.2). The type that is written is None where its name is refused.
pub fn instance_of(
    alloc: Global,
    scope: &BodyScope,
    refusals: &mut Vec<Refusal>,
    pos: Pos,
    tested: Option<VType>,
    a: ExpressionTyping,
) -> Result<ExpressionTyping, NoMemory>
    ensures typing { IfOk result (λ r. typing_of r ≡ instance_of_typing (surroundings_of scope.now) pos tested (typing_of a)) }
    ensures cases { OnOk result (refusals.new.items ≡ refusals.old.items ++ own_refusals (surroundings_of scope.now) (instance_of_typing (surroundings_of scope.now) pos tested (typing_of a))) }
{
    let answer = instance_of_by(scope.scope.program, pos, tested, operand(a.answer));
    let parts = one(alloc, a.tree)?;
    settle_in(scope, refusals, answer, parts)
}

/// `c ? a : b` (JLS 15.25). `wanted` is the type that an assignment context wants, if it stands in one.
pub fn conditional(
    alloc: Global,
    scope: &BodyScope,
    refusals: &mut Vec<Refusal>,
    wanted: Option<VType>,
    pos: Pos,
    c: ExpressionTyping,
    a: ExpressionTyping,
    b: ExpressionTyping,
) -> Result<ExpressionTyping, NoMemory>
    ensures typing { IfOk result (λ r. typing_of r ≡ conditional_typing (surroundings_of scope.now) wanted pos (typing_of c) (typing_of a) (typing_of b)) }
    ensures cases { OnOk result (refusals.new.items ≡ refusals.old.items ++ own_refusals (surroundings_of scope.now) (conditional_typing (surroundings_of scope.now) wanted pos (typing_of c) (typing_of a) (typing_of b))) }
{
    let condition = operand(c.answer);
    let left = operand(a.answer);
    let right = operand(b.answer);
    let answer = conditional_by(scope.scope.program, wanted, pos, condition, left, right);
    let parts = three(alloc, c.tree, a.tree, b.tree)?;
    settle_in(scope, refusals, answer, parts)
}
