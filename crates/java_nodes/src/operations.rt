ghost use Rattle.std.specs.Prelude.{◌≡◌, ◌∷◌, map, reverse, IfOk};
ghost use Rattle.java_syntax.specs.ExpressionTrees.{expr_of};
ghost use Rattle.java_values.specs.NestedTrees.{nested_of, open_operation_of};
ghost use Rattle.java_values.specs.Outcomes.{Gives};
ghost use Rattle.java_nodes.specs.Closed.{closed_of};
ghost use Rattle.java_nodes.specs.Parts as parts;

use crate::nodes::infix;
use java_syntax::{Expr, InfixOperator};
use java_values::{BuildFail, Nested, OpenOperation, put, take};
use rlc_base::Pos;
use std::alloc::{AllocError, Global};

/// The level of `instanceof` (JLS 15.20).
pub const COMPARISON: u32 = 3;

/// The level of the operator that binds the loosest, `||`.
pub const LOOSEST: u32 = 9;

/// How tight the operator binds (JLS 15.17 to 15.24): 0 the tightest, 9 the loosest.
pub fn level_of(operator: InfixOperator) -> u32
    ensures { result ≡ parts.level_of operator }
{
    match operator {
        InfixOperator::Multiply | InfixOperator::Divide | InfixOperator::Remainder => 0,
        InfixOperator::Add | InfixOperator::Subtract => 1,
        InfixOperator::ShiftLeft | InfixOperator::ShiftRight | InfixOperator::ShiftRightUnsigned =>
            2,
        InfixOperator::Less
        | InfixOperator::Greater
        | InfixOperator::LessOrEqual
        | InfixOperator::GreaterOrEqual => 3,
        InfixOperator::Equal | InfixOperator::NotEqual => 4,
        InfixOperator::And => 5,
        InfixOperator::Xor => 6,
        InfixOperator::Or => 7,
        InfixOperator::ConditionalAnd => 8,
        InfixOperator::ConditionalOr => 9,
    }
}

/// An operand, and the operators that wait for more than it, the tightest last.
#[derive(Drop)]
pub struct Closed {
    /// The operand.
    pub operand: Nested<Expr>,
    /// The operators.
    pub waiting: Vec<OpenOperation>,
}

/// The operand as the right one of the operators that bind at least as tight as this level, from the tightest on.
///
/// # Errors
///
/// `TooDeep` where a node would be deeper than the limit.
pub fn close_operations(
    alloc: Global,
    limit: u32,
    level: u32,
    right: Nested<Expr>,
    waiting: Vec<OpenOperation>,
) -> Result<Closed, BuildFail>
    ensures { Gives closed_of result (parts.closed limit level (nested_of expr_of right) (map open_operation_of (reverse waiting.items))) }
{
    let mut operand = right;
    let mut waiting = waiting;
    while let Some(operation) = take(&mut waiting) {
        if level < level_of(operation.operator) {
            put(&mut waiting, operation)?;
            return Ok(Closed { operand, waiting });
        }
        let OpenOperation {
            left,
            operator,
            pos,
        } = operation;
        operand = infix(alloc, limit, operator, left, operand, pos)?;
    }
    Ok(Closed { operand, waiting })
}

/// The operators that wait, and behind them this one with its left operand.
pub fn with_operator(
    joined: Closed,
    operator: InfixOperator,
    pos: Pos,
) -> Result<Vec<OpenOperation>, AllocError>
    ensures { IfOk result (λ all. map open_operation_of (reverse all.items) ≡ record { left = nested_of expr_of joined.operand; operator = operator; pos = pos } ∷ map open_operation_of (reverse joined.waiting.items)) }
{
    let Closed { operand, waiting } = joined;
    let mut waiting = waiting;
    put(
        &mut waiting,
        OpenOperation {
            left: operand,
            operator,
            pos,
        },
    )?;
    Ok(waiting)
}
