ghost use Rattle.std.specs.Prelude.{◌≡◌, map, IfOk};
ghost use Rattle.java_syntax.specs.ExpressionTrees.{expr_of, expressions};
ghost use Rattle.java_syntax.specs.ExpressionTrees as expr;
ghost use Rattle.java_values.specs.NestedTrees.{nested_of, exprs_in};
ghost use Rattle.java_values.specs.Outcomes.{Gives};
ghost use Rattle.java_values.specs.Outcomes as outcomes;
ghost use Rattle.java_nodes.specs.Nodes as nodes;

use java_syntax::{Expr, InfixOperator, Name, PrefixOperator, StepOperator, Typ};
use java_values::{BuildFail, Nested, boxed, deeper, place_of};
use rlc_base::{NoMemory, Pos, Text};
use std::alloc::Global;

/// The tree with its depth, which is one more than that of its deepest part.
fn node(limit: u32, below: u32, tree: Expr, pos: Pos) -> Result<Nested<Expr>, BuildFail>
    ensures { Gives (nested_of expr_of) result (outcomes.node limit below (expr_of tree)) }
{
    match deeper(limit, below, pos) {
        Ok(depth) => Ok(Nested { tree, depth }),
        Err(fail) => {
            drop(tree);
            Err(fail)
        }
    }
}

/// The expression in a box.
fn in_box(alloc: Global, tree: Expr) -> Result<Box<Expr>, NoMemory>
    ensures { IfOk result (λ part. part.value ≡ tree) }
{
    boxed(alloc, tree)
}

/// A literal (JLS 3.10), one level deeper than its parts.
///
/// # Errors
///
/// `TooDeep` where it would be deeper than the limit.
pub fn literal(limit: u32, text: Text, pos: Pos) -> Result<Nested<Expr>, BuildFail>
    ensures { Gives (nested_of expr_of) result (nodes.literal_node limit text pos) }
{
    node(limit, 0, Expr::Literal { text, pos }, pos)
}

/// An identifier alone, one level deeper than its parts.
///
/// # Errors
///
/// `TooDeep` where it would be deeper than the limit.
pub fn identifier(limit: u32, name: Text, pos: Pos) -> Result<Nested<Expr>, BuildFail>
    ensures { Gives (nested_of expr_of) result (nodes.identifier_node limit name pos) }
{
    node(limit, 0, Expr::Identifier { name, pos }, pos)
}

/// `this`, one level deeper than its parts.
///
/// # Errors
///
/// `TooDeep` where it would be deeper than the limit.
pub fn this(limit: u32, pos: Pos) -> Result<Nested<Expr>, BuildFail>
    ensures { Gives (nested_of expr_of) result (nodes.this_node limit pos) }
{
    node(limit, 0, Expr::This { pos }, pos)
}

/// A call without a target (JLS 15.12), one level deeper than its parts.
///
/// # Errors
///
/// `TooDeep` where it would be deeper than the limit.
pub fn call(
    limit: u32,
    name: Text,
    arguments: Nested<Vec<Expr>>,
    pos: Pos,
) -> Result<Nested<Expr>, BuildFail>
    ensures { Gives (nested_of expr_of) result (nodes.call_node limit name (nested_of exprs_in arguments) pos) }
{
    let tree = Expr::Call {
        name,
        arguments: arguments.tree,
        pos,
    };
    node(limit, arguments.depth, tree, pos)
}

/// A call on `super`, one level deeper than its parts.
///
/// # Errors
///
/// `TooDeep` where it would be deeper than the limit.
pub fn super_call(
    limit: u32,
    name: Text,
    arguments: Nested<Vec<Expr>>,
    pos: Pos,
) -> Result<Nested<Expr>, BuildFail>
    ensures { Gives (nested_of expr_of) result (nodes.super_call_node limit name (nested_of exprs_in arguments) pos) }
{
    let tree = Expr::SuperCall {
        name,
        arguments: arguments.tree,
        pos,
    };
    node(limit, arguments.depth, tree, pos)
}

/// A call on an expression, one level deeper than its parts.
///
/// # Errors
///
/// `TooDeep` where it would be deeper than the limit.
pub fn method_call(
    alloc: Global,
    limit: u32,
    target: Nested<Expr>,
    name: Text,
    arguments: Nested<Vec<Expr>>,
    pos: Pos,
) -> Result<Nested<Expr>, BuildFail>
    ensures { Gives (nested_of expr_of) result (nodes.method_call_node limit (nested_of expr_of target) name (nested_of exprs_in arguments) pos) }
{
    let below = target.depth.max(arguments.depth);
    match in_box(alloc, target.tree) {
        Ok(target) => node(
            limit,
            below,
            Expr::MethodCall {
                target,
                name,
                arguments: arguments.tree,
                pos,
            },
            pos,
        ),
        Err(NoMemory) => Err(BuildFail::NoMemory),
    }
}

/// A field of an expression (JLS 15.11), one level deeper than its parts.
///
/// # Errors
///
/// `TooDeep` where it would be deeper than the limit.
pub fn field_access(
    alloc: Global,
    limit: u32,
    target: Nested<Expr>,
    name: Text,
    pos: Pos,
) -> Result<Nested<Expr>, BuildFail>
    ensures { Gives (nested_of expr_of) result (nodes.field_access_node limit (nested_of expr_of target) name pos) }
{
    let below = target.depth;
    match in_box(alloc, target.tree) {
        Ok(target) => node(limit, below, Expr::FieldAccess { target, name, pos }, pos),
        Err(NoMemory) => Err(BuildFail::NoMemory),
    }
}

/// An element of an array (JLS 15.10.3), one level deeper than its parts.
///
/// # Errors
///
/// `TooDeep` where it would be deeper than the limit.
pub fn index(
    alloc: Global,
    limit: u32,
    array: Nested<Expr>,
    index: Nested<Expr>,
    pos: Pos,
) -> Result<Nested<Expr>, BuildFail>
    ensures { Gives (nested_of expr_of) result (nodes.index_node limit (nested_of expr_of array) (nested_of expr_of index) pos) }
{
    let below = array.depth.max(index.depth);
    match (in_box(alloc, array.tree), in_box(alloc, index.tree)) {
        (Ok(array), Ok(index)) => node(limit, below, Expr::Index { array, index, pos }, pos),
        _ => Err(BuildFail::NoMemory),
    }
}

/// A new object (JLS 15.9), one level deeper than its parts.
///
/// # Errors
///
/// `TooDeep` where it would be deeper than the limit.
pub fn new_object(
    limit: u32,
    class: Name,
    arguments: Nested<Vec<Expr>>,
    pos: Pos,
) -> Result<Nested<Expr>, BuildFail>
    ensures { Gives (nested_of expr_of) result (nodes.new_object_node limit class (nested_of exprs_in arguments) pos) }
{
    let tree = Expr::NewObject {
        class,
        arguments: arguments.tree,
        pos,
    };
    node(limit, arguments.depth, tree, pos)
}

/// A new array (JLS 15.10.1), one level deeper than its parts.
///
/// # Errors
///
/// `TooDeep` where it would be deeper than the limit.
pub fn new_array(
    alloc: Global,
    limit: u32,
    element: Typ,
    length: Nested<Expr>,
    pos: Pos,
) -> Result<Nested<Expr>, BuildFail>
    ensures { Gives (nested_of expr_of) result (nodes.new_array_node limit element (nested_of expr_of length) pos) }
{
    let below = length.depth;
    match in_box(alloc, length.tree) {
        Ok(length) => node(
            limit,
            below,
            Expr::NewArray {
                element,
                length,
                pos,
            },
            pos,
        ),
        Err(NoMemory) => Err(BuildFail::NoMemory),
    }
}

/// An operator before its operand (JLS 15.15), one level deeper than its parts.
///
/// # Errors
///
/// `TooDeep` where it would be deeper than the limit.
pub fn prefix(
    alloc: Global,
    limit: u32,
    operator: PrefixOperator,
    operand: Nested<Expr>,
    pos: Pos,
) -> Result<Nested<Expr>, BuildFail>
    ensures { Gives (nested_of expr_of) result (nodes.prefix_node limit operator (nested_of expr_of operand) pos) }
{
    let below = operand.depth;
    match in_box(alloc, operand.tree) {
        Ok(operand) => node(
            limit,
            below,
            Expr::Prefix {
                operator,
                operand,
                pos,
            },
            pos,
        ),
        Err(NoMemory) => Err(BuildFail::NoMemory),
    }
}

/// `++` or `--` before its operand (JLS 15.15.1), one level deeper than its parts.
///
/// # Errors
///
/// `TooDeep` where it would be deeper than the limit.
pub fn prefix_step(
    alloc: Global,
    limit: u32,
    operator: StepOperator,
    operand: Nested<Expr>,
    pos: Pos,
) -> Result<Nested<Expr>, BuildFail>
    ensures { Gives (nested_of expr_of) result (nodes.prefix_step_node limit operator (nested_of expr_of operand) pos) }
{
    let below = operand.depth;
    match in_box(alloc, operand.tree) {
        Ok(operand) => node(
            limit,
            below,
            Expr::PrefixStep {
                operator,
                operand,
                pos,
            },
            pos,
        ),
        Err(NoMemory) => Err(BuildFail::NoMemory),
    }
}

/// `++` or `--` behind its operand (JLS 15.14), one level deeper than its parts.
///
/// # Errors
///
/// `TooDeep` where it would be deeper than the limit.
pub fn postfix_step(
    alloc: Global,
    limit: u32,
    operator: StepOperator,
    operand: Nested<Expr>,
    pos: Pos,
) -> Result<Nested<Expr>, BuildFail>
    ensures { Gives (nested_of expr_of) result (nodes.postfix_step_node limit operator (nested_of expr_of operand) pos) }
{
    let below = operand.depth;
    match in_box(alloc, operand.tree) {
        Ok(operand) => node(
            limit,
            below,
            Expr::PostfixStep {
                operator,
                operand,
                pos,
            },
            pos,
        ),
        Err(NoMemory) => Err(BuildFail::NoMemory),
    }
}

/// A cast (JLS 15.16), one level deeper than its parts.
///
/// # Errors
///
/// `TooDeep` where it would be deeper than the limit.
pub fn cast(
    alloc: Global,
    limit: u32,
    typ: Typ,
    operand: Nested<Expr>,
    pos: Pos,
) -> Result<Nested<Expr>, BuildFail>
    ensures { Gives (nested_of expr_of) result (nodes.cast_node limit typ (nested_of expr_of operand) pos) }
{
    let below = operand.depth;
    match in_box(alloc, operand.tree) {
        Ok(operand) => node(limit, below, Expr::Cast { typ, operand, pos }, pos),
        Err(NoMemory) => Err(BuildFail::NoMemory),
    }
}

/// An operator between its operands (JLS 15.17 to 15.24), one level deeper than its parts.
///
/// # Errors
///
/// `TooDeep` where it would be deeper than the limit.
pub fn infix(
    alloc: Global,
    limit: u32,
    operator: InfixOperator,
    left: Nested<Expr>,
    right: Nested<Expr>,
    pos: Pos,
) -> Result<Nested<Expr>, BuildFail>
    ensures { Gives (nested_of expr_of) result (nodes.infix_node limit operator (nested_of expr_of left) (nested_of expr_of right) pos) }
{
    let below = left.depth.max(right.depth);
    match (in_box(alloc, left.tree), in_box(alloc, right.tree)) {
        (Ok(left), Ok(right)) => node(
            limit,
            below,
            Expr::Infix {
                operator,
                left,
                right,
                pos,
            },
            pos,
        ),
        _ => Err(BuildFail::NoMemory),
    }
}

/// An `instanceof` (JLS 15.20.2), one level deeper than its parts.
///
/// # Errors
///
/// `TooDeep` where it would be deeper than the limit.
pub fn instance(
    alloc: Global,
    limit: u32,
    operand: Nested<Expr>,
    typ: Typ,
    pos: Pos,
) -> Result<Nested<Expr>, BuildFail>
    ensures { Gives (nested_of expr_of) result (nodes.instance_node limit (nested_of expr_of operand) typ pos) }
{
    let below = operand.depth;
    match in_box(alloc, operand.tree) {
        Ok(operand) => node(limit, below, Expr::InstanceOf { operand, typ, pos }, pos),
        Err(NoMemory) => Err(BuildFail::NoMemory),
    }
}

/// A conditional expression (JLS 15.25), one level deeper than its parts.
///
/// # Errors
///
/// `TooDeep` where it would be deeper than the limit.
pub fn conditional(
    alloc: Global,
    limit: u32,
    condition: Nested<Expr>,
    when_true: Nested<Expr>,
    when_false: Nested<Expr>,
    pos: Pos,
) -> Result<Nested<Expr>, BuildFail>
    ensures { Gives (nested_of expr_of) result (nodes.conditional_node limit (nested_of expr_of condition) (nested_of expr_of when_true) (nested_of expr_of when_false) pos) }
{
    let below = condition.depth.max(when_true.depth.max(when_false.depth));
    match (
        in_box(alloc, condition.tree),
        in_box(alloc, when_true.tree),
        in_box(alloc, when_false.tree),
    ) {
        (Ok(condition), Ok(when_true), Ok(when_false)) => node(
            limit,
            below,
            Expr::Conditional {
                condition,
                when_true,
                when_false,
                pos,
            },
            pos,
        ),
        _ => Err(BuildFail::NoMemory),
    }
}

/// An assignment (JLS 15.26.1), one level deeper than its parts.
///
/// # Errors
///
/// `TooDeep` where it would be deeper than the limit.
pub fn assignment(
    alloc: Global,
    limit: u32,
    left: Nested<Expr>,
    right: Nested<Expr>,
    pos: Pos,
) -> Result<Nested<Expr>, BuildFail>
    ensures { Gives (nested_of expr_of) result (nodes.assignment_node limit (nested_of expr_of left) (nested_of expr_of right) pos) }
{
    let below = left.depth.max(right.depth);
    match (in_box(alloc, left.tree), in_box(alloc, right.tree)) {
        (Ok(left), Ok(right)) => node(limit, below, Expr::Assignment { left, right, pos }, pos),
        _ => Err(BuildFail::NoMemory),
    }
}

/// A compound assignment (JLS 15.26.2), one level deeper than its parts.
///
/// # Errors
///
/// `TooDeep` where it would be deeper than the limit.
pub fn compound(
    alloc: Global,
    limit: u32,
    operator: InfixOperator,
    left: Nested<Expr>,
    right: Nested<Expr>,
    pos: Pos,
) -> Result<Nested<Expr>, BuildFail>
    ensures { Gives (nested_of expr_of) result (nodes.compound_node limit operator (nested_of expr_of left) (nested_of expr_of right) pos) }
{
    let below = left.depth.max(right.depth);
    match (in_box(alloc, left.tree), in_box(alloc, right.tree)) {
        (Ok(left), Ok(right)) => node(
            limit,
            below,
            Expr::CompoundAssignment {
                operator,
                left,
                right,
                pos,
            },
            pos,
        ),
        _ => Err(BuildFail::NoMemory),
    }
}

/// Parentheses round an expression (JLS 15.8.5), which leave no node and are one level.
///
/// # Errors
///
/// `TooDeep` where that would be deeper than the limit.
pub fn parenthesized(limit: u32, e: Nested<Expr>) -> Result<Nested<Expr>, BuildFail>
    ensures { Gives (nested_of expr_of) result (nodes.parenthesized limit (nested_of expr_of e)) }
{
    let pos = place_of(&e.tree);
    node(limit, e.depth, e.tree, pos)
}
