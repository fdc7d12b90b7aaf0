//! What a condition becomes.

ghost use Rattle.std.specs.Prelude.{◌≡◌, ◌≤◌, ◌++◌, max, length, IfOk};
ghost use Rattle.expression_control.specs.Conditions.{binary_condition, condition_front, equal_condition, kind_condition, literal_condition, node_condition, not_equal_condition, tests_value, unary_condition};
ghost use Rattle.control_actions.specs.Remaining.{todos};
ghost use Rattle.control_actions.specs.Tables.{Keeps, list_at};
ghost use Rattle.program_model.specs.Lookups.{expression_at};

use crate::places::nowhere;
use control_actions::{Condition, Item, Lists, compared_with_null};
use program_model::{
    BinaryExpression, BinaryOperator, Body, ExprId, ExpressionKind, Literal, UnaryOperator,
};
use rlc_base::{NoMemory, Pos};

// The value of any other condition is tested.
fn tests_value(
    lists: &mut Lists,
    e: ExprId,
    pos: Pos,
    d: u32,
    p: usize,
    q: usize,
    rest: usize,
) -> Result<usize, NoMemory>
    requires { max (max p q) rest ≤ length lists.old.cells.keys }
    ensures list { IfOk result (λ id. todos (list_at lists.new.cells.keys id) ≡ tests_value e pos d (list_at lists.old.cells.keys p) (list_at lists.old.cells.keys q) ++ todos (list_at lists.old.cells.keys rest)) }
    ensures within { IfOk result (λ id. id ≤ length lists.new.cells.keys) }
    ensures kept { Keeps lists.old.cells.keys lists.new.cells.keys }
{
    lists.push_all(&[Item::Ev(e, d), Item::BoolFork(pos, d, p, q)], rest)
}

fn literal_condition(
    lists: &mut Lists,
    literal: Literal,
    e: ExprId,
    pos: Pos,
    d: u32,
    p: usize,
    q: usize,
    rest: usize,
) -> Result<usize, NoMemory>
    requires { max (max p q) rest ≤ length lists.old.cells.keys }
    ensures list { IfOk result (λ id. todos (list_at lists.new.cells.keys id) ≡ literal_condition literal e pos d (list_at lists.old.cells.keys p) (list_at lists.old.cells.keys q) ++ todos (list_at lists.old.cells.keys rest)) }
    ensures within { IfOk result (λ id. id ≤ length lists.new.cells.keys) }
    ensures kept { Keeps lists.old.cells.keys lists.new.cells.keys }
{
    match literal {
        Literal::Boolean(true) => lists.append(p, rest),
        Literal::Boolean(false) => lists.append(q, rest),
        _ => tests_value(lists, e, pos, d, p, q, rest),
    }
}

fn unary_condition(
    lists: &mut Lists,
    operator: UnaryOperator,
    c: ExprId,
    e: ExprId,
    pos: Pos,
    d: u32,
    p: usize,
    q: usize,
    rest: usize,
) -> Result<usize, NoMemory>
    requires { max (max p q) rest ≤ length lists.old.cells.keys }
    ensures list { IfOk result (λ id. todos (list_at lists.new.cells.keys id) ≡ unary_condition operator c e pos d (list_at lists.old.cells.keys p) (list_at lists.old.cells.keys q) ++ todos (list_at lists.old.cells.keys rest)) }
    ensures within { IfOk result (λ id. id ≤ length lists.new.cells.keys) }
    ensures kept { Keeps lists.old.cells.keys lists.new.cells.keys }
{
    match operator {
        UnaryOperator::Not => lists.push(Item::Cond(Condition::Of(c), d, q, p), rest),
        _ => tests_value(lists, e, pos, d, p, q, rest),
    }
}

// A comparison by `==`, with the operand that is compared with null where there is one.
fn equal_condition(
    lists: &mut Lists,
    compared: Option<ExprId>,
    e: ExprId,
    pos: Pos,
    d: u32,
    p: usize,
    q: usize,
    rest: usize,
) -> Result<usize, NoMemory>
    requires { max (max p q) rest ≤ length lists.old.cells.keys }
    ensures list { IfOk result (λ id. todos (list_at lists.new.cells.keys id) ≡ equal_condition compared e pos d (list_at lists.old.cells.keys p) (list_at lists.old.cells.keys q) ++ todos (list_at lists.old.cells.keys rest)) }
    ensures within { IfOk result (λ id. id ≤ length lists.new.cells.keys) }
    ensures kept { Keeps lists.old.cells.keys lists.new.cells.keys }
{
    match compared {
        Some(x) => lists.push_all(&[Item::Ev(x, d), Item::NullFork(pos, d, p, q)], rest),
        None => tests_value(lists, e, pos, d, p, q, rest),
    }
}

// A comparison by `!=`.
fn not_equal_condition(
    lists: &mut Lists,
    compared: Option<ExprId>,
    e: ExprId,
    pos: Pos,
    d: u32,
    p: usize,
    q: usize,
    rest: usize,
) -> Result<usize, NoMemory>
    requires { max (max p q) rest ≤ length lists.old.cells.keys }
    ensures list { IfOk result (λ id. todos (list_at lists.new.cells.keys id) ≡ not_equal_condition compared e pos d (list_at lists.old.cells.keys p) (list_at lists.old.cells.keys q) ++ todos (list_at lists.old.cells.keys rest)) }
    ensures within { IfOk result (λ id. id ≤ length lists.new.cells.keys) }
    ensures kept { Keeps lists.old.cells.keys lists.new.cells.keys }
{
    match compared {
        Some(x) => lists.push_all(&[Item::Ev(x, d), Item::NullFork(pos, d, q, p)], rest),
        None => tests_value(lists, e, pos, d, p, q, rest),
    }
}

fn binary_condition(
    lists: &mut Lists,
    body: &Body,
    x: BinaryExpression,
    e: ExprId,
    pos: Pos,
    d: u32,
    p: usize,
    q: usize,
    rest: usize,
) -> Result<usize, NoMemory>
    requires { max (max p q) rest ≤ length lists.old.cells.keys }
    ensures list { IfOk result (λ id. todos (list_at lists.new.cells.keys id) ≡ binary_condition x.operator x body.now e pos d (list_at lists.old.cells.keys p) (list_at lists.old.cells.keys q) ++ todos (list_at lists.old.cells.keys rest)) }
    ensures within { IfOk result (λ id. id ≤ length lists.new.cells.keys) }
    ensures kept { Keeps lists.old.cells.keys lists.new.cells.keys }
{
    match x.operator {
        BinaryOperator::ConditionalAnd => {
            let more = lists.single(Item::Cond(Condition::Of(x.right), d, p, q))?;
            lists.push(Item::Cond(Condition::Of(x.left), d, more, q), rest)
        }
        BinaryOperator::ConditionalOr => {
            let more = lists.single(Item::Cond(Condition::Of(x.right), d, p, q))?;
            lists.push(Item::Cond(Condition::Of(x.left), d, p, more), rest)
        }
        BinaryOperator::Equal => {
            let compared = compared_with_null(body, x);
            equal_condition(lists, compared, e, pos, d, p, q, rest)
        }
        BinaryOperator::NotEqual => {
            let compared = compared_with_null(body, x);
            not_equal_condition(lists, compared, e, pos, d, p, q, rest)
        }
        _ => tests_value(lists, e, pos, d, p, q, rest),
    }
}

// A condition that is an expression.
fn node_condition(
    lists: &mut Lists,
    body: &Body,
    e: ExprId,
    d: u32,
    p: usize,
    q: usize,
    rest: usize,
) -> Result<usize, NoMemory>
    requires { max (max p q) rest ≤ length lists.old.cells.keys }
    ensures list { IfOk result (λ id. todos (list_at lists.new.cells.keys id) ≡ node_condition (expression_at body.now e) body.now e d (list_at lists.old.cells.keys p) (list_at lists.old.cells.keys q) ++ todos (list_at lists.old.cells.keys rest)) }
    ensures within { IfOk result (λ id. id ≤ length lists.new.cells.keys) }
    ensures kept { Keeps lists.old.cells.keys lists.new.cells.keys }
{
    let Some(found) = body.expression(e) else {
        return tests_value(lists, e, nowhere(), d, p, q, rest);
    };
    let pos = found.pos;
    match &found.kind {
        ExpressionKind::Literal(l) => literal_condition(lists, *l, e, pos, d, p, q, rest),
        ExpressionKind::Unary(o, c) => unary_condition(lists, *o, *c, e, pos, d, p, q, rest),
        ExpressionKind::Binary(x) => binary_condition(lists, body, *x, e, pos, d, p, q, rest),
        _ => tests_value(lists, e, pos, d, p, q, rest),
    }
}

/// What a condition becomes, before the list `rest`: `p` is the list that follows where it is true, and `q` where it is false.
pub fn condition_list(
    lists: &mut Lists,
    body: &Body,
    c: Condition,
    d: u32,
    p: usize,
    q: usize,
    rest: usize,
) -> Result<usize, NoMemory>
    requires { max (max p q) rest ≤ length lists.old.cells.keys }
    ensures list { IfOk result (λ id. todos (list_at lists.new.cells.keys id) ≡ condition_front body.now c d (list_at lists.old.cells.keys p) (list_at lists.old.cells.keys q) ++ todos (list_at lists.old.cells.keys rest)) }
    ensures within { IfOk result (λ id. id ≤ length lists.new.cells.keys) }
    ensures kept { Keeps lists.old.cells.keys lists.new.cells.keys }
{
    match c {
        Condition::Of(e) => node_condition(lists, body, e, d, p, q, rest),
        Condition::Absent(_) => lists.append(p, rest),
    }
}
