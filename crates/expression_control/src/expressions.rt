//! What an expression becomes.

ghost use Rattle.std.specs.Prelude.{◌≡◌, ◌+◌, ◌≤◌, ◌++◌, ◌∷◌, [], length, IfOk};
ghost use Rattle.expression_control.specs.Expressions.{assignment_front, binary_front, binary_value, call_front, comparison_front, computes, evaluations, expression_front, field_read, field_store, new_front, postfix_front, stored, tested_front, type_or_null, unary_front, update_front};
ghost use Rattle.control_actions.specs.Remaining.{Act, Cond, Ev, one, todos};
ghost use Rattle.control_actions.specs.declared.item.Condition.TheVariants as conditions;
ghost use Rattle.control_actions.specs.declared.action.Action.TheVariants as actions;
ghost use Rattle.control_actions.specs.declared.place.Place.TheVariants as places;
ghost use Rattle.control_actions.specs.Tables.{Keeps, list_at};

use crate::operands::{applied, deeper, end_of};
use control_actions::{
    Action, Condition, Item, Lists, Operator, Place, PlainValue, Scope, TargetForm,
    compared_with_null, field_place, has_place, is_this,
};
use program_model::{
    AssignmentTarget, BinaryExpression, BinaryOperator, Body, CallExpression, CallTarget, ExprId,
    ExpressionKind, FieldId, Literal, MethodId, NewObject, OperatorAssignment, Program, TExpr,
    UnaryOperator, VType,
};
use rlc_base::{NoMemory, Pos};

/// The type of a node: that of null where it has none.
pub fn type_or_null(vtype: Option<VType>) -> VType
    ensures { result ≡ type_or_null vtype }
{
    match vtype {
        None => VType::NullType,
        Some(vtype) => vtype,
    }
}

// The operands from left to right, and then the operator.
fn compute(
    lists: &mut Lists,
    operator: Operator,
    operands: &[ExprId],
    depth: u32,
    pos: Pos,
    rest: usize,
) -> Result<usize, NoMemory>
    requires { rest ≤ length lists.old.cells.keys }
    ensures list { IfOk result (λ id. todos (list_at lists.new.cells.keys id) ≡ computes operator operands.now depth pos ++ todos (list_at lists.old.cells.keys rest)) }
    ensures within { IfOk result (λ id. id ≤ length lists.new.cells.keys) }
    ensures kept { Keeps lists.old.cells.keys lists.new.cells.keys }
{
    let end = end_of(depth, operands)?;
    let act = Action::Op(operator, depth, end - depth);
    applied(lists, act, operands, depth, end, pos, rest)
}

fn field_read(
    lists: &mut Lists,
    p: &Program,
    body: &Body,
    target: ExprId,
    field: FieldId,
    depth: u32,
    pos: Pos,
    rest: usize,
) -> Result<usize, NoMemory>
    requires { rest ≤ length lists.old.cells.keys }
    ensures list { IfOk result (λ id. todos (list_at lists.new.cells.keys id) ≡ field_read p.now body.now target field depth pos ++ todos (list_at lists.old.cells.keys rest)) }
    ensures within { IfOk result (λ id. id ≤ length lists.new.cells.keys) }
    ensures kept { Keeps lists.old.cells.keys lists.new.cells.keys }
{
    if has_place(p, body, target, field) {
        let copy = Action::Copy(Place::Temp(depth), field_place(p, field));
        lists.push(Item::Act(copy, pos), rest)
    } else {
        let get = Action::Get(field, depth, is_this(body, target));
        lists.push_all(&[Item::Ev(target, depth), Item::Act(get, pos)], rest)
    }
}

fn field_store(
    lists: &mut Lists,
    p: &Program,
    body: &Body,
    target: ExprId,
    field: FieldId,
    value: ExprId,
    depth: u32,
    pos: Pos,
    rest: usize,
) -> Result<usize, NoMemory>
    requires { rest ≤ length lists.old.cells.keys }
    ensures list { IfOk result (λ id. todos (list_at lists.new.cells.keys id) ≡ field_store p.now body.now target field value depth pos ++ todos (list_at lists.old.cells.keys rest)) }
    ensures within { IfOk result (λ id. id ≤ length lists.new.cells.keys) }
    ensures kept { Keeps lists.old.cells.keys lists.new.cells.keys }
{
    if has_place(p, body, target, field) {
        let put = Action::PutOwn(field, depth);
        lists.push_all(&[Item::Ev(value, depth), Item::Act(put, pos)], rest)
    } else {
        let put = Action::Put(field, depth, is_this(body, target));
        let next = Item::Ev(value, deeper(depth, 1)?);
        lists.push_all(&[Item::Ev(target, depth), next, Item::Act(put, pos)], rest)
    }
}

fn assignment(
    lists: &mut Lists,
    p: &Program,
    body: &Body,
    target: AssignmentTarget,
    value: ExprId,
    depth: u32,
    pos: Pos,
    rest: usize,
) -> Result<usize, NoMemory>
    requires { rest ≤ length lists.old.cells.keys }
    ensures list { IfOk result (λ id. todos (list_at lists.new.cells.keys id) ≡ assignment_front p.now body.now target value depth pos ++ todos (list_at lists.old.cells.keys rest)) }
    ensures within { IfOk result (λ id. id ≤ length lists.new.cells.keys) }
    ensures kept { Keeps lists.old.cells.keys lists.new.cells.keys }
{
    match target {
        AssignmentTarget::Local(x) => {
            let copy = Action::Copy(Place::Var(x), Place::Temp(depth));
            lists.push_all(&[Item::Ev(value, depth), Item::Act(copy, pos)], rest)
        }
        AssignmentTarget::Field(e, f) => field_store(lists, p, body, e, f, value, depth, pos, rest),
        AssignmentTarget::StaticField(f) => {
            compute(lists, Operator::StoreStatic(f), &[value], depth, pos, rest)
        }
        AssignmentTarget::Element(a, i) => {
            compute(
                lists,
                Operator::StoreElement,
                &[a, i, value],
                depth,
                pos,
                rest,
            )
        }
    }
}

// Stores the temp of a depth into what an expression names.
fn stored(
    lists: &mut Lists,
    body: &Body,
    target: ExprId,
    depth: u32,
    pos: Pos,
    rest: usize,
) -> Result<usize, NoMemory>
    requires { rest ≤ length lists.old.cells.keys }
    ensures list { IfOk result (λ id. todos (list_at lists.new.cells.keys id) ≡ stored body.now target depth pos ++ todos (list_at lists.old.cells.keys rest)) }
    ensures within { IfOk result (λ id. id ≤ length lists.new.cells.keys) }
    ensures kept { Keeps lists.old.cells.keys lists.new.cells.keys }
{
    let Some(found) = body.expression(target) else {
        return Ok(rest);
    };
    match &found.kind {
        ExpressionKind::Local(x) => {
            let copy = Action::Copy(Place::Var(*x), Place::Temp(depth));
            lists.push(Item::Act(copy, pos), rest)
        }
        ExpressionKind::StaticField(f) => {
            let store = Action::Op(Operator::StoreStatic(*f), depth, 1);
            lists.push(Item::Act(store, pos), rest)
        }
        ExpressionKind::Field(_, f) => {
            let keep = Action::Copy(Place::Temp(deeper(depth, 1)?), Place::Temp(depth));
            let this = Action::Copy(Place::Temp(depth), Place::This);
            let put = Item::Act(Action::Put(*f, depth, true), pos);
            lists.push_all(&[Item::Act(keep, pos), Item::Act(this, pos), put], rest)
        }
        _ => Ok(rest),
    }
}

// An operator assignment gives the new value.
fn update(
    lists: &mut Lists,
    body: &Body,
    a: OperatorAssignment,
    vtype: Option<VType>,
    depth: u32,
    pos: Pos,
    rest: usize,
) -> Result<usize, NoMemory>
    requires { rest ≤ length lists.old.cells.keys }
    ensures list { IfOk result (λ id. todos (list_at lists.new.cells.keys id) ≡ update_front body.now a vtype depth pos ++ todos (list_at lists.old.cells.keys rest)) }
    ensures within { IfOk result (λ id. id ≤ length lists.new.cells.keys) }
    ensures kept { Keeps lists.old.cells.keys lists.new.cells.keys }
{
    let operator = Operator::Binary(a.operator, a.operands, type_or_null(vtype));
    let store = stored(lists, body, a.target, depth, pos, rest)?;
    compute(lists, operator, &[a.target, a.value], depth, pos, store)
}

// A postfix step gives the old value.
fn postfix(
    lists: &mut Lists,
    body: &Body,
    a: OperatorAssignment,
    vtype: Option<VType>,
    depth: u32,
    pos: Pos,
    rest: usize,
) -> Result<usize, NoMemory>
    requires { rest ≤ length lists.old.cells.keys }
    ensures list { IfOk result (λ id. todos (list_at lists.new.cells.keys id) ≡ postfix_front body.now a vtype depth pos ++ todos (list_at lists.old.cells.keys rest)) }
    ensures within { IfOk result (λ id. id ≤ length lists.new.cells.keys) }
    ensures kept { Keeps lists.old.cells.keys lists.new.cells.keys }
{
    let next = deeper(depth, 1)?;
    let drop = lists.push(Item::Act(Action::Drop(Scope::Temp(next)), pos), rest)?;
    let new_value = update(lists, body, a, vtype, next, pos, drop)?;
    lists.push(Item::Ev(a.target, depth), new_value)
}

fn targeted_call(
    lists: &mut Lists,
    method: MethodId,
    target: ExprId,
    arguments: &[ExprId],
    form: TargetForm,
    depth: u32,
    pos: Pos,
    rest: usize,
) -> Result<usize, NoMemory>
    requires { rest ≤ length lists.old.cells.keys }
    ensures list { IfOk result (λ id. todos (list_at lists.new.cells.keys id) ≡ (Ev target depth ∷ evaluations arguments.now (depth + 1) ++ Act (actions.Call method depth (length arguments.now + 1) form) pos ∷ []) ++ todos (list_at lists.old.cells.keys rest)) }
    ensures within { IfOk result (λ id. id ≤ length lists.new.cells.keys) }
    ensures kept { Keeps lists.old.cells.keys lists.new.cells.keys }
{
    let next = deeper(depth, 1)?;
    let end = end_of(next, arguments)?;
    let call = Action::Call(method, depth, end - depth, form);
    let behind = applied(lists, call, arguments, next, end, pos, rest)?;
    lists.push(Item::Ev(target, depth), behind)
}

fn call(
    lists: &mut Lists,
    call: &CallExpression,
    depth: u32,
    pos: Pos,
    rest: usize,
) -> Result<usize, NoMemory>
    requires { rest ≤ length lists.old.cells.keys }
    ensures list { IfOk result (λ id. todos (list_at lists.new.cells.keys id) ≡ call_front call.now depth pos ++ todos (list_at lists.old.cells.keys rest)) }
    ensures within { IfOk result (λ id. id ≤ length lists.new.cells.keys) }
    ensures kept { Keeps lists.old.cells.keys lists.new.cells.keys }
{
    let m = call.method;
    let es = &call.arguments;
    match call.target {
        CallTarget::Static => {
            let end = end_of(depth, es)?;
            let act = Action::Call(m, depth, end - depth, TargetForm::Static);
            applied(lists, act, es, depth, end, pos, rest)
        }
        CallTarget::This(e) => targeted_call(lists, m, e, es, TargetForm::This, depth, pos, rest),
        CallTarget::Super(e) => targeted_call(lists, m, e, es, TargetForm::Super, depth, pos, rest),
        CallTarget::Other(e) => targeted_call(lists, m, e, es, TargetForm::Other, depth, pos, rest),
    }
}

fn new_object(
    lists: &mut Lists,
    new: &NewObject,
    depth: u32,
    pos: Pos,
    rest: usize,
) -> Result<usize, NoMemory>
    requires { rest ≤ length lists.old.cells.keys }
    ensures list { IfOk result (λ id. todos (list_at lists.new.cells.keys id) ≡ new_front new.now depth pos ++ todos (list_at lists.old.cells.keys rest)) }
    ensures within { IfOk result (λ id. id ≤ length lists.new.cells.keys) }
    ensures kept { Keeps lists.old.cells.keys lists.new.cells.keys }
{
    let next = deeper(depth, 1)?;
    let end = end_of(next, &new.arguments)?;
    let make = Action::New(new.constructor, depth, end - next);
    applied(lists, make, &new.arguments, next, end, pos, rest)
}

// A condition that stands where a value is wanted.
fn tested(lists: &mut Lists, e: ExprId, d: u32, pos: Pos, rest: usize) -> Result<usize, NoMemory>
    requires { rest ≤ length lists.old.cells.keys }
    ensures list { IfOk result (λ id. todos (list_at lists.new.cells.keys id) ≡ tested_front e d pos ++ todos (list_at lists.old.cells.keys rest)) }
    ensures within { IfOk result (λ id. id ≤ length lists.new.cells.keys) }
    ensures kept { Keeps lists.old.cells.keys lists.new.cells.keys }
{
    let yes = PlainValue::Literal(Literal::Boolean(true));
    let no = PlainValue::Literal(Literal::Boolean(false));
    let p = lists.single(Item::Act(Action::Plain(Place::Temp(d), yes), pos))?;
    let q = lists.single(Item::Act(Action::Plain(Place::Temp(d), no), pos))?;
    lists.push(Item::Cond(Condition::Of(e), d, p, q), rest)
}

// Of `? :` the condition decides which value is taken.
fn choice(
    lists: &mut Lists,
    c: ExprId,
    x: ExprId,
    y: ExprId,
    d: u32,
    rest: usize,
) -> Result<usize, NoMemory>
    requires { rest ≤ length lists.old.cells.keys }
    ensures list { IfOk result (λ id. todos (list_at lists.new.cells.keys id) ≡ (Cond (conditions.Of c) d (one (Ev x d)) (one (Ev y d)) ∷ []) ++ todos (list_at lists.old.cells.keys rest)) }
    ensures within { IfOk result (λ id. id ≤ length lists.new.cells.keys) }
    ensures kept { Keeps lists.old.cells.keys lists.new.cells.keys }
{
    let p = lists.single(Item::Ev(x, d))?;
    let q = lists.single(Item::Ev(y, d))?;
    lists.push(Item::Cond(Condition::Of(c), d, p, q), rest)
}

fn unary_list(
    lists: &mut Lists,
    operator: UnaryOperator,
    x: ExprId,
    e: ExprId,
    vtype: Option<VType>,
    d: u32,
    pos: Pos,
    rest: usize,
) -> Result<usize, NoMemory>
    requires { rest ≤ length lists.old.cells.keys }
    ensures list { IfOk result (λ id. todos (list_at lists.new.cells.keys id) ≡ unary_front operator x e vtype d pos ++ todos (list_at lists.old.cells.keys rest)) }
    ensures within { IfOk result (λ id. id ≤ length lists.new.cells.keys) }
    ensures kept { Keeps lists.old.cells.keys lists.new.cells.keys }
{
    match operator {
        UnaryOperator::Not => tested(lists, e, d, pos, rest),
        _ => {
            let computed = Operator::Unary(operator, type_or_null(vtype));
            compute(lists, computed, &[x], d, pos, rest)
        }
    }
}

fn binary_value(
    lists: &mut Lists,
    x: BinaryExpression,
    vtype: Option<VType>,
    d: u32,
    pos: Pos,
    rest: usize,
) -> Result<usize, NoMemory>
    requires { rest ≤ length lists.old.cells.keys }
    ensures list { IfOk result (λ id. todos (list_at lists.new.cells.keys id) ≡ binary_value x vtype d pos ++ todos (list_at lists.old.cells.keys rest)) }
    ensures within { IfOk result (λ id. id ≤ length lists.new.cells.keys) }
    ensures kept { Keeps lists.old.cells.keys lists.new.cells.keys }
{
    let operator = Operator::Binary(x.operator, x.operands, type_or_null(vtype));
    compute(lists, operator, &[x.left, x.right], d, pos, rest)
}

// A comparison for equality, with the operand that is compared with null where there is one.
fn comparison_list(
    lists: &mut Lists,
    compared: Option<ExprId>,
    x: BinaryExpression,
    e: ExprId,
    vtype: Option<VType>,
    d: u32,
    pos: Pos,
    rest: usize,
) -> Result<usize, NoMemory>
    requires { rest ≤ length lists.old.cells.keys }
    ensures list { IfOk result (λ id. todos (list_at lists.new.cells.keys id) ≡ comparison_front compared x e vtype d pos ++ todos (list_at lists.old.cells.keys rest)) }
    ensures within { IfOk result (λ id. id ≤ length lists.new.cells.keys) }
    ensures kept { Keeps lists.old.cells.keys lists.new.cells.keys }
{
    match compared {
        Some(_) => tested(lists, e, d, pos, rest),
        None => binary_value(lists, x, vtype, d, pos, rest),
    }
}

fn binary_list(
    lists: &mut Lists,
    body: &Body,
    x: BinaryExpression,
    e: ExprId,
    vtype: Option<VType>,
    d: u32,
    pos: Pos,
    rest: usize,
) -> Result<usize, NoMemory>
    requires { rest ≤ length lists.old.cells.keys }
    ensures list { IfOk result (λ id. todos (list_at lists.new.cells.keys id) ≡ binary_front x.operator x body.now e vtype d pos ++ todos (list_at lists.old.cells.keys rest)) }
    ensures within { IfOk result (λ id. id ≤ length lists.new.cells.keys) }
    ensures kept { Keeps lists.old.cells.keys lists.new.cells.keys }
{
    match x.operator {
        BinaryOperator::ConditionalAnd | BinaryOperator::ConditionalOr => {
            tested(lists, e, d, pos, rest)
        }
        BinaryOperator::Equal | BinaryOperator::NotEqual => {
            let compared = compared_with_null(body, x);
            comparison_list(lists, compared, x, e, vtype, d, pos, rest)
        }
        _ => binary_value(lists, x, vtype, d, pos, rest),
    }
}

// A value without an object.
fn plain_list(
    lists: &mut Lists,
    value: PlainValue,
    d: u32,
    pos: Pos,
    rest: usize,
) -> Result<usize, NoMemory>
    requires { rest ≤ length lists.old.cells.keys }
    ensures list { IfOk result (λ id. todos (list_at lists.new.cells.keys id) ≡ (Act (actions.Plain (places.Temp d) value) pos ∷ []) ++ todos (list_at lists.old.cells.keys rest)) }
    ensures within { IfOk result (λ id. id ≤ length lists.new.cells.keys) }
    ensures kept { Keeps lists.old.cells.keys lists.new.cells.keys }
{
    lists.push(Item::Act(Action::Plain(Place::Temp(d), value), pos), rest)
}

// The value of a place.
fn copy_list(
    lists: &mut Lists,
    from: Place,
    d: u32,
    pos: Pos,
    rest: usize,
) -> Result<usize, NoMemory>
    requires { rest ≤ length lists.old.cells.keys }
    ensures list { IfOk result (λ id. todos (list_at lists.new.cells.keys id) ≡ (Act (actions.Copy (places.Temp d) from) pos ∷ []) ++ todos (list_at lists.old.cells.keys rest)) }
    ensures within { IfOk result (λ id. id ≤ length lists.new.cells.keys) }
    ensures kept { Keeps lists.old.cells.keys lists.new.cells.keys }
{
    lists.push(Item::Act(Action::Copy(Place::Temp(d), from), pos), rest)
}

/// What an expression becomes, before the list `rest`.
pub fn expression_list(
    lists: &mut Lists,
    p: &Program,
    body: &Body,
    e: ExprId,
    found: &TExpr,
    d: u32,
    rest: usize,
) -> Result<usize, NoMemory>
    requires { rest ≤ length lists.old.cells.keys }
    ensures list { IfOk result (λ id. todos (list_at lists.new.cells.keys id) ≡ expression_front found.now.kind p.now body.now e found.now.vtype d found.now.pos ++ todos (list_at lists.old.cells.keys rest)) }
    ensures within { IfOk result (λ id. id ≤ length lists.new.cells.keys) }
    ensures kept { Keeps lists.old.cells.keys lists.new.cells.keys }
{
    use program_model::ExpressionKind as Kind;
    let (vtype, pos) = (found.vtype, found.pos);
    let t = type_or_null(vtype);
    match &found.kind {
        Kind::Literal(l) => plain_list(lists, PlainValue::Literal(*l), d, pos, rest),
        Kind::Local(x) => copy_list(lists, Place::Var(*x), d, pos, rest),
        Kind::This(_) => copy_list(lists, Place::This, d, pos, rest),
        Kind::Field(x, f) => field_read(lists, p, body, *x, *f, d, pos, rest),
        Kind::StaticField(f) => plain_list(lists, PlainValue::StaticField(*f), d, pos, rest),
        Kind::LibraryConstant(m) => plain_list(
            lists,
            PlainValue::LibraryConstant(*m),
            d,
            pos,
            rest,
        ),
        Kind::Unary(o, x) => unary_list(lists, *o, *x, e, vtype, d, pos, rest),
        Kind::Binary(x) => binary_list(lists, body, *x, e, vtype, d, pos, rest),
        Kind::Conditional(c, x, y) => choice(lists, *c, *x, *y, d, rest),
        Kind::InstanceOf(x, of) => compute(lists, Operator::InstanceOf(*of), &[*x], d, pos, rest),
        Kind::PrimitiveCast(x) => compute(lists, Operator::Convert(t), &[*x], d, pos, rest),
        Kind::ReferenceCast(x) => {
            lists.push_all(&[Item::Ev(*x, d), Item::Act(Action::Cast(t, d), pos)], rest)
        }
        Kind::Assignment(to, x) => assignment(lists, p, body, *to, *x, d, pos, rest),
        Kind::OperatorAssignment(a) => update(lists, body, *a, vtype, d, pos, rest),
        Kind::PostfixStep(a) => postfix(lists, body, *a, vtype, d, pos, rest),
        Kind::Call(c) => call(lists, c, d, pos, rest),
        Kind::NewObject(n) => new_object(lists, n, d, pos, rest),
        Kind::NewArray(x) => compute(lists, Operator::NewArray(t), &[*x], d, pos, rest),
        Kind::Element(a, i) => compute(lists, Operator::Element, &[*a, *i], d, pos, rest),
        Kind::Length(a) => compute(lists, Operator::Length, &[*a], d, pos, rest),
    }
}
