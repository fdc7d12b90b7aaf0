//! What a statement and the end of a loop's turn become.

ghost use Rattle.std.specs.Prelude.{◌≡◌, ◌≤◌, ◌++◌, ◌∷◌, [], map, flat_map, length, IfOk};
ghost use Rattle.control_actions.specs.Remaining.{Cond, Do, one, todos};
ghost use Rattle.control_actions.specs.declared.item.Condition.TheVariants as conditions;
ghost use Rattle.program_model.specs.Lookups.{statement_at};
ghost use Rattle.java_control.specs.Statements.{class_of_type, clauses_front, closes, declaration_front, declarator_front, expression_statement, finally_front, first_items_at, for_condition, for_turn, head_front, initial_front, list_of_branch, listed_front, loop_turn, opens, return_front, statement_front, super_front, try_front, turn_front};
ghost use Rattle.control_actions.specs.Tables.{Keeps, list_at};

use control_actions::{
    Action, Closing, Completion, Condition, Item, Lists, Place, PlainValue, Scope, closing_order,
};
use expression_control::{applied, deeper, end_of, expression_place, type_or_null};
use program_model::{
    Body, ClassId, Declarator, ExprId, ForInitial, Resource, StatementKind, StmtId, SuperCall,
    TStmt, TryStatement, VType,
};
use rlc_base::{NoMemory, Pos};
use std::alloc::Global;

// Statements, one after the other.
fn dos(lists: &mut Lists, statements: &[StmtId], d: u32, rest: usize) -> Result<usize, NoMemory>
    requires { rest ≤ length lists.old.cells.keys }
    ensures list { IfOk result (λ id. todos (list_at lists.new.cells.keys id) ≡ map (λ s. Do s d) statements.now ++ todos (list_at lists.old.cells.keys rest)) }
    ensures within { IfOk result (λ id. id ≤ length lists.new.cells.keys) }
    ensures kept { Keeps lists.old.cells.keys lists.new.cells.keys }
{
    let mut at = rest;
    let mut left = statements.len();
    while left > 0 {
        left -= 1;
        at = lists.push(Item::Do(statements[left], d), at)?;
    }
    Ok(at)
}

fn declarator(
    lists: &mut Lists,
    body: &Body,
    d: u32,
    name: &Declarator,
    rest: usize,
) -> Result<usize, NoMemory>
    requires { rest ≤ length lists.old.cells.keys }
    ensures list { IfOk result (λ id. todos (list_at lists.new.cells.keys id) ≡ declarator_front body.now d name.now ++ todos (list_at lists.old.cells.keys rest)) }
    ensures within { IfOk result (λ id. id ≤ length lists.new.cells.keys) }
    ensures kept { Keeps lists.old.cells.keys lists.new.cells.keys }
{
    let place = Place::Var(name.variable);
    match name.initializer {
        None => {
            let default = PlainValue::Default(type_or_null(body.variable_type(name.variable)));
            lists.push(Item::Act(Action::Plain(place, default), name.pos), rest)
        }
        Some(e) => {
            let set = Action::Move(place, Place::Temp(d));
            lists.push_all(&[Item::Ev(e, d), Item::Act(set, name.pos)], rest)
        }
    }
}

// The variables of a declaration.
fn declaration(
    lists: &mut Lists,
    body: &Body,
    d: u32,
    names: &[Declarator],
    rest: usize,
) -> Result<usize, NoMemory>
    requires { rest ≤ length lists.old.cells.keys }
    ensures list { IfOk result (λ id. todos (list_at lists.new.cells.keys id) ≡ declaration_front body.now d names.now ++ todos (list_at lists.old.cells.keys rest)) }
    ensures within { IfOk result (λ id. id ≤ length lists.new.cells.keys) }
    ensures kept { Keeps lists.old.cells.keys lists.new.cells.keys }
{
    let mut at = rest;
    let mut left = names.len();
    while left > 0 {
        left -= 1;
        at = declarator(lists, body, d, &names[left], at)?;
    }
    Ok(at)
}

// The value is dropped.
fn dropped(lists: &mut Lists, e: ExprId, d: u32, pos: Pos, rest: usize) -> Result<usize, NoMemory>
    requires { rest ≤ length lists.old.cells.keys }
    ensures list { IfOk result (λ id. todos (list_at lists.new.cells.keys id) ≡ expression_statement e d pos ++ todos (list_at lists.old.cells.keys rest)) }
    ensures within { IfOk result (λ id. id ≤ length lists.new.cells.keys) }
    ensures kept { Keeps lists.old.cells.keys lists.new.cells.keys }
{
    let drop = Action::Drop(Scope::Temp(d));
    lists.push_all(&[Item::Ev(e, d), Item::Act(drop, pos)], rest)
}

// The expressions at the head of a `for`.
fn head(
    lists: &mut Lists,
    body: &Body,
    d: u32,
    expressions: &[ExprId],
    rest: usize,
) -> Result<usize, NoMemory>
    requires { rest ≤ length lists.old.cells.keys }
    ensures list { IfOk result (λ id. todos (list_at lists.new.cells.keys id) ≡ head_front body.now d expressions.now ++ todos (list_at lists.old.cells.keys rest)) }
    ensures within { IfOk result (λ id. id ≤ length lists.new.cells.keys) }
    ensures kept { Keeps lists.old.cells.keys lists.new.cells.keys }
{
    let mut at = rest;
    let mut left = expressions.len();
    while left > 0 {
        left -= 1;
        let e = expressions[left];
        at = dropped(lists, e, d, expression_place(body, e), at)?;
    }
    Ok(at)
}

fn initial(
    lists: &mut Lists,
    body: &Body,
    d: u32,
    initial: &ForInitial,
    rest: usize,
) -> Result<usize, NoMemory>
    requires { rest ≤ length lists.old.cells.keys }
    ensures list { IfOk result (λ id. todos (list_at lists.new.cells.keys id) ≡ initial_front body.now d initial.now ++ todos (list_at lists.old.cells.keys rest)) }
    ensures within { IfOk result (λ id. id ≤ length lists.new.cells.keys) }
    ensures kept { Keeps lists.old.cells.keys lists.new.cells.keys }
{
    match initial {
        ForInitial::Declaration(names) => declaration(lists, body, d, names, rest),
        ForInitial::Expressions(es) => head(lists, body, d, es, rest),
    }
}

fn returned(
    lists: &mut Lists,
    value: Option<ExprId>,
    d: u32,
    pos: Pos,
    rest: usize,
) -> Result<usize, NoMemory>
    requires { rest ≤ length lists.old.cells.keys }
    ensures list { IfOk result (λ id. todos (list_at lists.new.cells.keys id) ≡ return_front value d pos ++ todos (list_at lists.old.cells.keys rest)) }
    ensures within { IfOk result (λ id. id ≤ length lists.new.cells.keys) }
    ensures kept { Keeps lists.old.cells.keys lists.new.cells.keys }
{
    match value {
        None => lists.push(Item::Out(Completion::Return(pos)), rest),
        Some(e) => {
            let completion = Completion::ReturnValue(d, pos);
            lists.push_all(&[Item::Ev(e, d), Item::Out(completion)], rest)
        }
    }
}

fn class_of_type(vtype: Option<VType>) -> Option<ClassId>
    ensures { result ≡ class_of_type vtype }
{
    match vtype {
        Some(VType::Obj(class)) => Some(class),
        _ => None,
    }
}

// The opening of a resource.
fn opening(lists: &mut Lists, r: Resource, d: u32, rest: usize) -> Result<usize, NoMemory>
    requires { rest ≤ length lists.old.cells.keys }
    ensures list { IfOk result (λ id. todos (list_at lists.new.cells.keys id) ≡ opens d r ++ todos (list_at lists.old.cells.keys rest)) }
    ensures within { IfOk result (λ id. id ≤ length lists.new.cells.keys) }
    ensures kept { Keeps lists.old.cells.keys lists.new.cells.keys }
{
    let set = Action::Move(Place::Var(r.variable), Place::Temp(d));
    lists.push_all(&[Item::Ev(r.initializer, d), Item::Act(set, r.pos)], rest)
}

// Resources are opened in textual order.
fn opened(lists: &mut Lists, resources: &[Resource], d: u32, rest: usize) -> Result<usize, NoMemory>
    requires { rest ≤ length lists.old.cells.keys }
    ensures list { IfOk result (λ id. todos (list_at lists.new.cells.keys id) ≡ flat_map (opens d) resources.now ++ todos (list_at lists.old.cells.keys rest)) }
    ensures within { IfOk result (λ id. id ≤ length lists.new.cells.keys) }
    ensures kept { Keeps lists.old.cells.keys lists.new.cells.keys }
{
    let mut at = rest;
    let mut left = resources.len();
    while left > 0 {
        left -= 1;
        at = opening(lists, resources[left], d, at)?;
    }
    Ok(at)
}

// The closing of a resource.
fn closing(
    lists: &mut Lists,
    s: StmtId,
    r: Resource,
    d: u32,
    rest: usize,
) -> Result<usize, NoMemory>
    requires { rest ≤ length lists.old.cells.keys }
    ensures list { IfOk result (λ id. todos (list_at lists.new.cells.keys id) ≡ closes s d r ++ todos (list_at lists.old.cells.keys rest)) }
    ensures within { IfOk result (λ id. id ≤ length lists.new.cells.keys) }
    ensures kept { Keeps lists.old.cells.keys lists.new.cells.keys }
{
    let closing = Closing {
        variable: r.variable,
        close: r.close,
        pos: r.pos,
        statement: s,
    };
    let scope = Scope::Variable(r.variable);
    lists.push_all(&[Item::Close(closing, d), Item::Leave(scope, r.pos)], rest)
}

// The closing of resources, in the order of the list.
fn closed(
    lists: &mut Lists,
    s: StmtId,
    resources: &[Resource],
    d: u32,
    rest: usize,
) -> Result<usize, NoMemory>
    requires { rest ≤ length lists.old.cells.keys }
    ensures list { IfOk result (λ id. todos (list_at lists.new.cells.keys id) ≡ flat_map (closes s d) resources.now ++ todos (list_at lists.old.cells.keys rest)) }
    ensures within { IfOk result (λ id. id ≤ length lists.new.cells.keys) }
    ensures kept { Keeps lists.old.cells.keys lists.new.cells.keys }
{
    let mut at = rest;
    let mut left = resources.len();
    while left > 0 {
        left -= 1;
        at = closing(lists, s, resources[left], d, at)?;
    }
    Ok(at)
}

// The catch clauses and the `finally` block of a `try` statement.
fn tail_of_try(
    lists: &mut Lists,
    s: StmtId,
    t: &TryStatement,
    d: u32,
    rest: usize,
) -> Result<usize, NoMemory>
    requires { rest ≤ length lists.old.cells.keys }
    ensures list { IfOk result (λ id. todos (list_at lists.new.cells.keys id) ≡ (clauses_front s t.now.catches.items d ++ finally_front t.now.finally d) ++ todos (list_at lists.old.cells.keys rest)) }
    ensures within { IfOk result (λ id. id ≤ length lists.new.cells.keys) }
    ensures kept { Keeps lists.old.cells.keys lists.new.cells.keys }
{
    let behind = match t.finally {
        None => rest,
        Some(f) => lists.push(Item::Fin(f, d), rest)?,
    };
    if t.catches.is_empty() {
        Ok(behind)
    } else {
        lists.push(Item::Catch(s, d), behind)
    }
}

fn tried(
    alloc: Global,
    lists: &mut Lists,
    s: StmtId,
    t: &TryStatement,
    d: u32,
    rest: usize,
) -> Result<usize, NoMemory>
    requires { rest ≤ length lists.old.cells.keys }
    ensures list { IfOk result (λ id. todos (list_at lists.new.cells.keys id) ≡ try_front s t.now d ++ todos (list_at lists.old.cells.keys rest)) }
    ensures within { IfOk result (λ id. id ≤ length lists.new.cells.keys) }
    ensures kept { Keeps lists.old.cells.keys lists.new.cells.keys }
{
    let in_order = closing_order(alloc, &t.resources)?;
    let behind = tail_of_try(lists, s, t, d, rest)?;
    let closing = closed(lists, s, &in_order, d, behind)?;
    let block = lists.push(Item::Do(t.block, d), closing)?;
    opened(lists, &t.resources, d, block)
}

// The super class's constructor runs on `this`.
fn super_list(
    lists: &mut Lists,
    c: &SuperCall,
    d: u32,
    pos: Pos,
    rest: usize,
) -> Result<usize, NoMemory>
    requires { rest ≤ length lists.old.cells.keys }
    ensures list { IfOk result (λ id. todos (list_at lists.new.cells.keys id) ≡ super_front c.now d pos ++ todos (list_at lists.old.cells.keys rest)) }
    ensures within { IfOk result (λ id. id ≤ length lists.new.cells.keys) }
    ensures kept { Keeps lists.old.cells.keys lists.new.cells.keys }
{
    let next = deeper(d, 1)?;
    let end = end_of(next, &c.arguments)?;
    let drop = lists.push(Item::Act(Action::Drop(Scope::Temp(d)), pos), rest)?;
    let call = Action::Super(c.constructor, d, end - d);
    let behind = applied(lists, call, &c.arguments, next, end, pos, drop)?;
    let this = Action::Copy(Place::Temp(d), Place::This);
    lists.push(Item::Act(this, pos), behind)
}

// The list of what runs where a condition is false.
fn branch_list(lists: &mut Lists, s: Option<StmtId>, d: u32) -> Result<usize, NoMemory>
    ensures list { IfOk result (λ id. list_at lists.new.cells.keys id ≡ list_of_branch s d) }
    ensures within { IfOk result (λ id. id ≤ length lists.new.cells.keys) }
    ensures kept { Keeps lists.old.cells.keys lists.new.cells.keys }
{
    match s {
        None => Ok(lists.empty()),
        Some(s) => lists.single(Item::Do(s, d)),
    }
}

// A condition, with one statement where it is true and maybe one where it is false.
fn branch(
    lists: &mut Lists,
    c: ExprId,
    x: StmtId,
    y: Option<StmtId>,
    d: u32,
    rest: usize,
) -> Result<usize, NoMemory>
    requires { rest ≤ length lists.old.cells.keys }
    ensures list { IfOk result (λ id. todos (list_at lists.new.cells.keys id) ≡ (Cond (conditions.Of c) d (one (Do x d)) (list_of_branch y d) ∷ []) ++ todos (list_at lists.old.cells.keys rest)) }
    ensures within { IfOk result (λ id. id ≤ length lists.new.cells.keys) }
    ensures kept { Keeps lists.old.cells.keys lists.new.cells.keys }
{
    let p = lists.single(Item::Do(x, d))?;
    let q = branch_list(lists, y, d)?;
    lists.push(Item::Cond(Condition::Of(c), d, p, q), rest)
}

// A loop's condition, with the loop's body, which the end of its turn follows.
fn turn(
    lists: &mut Lists,
    c: Condition,
    x: StmtId,
    w: StmtId,
    d: u32,
    rest: usize,
) -> Result<usize, NoMemory>
    requires { rest ≤ length lists.old.cells.keys }
    ensures list { IfOk result (λ id. todos (list_at lists.new.cells.keys id) ≡ turn_front c x w d ++ todos (list_at lists.old.cells.keys rest)) }
    ensures within { IfOk result (λ id. id ≤ length lists.new.cells.keys) }
    ensures kept { Keeps lists.old.cells.keys lists.new.cells.keys }
{
    let end = lists.single(Item::LoopEnd(w, d))?;
    let p = lists.push(Item::Do(x, d), end)?;
    let q = lists.empty();
    lists.push(Item::Cond(c, d, p, q), rest)
}

/// What a statement becomes, before the list `rest`.
pub fn statement_list(
    alloc: Global,
    lists: &mut Lists,
    body: &Body,
    s: StmtId,
    found: &TStmt,
    d: u32,
    rest: usize,
) -> Result<usize, NoMemory>
    requires { rest ≤ length lists.old.cells.keys }
    ensures list { IfOk result (λ id. todos (list_at lists.new.cells.keys id) ≡ statement_front found.now.kind body.now s d found.now.pos ++ todos (list_at lists.old.cells.keys rest)) }
    ensures within { IfOk result (λ id. id ≤ length lists.new.cells.keys) }
    ensures kept { Keeps lists.old.cells.keys lists.new.cells.keys }
{
    use program_model::StatementKind as Kind;
    let pos = found.pos;
    match &found.kind {
        Kind::Block(ss, _) => {
            let end = lists.push(Item::Leave(Scope::Declared(s), pos), rest)?;
            dos(lists, ss, d, end)
        }
        Kind::Empty => Ok(rest),
        Kind::LocalDeclaration(names) => declaration(lists, body, d, names, rest),
        Kind::Expression(e) | Kind::FieldInitializer(e) => dropped(lists, *e, d, pos, rest),
        Kind::If(c, x, y) => branch(lists, *c, *x, *y, d, rest),
        Kind::While(c, x) => turn(lists, Condition::Of(*c), *x, s, d, rest),
        Kind::Do(x, _) => lists.push_all(&[Item::Do(*x, d), Item::LoopEnd(s, d)], rest),
        Kind::For(l) => {
            let end = Item::Leave(Scope::Declared(s), pos);
            let turns = lists.push_all(&[Item::For(s, d), end], rest)?;
            initial(lists, body, d, &l.initial, turns)
        }
        Kind::Return(value) => returned(lists, *value, d, pos, rest),
        Kind::Throw(e) => {
            let raise = Action::Raise(d, class_of_type(body.type_of(*e)));
            lists.push_all(&[Item::Ev(*e, d), Item::Act(raise, pos)], rest)
        }
        Kind::Break => lists.push(Item::Out(Completion::Break(pos)), rest),
        Kind::Continue => lists.push(Item::Out(Completion::Continue(pos)), rest),
        Kind::Try(t) => tried(alloc, lists, s, t, d, rest),
        Kind::SuperCall(c) => super_list(lists, c, d, pos, rest),
    }
}

fn for_condition(condition: Option<ExprId>, pos: Pos) -> Condition
    ensures { result ≡ for_condition condition pos }
{
    match condition {
        None => Condition::Absent(pos),
        Some(e) => Condition::Of(e),
    }
}

/// One more turn of a `for` whose first part is done.
pub fn for_turn(
    lists: &mut Lists,
    w: StmtId,
    found: &TStmt,
    d: u32,
    rest: usize,
) -> Result<usize, NoMemory>
    requires { rest ≤ length lists.old.cells.keys }
    ensures list { IfOk result (λ id. todos (list_at lists.new.cells.keys id) ≡ for_turn found.now.kind w d found.now.pos ++ todos (list_at lists.old.cells.keys rest)) }
    ensures within { IfOk result (λ id. id ≤ length lists.new.cells.keys) }
    ensures kept { Keeps lists.old.cells.keys lists.new.cells.keys }
{
    match &found.kind {
        StatementKind::For(l) => {
            let condition = for_condition(l.condition, found.pos);
            turn(lists, condition, l.body, w, d, rest)
        }
        _ => Ok(rest),
    }
}

/// The end of a loop's turn.
pub fn loop_turn(
    lists: &mut Lists,
    body: &Body,
    w: StmtId,
    found: &TStmt,
    d: u32,
    rest: usize,
) -> Result<usize, NoMemory>
    requires { rest ≤ length lists.old.cells.keys }
    ensures list { IfOk result (λ id. todos (list_at lists.new.cells.keys id) ≡ loop_turn found.now.kind body.now w d ++ todos (list_at lists.old.cells.keys rest)) }
    ensures within { IfOk result (λ id. id ≤ length lists.new.cells.keys) }
    ensures kept { Keeps lists.old.cells.keys lists.new.cells.keys }
{
    match &found.kind {
        StatementKind::While(_, _) => lists.push(Item::Do(w, d), rest),
        StatementKind::Do(_, c) => branch(lists, *c, w, None, d, rest),
        StatementKind::For(l) => {
            let again = lists.push(Item::For(w, d), rest)?;
            head(lists, body, d, &l.updates, again)
        }
        _ => Ok(rest),
    }
}

// What a statement of the body itself is at the start: a super call and a field initialiser are expanded at once.
fn first_item(lists: &mut Lists, body: &Body, s: StmtId, rest: usize) -> Result<usize, NoMemory>
    requires { rest ≤ length lists.old.cells.keys }
    ensures list { IfOk result (λ id. todos (list_at lists.new.cells.keys id) ≡ first_items_at s (statement_at body.now s) ++ todos (list_at lists.old.cells.keys rest)) }
    ensures within { IfOk result (λ id. id ≤ length lists.new.cells.keys) }
    ensures kept { Keeps lists.old.cells.keys lists.new.cells.keys }
{
    let Some(found) = body.statement(s) else {
        return lists.push(Item::Do(s, 0), rest);
    };
    match &found.kind {
        StatementKind::SuperCall(c) => super_list(lists, c, 0, found.pos, rest),
        StatementKind::FieldInitializer(e) => dropped(lists, *e, 0, found.pos, rest),
        _ => lists.push(Item::Do(s, 0), rest),
    }
}

/// What statements of the body itself are at the start.
pub fn listed(
    lists: &mut Lists,
    body: &Body,
    statements: &[StmtId],
    rest: usize,
) -> Result<usize, NoMemory>
    requires { rest ≤ length lists.old.cells.keys }
    ensures list { IfOk result (λ id. todos (list_at lists.new.cells.keys id) ≡ listed_front body.now statements.now ++ todos (list_at lists.old.cells.keys rest)) }
    ensures within { IfOk result (λ id. id ≤ length lists.new.cells.keys) }
    ensures kept { Keeps lists.old.cells.keys lists.new.cells.keys }
{
    let mut at = rest;
    let mut left = statements.len();
    while left > 0 {
        left -= 1;
        at = first_item(lists, body, statements[left], at)?;
    }
    Ok(at)
}
