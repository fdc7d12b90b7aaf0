//! The kind of a statement of a body, from its shape and the numbers of its parts.

ghost use Rattle.std.specs.Prelude.{◌≡◌, ◌≤◌, ◌+◌, ◌∷◌, ◌++◌, [], IfOk, length, map};
ghost use Rattle.std.specs.Option.{is_some};
ghost use Rattle.program_model.specs.Lookups.{optional};
ghost use Rattle.program_model.specs.Trees.{expressions_in, initial_expressions, initializers, statements_in};
ghost use Rattle.java_typed_trees.specs.StatementTrees.{catch_form, form_of, initial_form};
ghost use Rattle.java_typed_trees.specs.WellFormedStatements.{TakesParts, initial_count, initialized, one_if};
ghost use Rattle.java_laying.specs.StatementCells.{clause_form, declarator_shape, first_part, form_in, resource_shape};
ghost use Rattle.java_typed_trees.specs.StatementTrees as forms;

use crate::kinds::one_of;
use java_typed_trees::{
    CatchShape, DeclaratorShape, ForShape, InitialShape, ResourceShape, StatementShape, TryShape,
};
use program_model::{
    CatchClause, Declarator, ExprId, ForInitial, ForLoop, MethodId, Resource, StatementKind,
    StmtId, SuperCall, TryStatement,
};
use rlc_base::NoMemory;
use std::alloc::Global;

// The declared names with the numbers of their initialisers.
fn declarators(
    alloc: Global,
    names: &[DeclaratorShape],
    ids: &[ExprId],
) -> Result<Vec<Declarator>, NoMemory>
    requires { length ids.now ≡ initialized names.now }
    ensures names { IfOk result (λ v. map declarator_shape v.items ≡ names.now) }
    ensures parts { IfOk result (λ v. initializers v.items ≡ ids.now) }
{
    let mut found = Vec::new(alloc);
    let mut next = 0;
    for name in names {
        let mut initializer = None;
        if name.has_initializer {
            initializer = Some(ids[next]);
            next += 1;
        }
        found.push(Declarator {
            variable: name.variable,
            initializer,
            pos: name.pos,
        })?;
    }
    Ok(found)
}

// The resources with the numbers of their initialisers.
fn resources(
    alloc: Global,
    shapes: &[ResourceShape],
    ids: &[ExprId],
) -> Result<Vec<Resource>, NoMemory>
    requires { length ids.now ≡ length shapes.now }
    ensures shapes { IfOk result (λ v. map resource_shape v.items ≡ shapes.now) }
    ensures parts { IfOk result (λ v. map (λ r. r.initializer) v.items ≡ ids.now) }
{
    let mut found = Vec::new(alloc);
    for (i, shape) in shapes.iter().enumerate() {
        found.push(Resource {
            variable: shape.variable,
            initializer: ids[i],
            close: shape.close,
            pos: shape.pos,
        })?;
    }
    Ok(found)
}

fn clause(alloc: Global, shape: &CatchShape, block: StmtId) -> Result<CatchClause, NoMemory>
    ensures form { IfOk result (λ c. clause_form c ≡ catch_form shape.now) }
    ensures block { IfOk result (λ c. c.block ≡ block) }
{
    Ok(CatchClause {
        variable: shape.variable,
        classes: shape.classes.as_slice().to_vec(alloc)?,
        block,
    })
}

// The catch clauses with the numbers of their blocks.
fn clauses(
    alloc: Global,
    shapes: &[CatchShape],
    ids: &[StmtId],
) -> Result<Vec<CatchClause>, NoMemory>
    requires { length ids.now ≡ length shapes.now }
    ensures shapes { IfOk result (λ v. map clause_form v.items ≡ map catch_form shapes.now) }
    ensures parts { IfOk result (λ v. map (λ c. c.block) v.items ≡ ids.now) }
{
    let mut found = Vec::new(alloc);
    for (i, shape) in shapes.iter().enumerate() {
        found.push(clause(alloc, shape, ids[i])?)?;
    }
    Ok(found)
}

// The number, where there is one.
fn optional_of<T: Copy>(ids: &[T], is_there: bool) -> Option<T>
    requires { length ids.now ≡ one_if is_there }
    ensures parts { optional result ≡ ids.now }
    ensures there { is_some result ≡ is_there }
{
    if is_there { Some(ids[0]) } else { None }
}

fn one_if(is_there: bool) -> usize
    ensures { result ≡ one_if is_there }
{
    if is_there { 1 } else { 0 }
}

// How many of the names have an initialiser.
fn initialized(names: &[DeclaratorShape]) -> usize
    ensures { result ≡ initialized names.now }
{
    names.iter().filter(|x| x.has_initializer).count()
}

// How many expressions the first part of a `for` statement has.
fn initial_count(shape: &InitialShape) -> usize
    ensures { result ≡ initial_count (initial_form shape.now) }
{
    match shape {
        InitialShape::Declaration(names) => initialized(names),
        InitialShape::Expressions(count) => *count,
    }
}

fn first_part(alloc: Global, shape: &InitialShape, ids: &[ExprId]) -> Result<ForInitial, NoMemory>
    requires { length ids.now ≡ initial_count (initial_form shape.now) }
    ensures form { IfOk result (λ f. first_part f ≡ initial_form shape.now) }
    ensures parts { IfOk result (λ f. initial_expressions f ≡ ids.now) }
{
    match shape {
        InitialShape::Declaration(names) => {
            Ok(ForInitial::Declaration(declarators(alloc, names, ids)?))
        }
        InitialShape::Expressions(_) => Ok(ForInitial::Expressions(ids.to_vec(alloc)?)),
    }
}

fn for_kind(
    alloc: Global,
    shape: &ForShape,
    ids: &[ExprId],
    body: StmtId,
) -> Result<StatementKind, NoMemory>
    requires { initial_count (initial_form shape.now.initial) + one_if shape.now.has_condition ≤ length ids.now }
    ensures form { IfOk result (λ k. form_in k ≡ forms.For (initial_form shape.now.initial) shape.now.has_condition) }
    ensures expressions { IfOk result (λ k. expressions_in k ≡ ids.now) }
    ensures statements { IfOk result (λ k. statements_in k ≡ body ∷ []) }
{
    let (first, others) = ids.split_at(initial_count(&shape.initial));
    let (second, third) = others.split_at(one_if(shape.has_condition));
    let initial = first_part(alloc, &shape.initial, first)?;
    let condition = optional_of(second, shape.has_condition);
    let updates = third.to_vec(alloc)?;
    Ok(StatementKind::For(ForLoop {
        initial,
        condition,
        updates,
        body,
    }))
}

fn try_kind(
    alloc: Global,
    shape: &TryShape,
    es: &[ExprId],
    ss: &[StmtId],
) -> Result<StatementKind, NoMemory>
    requires expressions { length es.now ≡ length shape.now.resources.items }
    requires statements { length ss.now ≡ 1 + length shape.now.catches.items + one_if shape.now.has_finally }
    ensures form { IfOk result (λ k. form_in k ≡ forms.Try shape.now.resources.items (map catch_form shape.now.catches.items) shape.now.has_finally) }
    ensures expressions { IfOk result (λ k. expressions_in k ≡ es.now) }
    ensures statements { IfOk result (λ k. statements_in k ≡ ss.now) }
{
    let behind = 1 + shape.catches.len();
    let resources = resources(alloc, &shape.resources, es)?;
    let catches = clauses(alloc, &shape.catches, &ss[1..behind])?;
    let finally = optional_of(&ss[behind..], shape.has_finally);
    Ok(StatementKind::Try(TryStatement {
        resources,
        block: ss[0],
        catches,
        finally,
    }))
}

fn if_kind(has_else: bool, condition: ExprId, ss: &[StmtId]) -> StatementKind
    requires { length ss.now ≡ 1 + one_if has_else }
    ensures form { form_in result ≡ forms.If has_else }
    ensures expressions { expressions_in result ≡ condition ∷ [] }
    ensures statements { statements_in result ≡ ss.now }
{
    StatementKind::If(condition, ss[0], optional_of(&ss[1..], has_else))
}

/// The statement of this shape whose parts have these numbers: as many as the shape takes.
pub fn statement_kind(
    alloc: Global,
    shape: &StatementShape,
    es: Vec<ExprId>,
    ss: Vec<StmtId>,
) -> Result<StatementKind, NoMemory>
    requires { TakesParts (form_of shape.now) (length es.items) (length ss.items) }
    ensures form { IfOk result (λ k. form_in k ≡ form_of shape.now) }
    ensures expressions { IfOk result (λ k. expressions_in k ≡ es.items) }
    ensures statements { IfOk result (λ k. statements_in k ≡ ss.items) }
{
    match shape {
        StatementShape::Block(end) => Ok(StatementKind::Block(ss, *end)),
        StatementShape::Empty => Ok(StatementKind::Empty),
        StatementShape::LocalDeclaration(names) => Ok(StatementKind::LocalDeclaration(declarators(
            alloc, names, &es,
        )?)),
        StatementShape::Expression => Ok(StatementKind::Expression(one_of(&es))),
        StatementShape::If(has_else) => Ok(if_kind(*has_else, one_of(&es), &ss)),
        StatementShape::While => Ok(StatementKind::While(one_of(&es), one_of(&ss))),
        StatementShape::Do => Ok(StatementKind::Do(one_of(&ss), one_of(&es))),
        StatementShape::For(shape) => for_kind(alloc, shape, &es, one_of(&ss)),
        StatementShape::Return(has_value) => {
            Ok(StatementKind::Return(optional_of(&es, *has_value)))
        }
        StatementShape::Throw => Ok(StatementKind::Throw(one_of(&es))),
        StatementShape::Break => Ok(StatementKind::Break),
        StatementShape::Continue => Ok(StatementKind::Continue),
        StatementShape::Try(shape) => try_kind(alloc, shape, &es, &ss),
        StatementShape::SuperCall(constructor, written) => {
            Ok(super_call(*constructor, *written, es))
        }
        StatementShape::FieldInitializer => Ok(StatementKind::FieldInitializer(one_of(&es))),
        StatementShape::Erroneous => unreachable!(),
    }
}

fn super_call(constructor: MethodId, written: bool, arguments: Vec<ExprId>) -> StatementKind
    ensures form { form_in result ≡ forms.SuperCall constructor written }
    ensures expressions { expressions_in result ≡ arguments.items }
    ensures statements { statements_in result ≡ [] }
{
    StatementKind::SuperCall(SuperCall {
        constructor,
        arguments,
        written,
    })
}
