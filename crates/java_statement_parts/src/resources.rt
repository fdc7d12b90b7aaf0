//! The resources of `try` (JLS 14.20.3).

ghost use Rattle.std.specs.Prelude.{◌≡◌, ◌+◌, ◌++◌, ◌∷◌, [], IfOk, OnOk, map, length};
ghost use Rattle.program_model.specs.Lookups.{optional};
ghost use Rattle.java_syntax.specs.ExpressionTrees.{expr_of};
ghost use Rattle.java_syntax.specs.StatementTrees.{resource_of};
ghost use Rattle.java_typed_trees.specs.ExpressionTrees.{tree_of};
ghost use Rattle.java_typed_trees.specs.Settling.{own_cases};
ghost use Rattle.java_typed_expressions.specs.Typings.{tree};
ghost use Rattle.java_statement_rules.specs.CallParts.{method_in};
ghost use Rattle.java_statement_rules.specs.Resources.{class_type, closing_by};
ghost use Rattle.java_statement_parts.specs.Resources.{closing_cases, closing_of, opening_cases, opening_tree, opening_trees, resource_cases, resource_class_cases, resource_local, resource_locals, resource_shape, resource_shapes, resource_shapes_by, resources_cases};
ghost use Rattle.java_statement_scopes.specs.Scopes.{context_at, surroundings_at};

use crate::values::push_value;
use java_statement_rules::{
    class_type, closing_by, count_closeable, count_double, count_storing, count_unknown,
    local_variable,
};
use java_statement_scopes::{StatementScope, body_scope, take_number};
use java_syntax::{Expr, Resource};
use java_typed_trees::{Answer, ExpressionTree, Local, ResourceShape, Shape, settle};
use program_model::{MethodId, VType};
use rlc_base::{NoMemory, Pos, Refusal};
use std::alloc::Global;

fn method_in(answer: Answer) -> Option<MethodId>
    ensures { result ≡ method_in answer }
{
    match answer {
        Answer::Is(shape, _) => match shape {
            Shape::Call(_, method) => Some(method),
            Shape::NewObject(_, method) => Some(method),
            _ => None,
        },
        Answer::Wrong(_, _) => None,
        Answer::Silent(_) => None,
    }
}

// The class of a resource: counts the refusals of its name, and that it is no resource's.
fn resource_class(
    scope: &StatementScope,
    locals: &[Local],
    refusals: &mut Vec<Refusal>,
    pos: Pos,
    r: &Resource,
) -> Result<Option<VType>, NoMemory>
    ensures class_type { IfOk result (λ t. t ≡ class_type (surroundings_at scope.now locals.now) (resource_of r.now).class') }
    ensures cases { OnOk result (refusals.new.items ≡ refusals.old.items ++ resource_class_cases (surroundings_at scope.now locals.now) (resource_of r.now) pos) }
{
    let inner = body_scope(scope, locals);
    let vtype = class_type(&inner, &r.class);
    count_unknown(vtype.is_some(), r.class.pos, refusals)?;
    count_closeable(&inner, pos, vtype, refusals)?;
    Ok(vtype)
}

// The method that closes a resource of the type, if there is one: counts the refusals of its call.
fn closing(
    alloc: Global,
    scope: &StatementScope,
    locals: &[Local],
    refusals: &mut Vec<Refusal>,
    vtype: Option<VType>,
    pos: Pos,
) -> Result<Option<MethodId>, NoMemory>
    ensures method { IfOk result (λ m. m ≡ method_in (closing_by (surroundings_at scope.now locals.now) pos vtype)) }
    ensures cases { OnOk result (refusals.new.items ≡ refusals.old.items ++ own_cases scope.now.program.now scope.now.covered.now (closing_by (surroundings_at scope.now locals.now) pos vtype)) }
{
    let inner = body_scope(scope, locals);
    let answer = closing_by(alloc, &inner, pos, vtype)?;
    let parts = Vec::new(alloc);
    settle(scope.program, scope.covered, refusals, answer, parts)?;
    Ok(method_in(answer))
}

// The initialiser of a resource, which is of this type.
fn opening(
    alloc: Global,
    scope: &StatementScope,
    locals: &[Local],
    refusals: &mut Vec<Refusal>,
    values: &mut Vec<ExpressionTree>,
    vtype: Option<VType>,
    e: &Expr,
    pos: Pos,
) -> Result<(), NoMemory>
    ensures trees { OnOk result (map tree_of values.new.items ≡ map tree_of values.old.items ++ tree (surroundings_at scope.now locals.now) vtype (expr_of e.now) ∷ []) }
    ensures cases { OnOk result (refusals.new.items ≡ refusals.old.items ++ opening_cases (surroundings_at scope.now locals.now) vtype (expr_of e.now) pos) }
{
    let facts = push_value(alloc, scope, locals, refusals, values, vtype, e)?;
    count_storing(scope.program, pos, vtype, facts, refusals)
}

// Puts a resource behind the variables in scope.
fn resource(
    alloc: Global,
    scope: &StatementScope,
    locals: &mut Vec<Local>,
    next: &mut u32,
    refusals: &mut Vec<Refusal>,
    values: &mut Vec<ExpressionTree>,
    r: &Resource,
    pos: Pos,
) -> Result<Option<ResourceShape>, NoMemory>
    ensures shape { IfOk result (λ s. optional s ≡ resource_shape (context_at scope.now locals.old.items next.old) (resource_of r.now)) }
    ensures locals { OnOk result (locals.new.items ≡ locals.old.items ++ resource_local (context_at scope.now locals.old.items next.old) (resource_of r.now) ∷ []) }
    ensures next { OnOk result (next.new ≡ next.old + 1) }
    ensures trees { OnOk result (map tree_of values.new.items ≡ map tree_of values.old.items ++ opening_tree (context_at scope.now locals.old.items next.old) (resource_of r.now) ∷ []) }
    ensures cases { OnOk result (refusals.new.items ≡ refusals.old.items ++ resource_cases (context_at scope.now locals.old.items next.old) (resource_of r.now) pos) }
{
    count_double(pos, locals, &r.name.text, refusals)?;
    let vtype = resource_class(scope, locals, refusals, pos, r)?;
    let close = closing(alloc, scope, locals, refusals, vtype, r.name.pos)?;
    let number = take_number(next)?;
    locals.push(local_variable(number, &r.name.text, vtype, true, None)?)?;
    opening(alloc, scope, locals, refusals, values, vtype, &r.value, pos)?;
    match close {
        None => Ok(None),
        Some(method) => Ok(Some(ResourceShape {
            variable: number,
            close: method,
            pos: r.name.pos,
        })),
    }
}

/// The resources of a `try`. It puts them behind the variables in scope, the trees of the initialisers at the end of `values`,
/// and at the end of `shapes` those that are not refused, as the typed statement keeps them. The place is that of the `try`.
pub fn try_resources(
    alloc: Global,
    scope: &StatementScope,
    locals: &mut Vec<Local>,
    next: &mut u32,
    refusals: &mut Vec<Refusal>,
    values: &mut Vec<ExpressionTree>,
    shapes: &mut Vec<ResourceShape>,
    all: &[Resource],
    pos: Pos,
) -> Result<(), NoMemory>
    ensures shapes { OnOk result (shapes.new.items ≡ shapes.old.items ++ resource_shapes (context_at scope.now locals.old.items next.old) (map resource_of all.now)) }
    ensures locals { OnOk result (locals.new.items ≡ locals.old.items ++ resource_locals (context_at scope.now locals.old.items next.old) (map resource_of all.now)) }
    ensures next { OnOk result (next.new ≡ next.old + length all.now) }
    ensures trees { OnOk result (map tree_of values.new.items ≡ map tree_of values.old.items ++ opening_trees (context_at scope.now locals.old.items next.old) (map resource_of all.now)) }
    ensures cases { OnOk result (refusals.new.items ≡ refusals.old.items ++ resources_cases (context_at scope.now locals.old.items next.old) (map resource_of all.now) pos) }
{
    for r in all {
        if let Some(shape) = resource(alloc, scope, locals, next, refusals, values, r, pos)? {
            shapes.push(shape)?;
        }
    }
    Ok(())
}
