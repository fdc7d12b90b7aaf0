//! Declarations of local variables (JLS 14.4), in a block and at the head of `for`.

ghost use Rattle.std.specs.Prelude.{◌≡◌, ◌+◌, ◌++◌, ◌∷◌, [], IfOk, OnOk, map, option_map, length};
ghost use Rattle.std.specs.Option.{is_some};
ghost use Rattle.java_syntax.specs.ExpressionTrees.{expr_of};
ghost use Rattle.java_syntax.specs.StatementTrees.{local_of, variable_of};
ghost use Rattle.java_typed_trees.specs.ExpressionTrees.{tree_of};
ghost use Rattle.java_statement_parts.specs.Declarations.{behind_initializer, declaration_cases, declaration_trees, declared_by, declared_locals, declarators, initial_constant, initializer_cases, initializer_tree, initializer_trees, in_initializer, locals_declared, variable_cases, variables_cases};
ghost use Rattle.java_statement_scopes.specs.Scopes.{context_at, surroundings_at};

use crate::values::push_value;
use java_statement_rules::{
    cast_type, constant_value, count_double, count_storing, count_unknown, has_final,
    local_variable,
};
use java_statement_scopes::{StatementScope, body_scope, take_number};
use java_syntax::{Expr, Local as LocalDecl, Variable as VariableDecl};
use java_typed_trees::{DeclaratorShape, ExpressionTree, Local};
use program_model::VType;
use rlc_base::{NoMemory, Pos, Refusal};
use std::alloc::Global;

/// What all variables of a declaration share.
#[derive(Clone, Copy)]
pub struct Declared {
    /// The type that is written: none where it is refused.
    pub vtype: Option<VType>,
    /// `final` stands there.
    pub is_final: bool,
    /// The place of the statement.
    pub pos: Pos,
}

fn declared_by(scope: &StatementScope, locals: &[Local], local: &LocalDecl, pos: Pos) -> Declared
    ensures { result ≡ declared_by (surroundings_at scope.now locals.now) (local_of local.now) pos }
{
    let inner = body_scope(scope, locals);
    Declared {
        vtype: cast_type(&inner, &local.typ),
        is_final: has_final(&local.modifiers),
        pos,
    }
}

// The initialiser of a variable, where it has one, and its value where the variable is constant.
fn initializer(
    alloc: Global,
    scope: &StatementScope,
    locals: &[Local],
    refusals: &mut Vec<Refusal>,
    values: &mut Vec<ExpressionTree>,
    shared: Declared,
    e: &Option<Expr>,
) -> Result<Option<i64>, NoMemory>
    ensures constant { IfOk result (λ r. r ≡ initial_constant (surroundings_at scope.now locals.now) shared (option_map expr_of e.now)) }
    ensures trees { OnOk result (map tree_of values.new.items ≡ map tree_of values.old.items ++ initializer_tree (surroundings_at scope.now locals.now) shared (option_map expr_of e.now)) }
    ensures cases { OnOk result (refusals.new.items ≡ refusals.old.items ++ initializer_cases (surroundings_at scope.now locals.now) shared (option_map expr_of e.now)) }
{
    match e {
        None => Ok(None),
        Some(found) => {
            let wanted = shared.vtype;
            let facts = push_value(alloc, scope, locals, refusals, values, wanted, found)?;
            count_storing(scope.program, shared.pos, wanted, facts, refusals)?;
            Ok(constant_value(scope.program, shared.is_final, wanted, facts))
        }
    }
}

// Puts a variable with its initialiser behind those in scope.
fn variable(
    alloc: Global,
    scope: &StatementScope,
    locals: &mut Vec<Local>,
    next: &mut u32,
    refusals: &mut Vec<Refusal>,
    values: &mut Vec<ExpressionTree>,
    shared: Declared,
    v: &VariableDecl,
) -> Result<DeclaratorShape, NoMemory>
    ensures shape { IfOk result (λ r. r ∷ [] ≡ declarators next.old (variable_of v.now ∷ [])) }
    ensures locals { OnOk result (locals.new.items ≡ locals.old.items ++ behind_initializer (context_at scope.now locals.old.items next.old) shared (variable_of v.now) ∷ []) }
    ensures next { OnOk result (next.new ≡ next.old + 1) }
    ensures trees { OnOk result (map tree_of values.new.items ≡ map tree_of values.old.items ++ initializer_tree (in_initializer (context_at scope.now locals.old.items next.old) shared (variable_of v.now)).surroundings shared (variable_of v.now).initializer) }
    ensures cases { OnOk result (refusals.new.items ≡ refusals.old.items ++ variable_cases (context_at scope.now locals.old.items next.old) shared (variable_of v.now)) }
{
    count_double(shared.pos, locals, &v.name.text, refusals)?;
    let before = locals.len();
    let number = take_number(next)?;
    let is_final = shared.is_final && v.initializer.is_some();
    let opening = local_variable(number, &v.name.text, shared.vtype, is_final, None)?;
    locals.push(opening)?;
    let e = &v.initializer;
    let constant = initializer(alloc, scope, locals, refusals, values, shared, e)?;
    locals.truncate(before);
    let declared = local_variable(number, &v.name.text, shared.vtype, is_final, constant)?;
    locals.push(declared)?;
    Ok(DeclaratorShape {
        variable: number,
        has_initializer: v.initializer.is_some(),
        pos: v.name.pos,
    })
}

// Puts the variables of a declaration behind those in scope, each in the scope of those before it.
fn variables(
    alloc: Global,
    scope: &StatementScope,
    locals: &mut Vec<Local>,
    next: &mut u32,
    refusals: &mut Vec<Refusal>,
    values: &mut Vec<ExpressionTree>,
    shared: Declared,
    all: &[VariableDecl],
) -> Result<Vec<DeclaratorShape>, NoMemory>
    ensures shapes { IfOk result (λ v. v.items ≡ declarators next.old (map variable_of all.now)) }
    ensures locals { OnOk result (locals.new.items ≡ locals.old.items ++ declared_locals (context_at scope.now locals.old.items next.old) shared (map variable_of all.now)) }
    ensures next { OnOk result (next.new ≡ next.old + length all.now) }
    ensures trees { OnOk result (map tree_of values.new.items ≡ map tree_of values.old.items ++ initializer_trees (context_at scope.now locals.old.items next.old) shared (map variable_of all.now)) }
    ensures cases { OnOk result (refusals.new.items ≡ refusals.old.items ++ variables_cases (context_at scope.now locals.old.items next.old) shared (map variable_of all.now)) }
{
    let mut shapes = Vec::new(alloc);
    for v in all {
        let shape = variable(alloc, scope, locals, next, refusals, values, shared, v)?;
        shapes.push(shape)?;
    }
    Ok(shapes)
}

/// A declaration of local variables. It puts them behind those in scope, and the trees of the initialisers at the end of
/// `values`. The place is that of its statement.
pub fn declaration(
    alloc: Global,
    scope: &StatementScope,
    locals: &mut Vec<Local>,
    next: &mut u32,
    refusals: &mut Vec<Refusal>,
    values: &mut Vec<ExpressionTree>,
    local: &LocalDecl,
    pos: Pos,
) -> Result<Vec<DeclaratorShape>, NoMemory>
    ensures shapes { IfOk result (λ v. v.items ≡ declarators next.old (local_of local.now).variables) }
    ensures locals { OnOk result (locals.new.items ≡ locals.old.items ++ locals_declared (context_at scope.now locals.old.items next.old) (local_of local.now) pos) }
    ensures next { OnOk result (next.new ≡ next.old + length (local_of local.now).variables) }
    ensures trees { OnOk result (map tree_of values.new.items ≡ map tree_of values.old.items ++ declaration_trees (context_at scope.now locals.old.items next.old) (local_of local.now) pos) }
    ensures cases { OnOk result (refusals.new.items ≡ refusals.old.items ++ declaration_cases (context_at scope.now locals.old.items next.old) (local_of local.now) pos) }
{
    let shared = declared_by(scope, locals, local, pos);
    count_unknown(shared.vtype.is_some(), local.typ.pos, refusals)?;
    let all = &local.variables;
    variables(alloc, scope, locals, next, refusals, values, shared, all)
}
