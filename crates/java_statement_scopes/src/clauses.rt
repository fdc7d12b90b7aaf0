//! Catch clauses, and what a `try` covers (JLS 11.2, 14.20).

ghost use Rattle.std.specs.Prelude.{◌≡◌, ◌+◌, ◌++◌, ◌∷◌, [], None, IfOk, OnOk, map};
ghost use Rattle.java_syntax.specs.AnnotationTrees.{modifier_of};
ghost use Rattle.java_syntax.specs.StatementTrees.{catch_of, catches};
ghost use Rattle.java_typed_trees.specs.StatementTrees.{catch_form};
ghost use Rattle.java_statement_rules.specs.CatchClauses.{classes_named, is_final_parameter, parameter_type};
ghost use Rattle.java_statement_rules.specs.DeclaredVariables.{local_variable};
ghost use Rattle.java_statement_scopes.specs.Scopes.{context_at, surroundings_at};
ghost use Rattle.java_statement_scopes.specs.Clauses.{caught_by_all, clause_cases, swallowed};

use crate::scope::{StatementScope, body_scope, take_number};
use java_statement_rules::{
    count_alternatives, count_double, is_final_parameter, local_variable, parameter_type,
    push_caught, push_named,
};
use java_syntax::{Catch, Modifier, Name};
use java_typed_trees::{CatchShape, Local};
use program_model::{ClassId, Program};
use rlc_base::{NoMemory, Pos, Refusal};
use std::alloc::Global;

// Puts the classes that clauses catch at the end.
fn push_all_caught(
    scope: &StatementScope,
    locals: &[Local],
    clauses: &[Catch],
    caught: &mut Vec<ClassId>,
) -> Result<(), NoMemory>
    ensures { OnOk result (caught.new.items ≡ caught.old.items ++ caught_by_all (surroundings_at scope.now locals.now) (catches (map catch_of clauses.now))) }
{
    let inner = body_scope(scope, locals);
    for clause in clauses {
        push_caught(&inner, &clause.classes, caught)?;
    }
    Ok(())
}

/// The classes of the exceptions that clauses catch, and these.
pub fn covered_within(
    alloc: Global,
    scope: &StatementScope,
    locals: &[Local],
    clauses: &[Catch],
    covered: &[ClassId],
) -> Result<Vec<ClassId>, NoMemory>
    ensures { IfOk result (λ v. v.items ≡ caught_by_all (surroundings_at scope.now locals.now) (catches (map catch_of clauses.now)) ++ covered.now) }
{
    let mut all = Vec::new(alloc);
    push_all_caught(scope, locals, clauses, &mut all)?;
    all.extend_from_slice(covered)?;
    Ok(all)
}

/// The classes that are covered before a `finally`: where that cannot complete normally, no exception gets out (JLS 11.2.2).
pub fn covered_before(
    alloc: Global,
    p: &Program,
    completes: bool,
    covered: &[ClassId],
) -> Result<Vec<ClassId>, NoMemory>
    ensures { IfOk result (λ v. v.items ≡ swallowed p.now completes ++ covered.now) }
{
    let mut all = Vec::new(alloc);
    if !completes {
        all.push(p.core.throwable)?;
    }
    all.extend_from_slice(covered)?;
    Ok(all)
}

/// A catch clause without its block. It puts its parameter behind the variables in scope. The place is that of the `try`.
pub fn clause_head(
    alloc: Global,
    scope: &StatementScope,
    locals: &mut Vec<Local>,
    next: &mut u32,
    refusals: &mut Vec<Refusal>,
    pos: Pos,
    modifiers: &[Modifier],
    classes: &[Name],
    name: &Name,
) -> Result<CatchShape, NoMemory>
    ensures shape { IfOk result (λ r. catch_form r ≡ record { variable = next.old; classes = classes_named (surroundings_at scope.now locals.old.items) classes.now }) }
    ensures locals { OnOk result (locals.new.items ≡ locals.old.items ++ local_variable next.old name.now.text (parameter_type (surroundings_at scope.now locals.old.items) classes.now) (is_final_parameter (map modifier_of modifiers.now) classes.now) None ∷ []) }
    ensures next { OnOk result (next.new ≡ next.old + 1) }
    ensures cases { OnOk result (refusals.new.items ≡ refusals.old.items ++ clause_cases (context_at scope.now locals.old.items next.old) classes.now name.now pos) }
{
    let inner = body_scope(scope, locals);
    count_alternatives(&inner, pos, classes, refusals)?;
    count_double(pos, locals, &name.text, refusals)?;
    let mut named = Vec::new(alloc);
    push_named(&inner, classes, &mut named)?;
    let vtype = parameter_type(&inner, classes);
    let number = take_number(next)?;
    let is_final = is_final_parameter(modifiers, classes);
    locals.push(local_variable(number, &name.text, vtype, is_final, None)?)?;
    Ok(CatchShape {
        variable: number,
        classes: named,
    })
}
