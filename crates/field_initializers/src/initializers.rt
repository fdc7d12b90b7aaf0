//! The initialisers of instance fields, which run in each constructor as assignments (JLS 8.3.2, 12.5).

ghost use Rattle.std.specs.Prelude.{◌≡◌, ◌++◌, IfOk, OnOk, flat_map, map};
ghost use Rattle.java_syntax.specs.ExpressionTrees.{expr_of};
ghost use Rattle.java_typed_trees.specs.StatementTrees.{statement_of};
ghost use Rattle.java_typed_expressions.specs.Surroundings.{surroundings_of};
ghost use Rattle.source_classes.specs.Members.{environment_in, numbered_field_of};
ghost use Rattle.source_classes.specs.SourceClasses.{source_class_of};
ghost use Rattle.field_initializers.specs.FieldInitializers.{cases_of_field, initializer_statements, initializers_cases, initializing_cases, initializing_statement, statements_of_field};

use java_member_rules::{assignment_by, implied_this};
use java_syntax::Expr;
use java_typed_expressions::{BodyScope, one, operand, settle_in, two, value};
use java_typed_trees::{StatementShape, StatementTree, TargetShape, statement_tree, value_at};
use program_model::{ClassId, Field, FieldId};
use rlc_base::{NoMemory, Refusal};
use source_classes::{
    DeclaredClass, NumberedField, ProgramScope, numbered_fields, surroundings_in,
};
use std::alloc::Global;

// The assignment of its initialiser to the field, as a statement.
pub(crate) fn initializing_statement(
    alloc: Global,
    scope: &BodyScope,
    refusals: &mut Vec<Refusal>,
    number: FieldId,
    field: &Field,
    e: &Expr,
) -> Result<StatementTree, NoMemory>
    ensures tree { IfOk result (λ t. statement_of t ≡ initializing_statement (surroundings_of scope.now) number field.now (expr_of e.now)) }
    ensures cases { OnOk result (refusals.new.items ≡ refusals.old.items ++ initializing_cases (surroundings_of scope.now) number field.now (expr_of e.now)) }
{
    let typing = value(alloc, scope, refusals, Some(field.vtype), e)?;
    let answer = assignment_by(
        scope.scope.program,
        field.pos,
        Some(TargetShape::Field(number)),
        value_at(field.pos, field.vtype),
        operand(typing.answer),
    );
    let target = implied_this(alloc, scope.scope.class, field.pos);
    let parts = two(alloc, target, typing.tree)?;
    let assignment = settle_in(scope, refusals, answer, parts)?;
    let parts = one(alloc, assignment.tree)?;
    let shape = StatementShape::FieldInitializer;
    Ok(statement_tree(shape, field.pos, parts, Vec::new(alloc)))
}

// Puts the statement of a field at the end, where it is an instance field with an initialiser.
fn push_initializer(
    alloc: Global,
    scope: &BodyScope,
    statements: &mut Vec<StatementTree>,
    refusals: &mut Vec<Refusal>,
    field: &NumberedField,
) -> Result<(), NoMemory>
    ensures trees { OnOk result (map statement_of statements.new.items ≡ map statement_of statements.old.items ++ statements_of_field (surroundings_of scope.now) (numbered_field_of field.now)) }
    ensures cases { OnOk result (refusals.new.items ≡ refusals.old.items ++ cases_of_field (surroundings_of scope.now) (numbered_field_of field.now)) }
{
    let Some(found) = scope.scope.program.field(field.field) else {
        return Ok(());
    };
    let Some(e) = &field.declared.variable.initializer else {
        return Ok(());
    };
    if found.is_static {
        return Ok(());
    }
    let statement = initializing_statement(alloc, scope, refusals, field.field, found, e)?;
    statements.push(statement)?;
    Ok(())
}

// Puts the statements of fields at the end.
fn push_each(
    alloc: Global,
    scope: &BodyScope,
    statements: &mut Vec<StatementTree>,
    refusals: &mut Vec<Refusal>,
    fields: &[NumberedField],
) -> Result<(), NoMemory>
    ensures trees { OnOk result (map statement_of statements.new.items ≡ map statement_of statements.old.items ++ flat_map (statements_of_field (surroundings_of scope.now)) (map numbered_field_of fields.now)) }
    ensures cases { OnOk result (refusals.new.items ≡ refusals.old.items ++ flat_map (cases_of_field (surroundings_of scope.now)) (map numbered_field_of fields.now)) }
{
    for field in fields {
        push_initializer(alloc, scope, statements, refusals, field)?;
    }
    Ok(())
}

/// Puts the statements with which a constructor of the class initialises the instance fields behind those that are there, in
/// the order of the text (JLS 8.3.2). `covered` are the classes of its throws clause. All refusals in the initialisers come
/// behind those that are counted already.
pub fn push_initializers(
    alloc: Global,
    scope: &ProgramScope,
    class: &DeclaredClass,
    covered: &[ClassId],
    statements: &mut Vec<StatementTree>,
    refusals: &mut Vec<Refusal>,
) -> Result<(), NoMemory>
    ensures trees { OnOk result (map statement_of statements.new.items ≡ map statement_of statements.old.items ++ initializer_statements (environment_in scope.now) (source_class_of class.now) covered.now) }
    ensures cases { OnOk result (refusals.new.items ≡ refusals.old.items ++ initializers_cases (environment_in scope.now) (source_class_of class.now) covered.now) }
{
    let fields = numbered_fields(alloc, scope.program, class)?;
    let place = surroundings_in(scope, class, true, Some(class.class), &[], covered);
    push_each(alloc, &place, statements, refusals, &fields)
}
