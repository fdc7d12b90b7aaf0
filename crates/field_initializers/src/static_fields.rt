//! The initialisers of static fields: their values, which the table keeps, are typed here.

ghost use Rattle.std.specs.Prelude.{◌≡◌, ◌++◌, OnOk, flat_map, map};
ghost use Rattle.java_syntax.specs.ExpressionTrees.{expr_of};
ghost use Rattle.java_typed_expressions.specs.Surroundings.{surroundings_of};
ghost use Rattle.source_classes.specs.Members.{environment_in, numbered_field_of};
ghost use Rattle.source_classes.specs.SourceClasses.{source_class_of};
ghost use Rattle.field_initializers.specs.FieldInitializers.{or_lost, static_cases, static_cases_of_field, static_initializer_cases};

use crate::initializers::initializing_statement;
use java_annotations::value_of;
use java_syntax::Expr;
use java_typed_expressions::BodyScope;
use program_model::{Field, FieldId};
use rlc_base::{NoMemory, Refusal};
use source_classes::{
    DeclaredClass, NumberedField, ProgramScope, count_unless, numbered_fields, surroundings_in,
};
use std::alloc::Global;

// Counts these refusals, and where there is none, that of a field of which the table has no value.
fn count_or_lost(
    field: &Field,
    found: &[Refusal],
    refusals: &mut Vec<Refusal>,
) -> Result<(), NoMemory>
    ensures { OnOk result (refusals.new.items ≡ refusals.old.items ++ or_lost field.now found.now) }
{
    match found {
        [] => count_unless(field.initial.is_some(), field.pos, refusals),
        _some => Ok(refusals.extend_from_slice(found)?),
    }
}

// Counts the refusals of the initialiser of a static field.
fn count_initializer(
    alloc: Global,
    scope: &BodyScope,
    refusals: &mut Vec<Refusal>,
    number: FieldId,
    field: &Field,
    e: &Expr,
) -> Result<(), NoMemory>
    ensures { OnOk result (refusals.new.items ≡ refusals.old.items ++ static_initializer_cases (surroundings_of scope.now) number field.now (expr_of e.now)) }
{
    if value_of(e).is_some() {
        let mut found = Vec::new(alloc);
        let _statement = initializing_statement(alloc, scope, &mut found, number, field, e)?;
        count_or_lost(field, &found, refusals)
    } else {
        count_unless(false, field.pos, refusals)
    }
}

// Counts those of a field, where it is static and has an initialiser.
fn count_static_initializer(
    alloc: Global,
    scope: &BodyScope,
    refusals: &mut Vec<Refusal>,
    field: &NumberedField,
) -> Result<(), NoMemory>
    ensures { OnOk result (refusals.new.items ≡ refusals.old.items ++ static_cases_of_field (surroundings_of scope.now) (numbered_field_of field.now)) }
{
    let Some(found) = scope.scope.program.field(field.field) else {
        return Ok(());
    };
    let Some(e) = &field.declared.variable.initializer else {
        return Ok(());
    };
    if found.is_static {
        count_initializer(alloc, scope, refusals, field.field, found, e)?;
    }
    Ok(())
}

// Counts those of fields.
fn count_each(
    alloc: Global,
    scope: &BodyScope,
    refusals: &mut Vec<Refusal>,
    fields: &[NumberedField],
) -> Result<(), NoMemory>
    ensures { OnOk result (refusals.new.items ≡ refusals.old.items ++ flat_map (static_cases_of_field (surroundings_of scope.now)) (map numbered_field_of fields.now)) }
{
    for field in fields {
        count_static_initializer(alloc, scope, refusals, field)?;
    }
    Ok(())
}

/// Counts the refusals of the static fields of the class that cannot take their initialisers: a literal, or a number under a
/// minus, is typed as that of an instance field is (JLS 5.2), and no other initialiser may stand there. They come behind those
/// that are counted already.
pub fn count_static_initializers(
    alloc: Global,
    scope: &ProgramScope,
    class: &DeclaredClass,
    refusals: &mut Vec<Refusal>,
) -> Result<(), NoMemory>
    ensures { OnOk result (refusals.new.items ≡ refusals.old.items ++ static_cases (environment_in scope.now) (source_class_of class.now)) }
{
    let fields = numbered_fields(alloc, scope.program, class)?;
    let place = surroundings_in(scope, class, false, None, &[], &[]);
    count_each(alloc, &place, refusals, &fields)
}
