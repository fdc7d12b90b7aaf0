//! The fields that are constant variables of a primitive type (JLS 4.12.4).

ghost use Rattle.std.specs.Prelude.{◌≡◌, ◌∷◌, [], IfOk, OnOk, fold, map, slice_set};
ghost use Rattle.source_classes.specs.ClassDeclarationsMembers.{written_field_of};
ghost use Rattle.source_classes.specs.Members.{environment_in, numbered_field_of};
ghost use Rattle.source_classes.specs.SourceClasses.{source_class_of};
ghost use Rattle.field_initializers.specs.FieldInitializers.{initializer_of};
ghost use Rattle.field_initializers.specs.FieldConstants.{field_constants, greatest_height, height, initial_constant, initialized_constant, literal_constant, static_constant, up_to_height, with_class, with_field_of, with_height};

use class_names::ClassNames;
use java_typed_expressions::{operand, value};
use program_model::{Field, FieldId, Literal, Program};
use rlc_base::NoMemory;
use source_classes::{
    DeclaredClass, NumberedField, ProgramScope, constant_value, numbered_fields, surroundings_in,
};
use std::alloc::Global;

fn literal_constant(literal: Literal) -> Option<i64>
    ensures { result ≡ literal_constant literal }
{
    match literal {
        Literal::Number(number) => Some(number),
        Literal::Character(unit) => Some(i64::from(unit)),
        Literal::Boolean(truth) => Some(i64::from(truth)),
        Literal::Text => None,
        Literal::Null => None,
    }
}

fn initial_constant(initial: Option<Literal>) -> Option<i64>
    ensures { result ≡ initial_constant initial }
{
    match initial {
        None => None,
        Some(literal) => literal_constant(literal),
    }
}

// The value of a static final field that begins with a literal of a primitive type.
fn static_constant(field: &Field) -> Option<i64>
    ensures { result ≡ static_constant field.now }
{
    if field.is_static && field.is_final {
        initial_constant(field.initial)
    } else {
        None
    }
}

fn static_constants(alloc: Global, p: &Program) -> Result<Vec<Option<i64>>, NoMemory>
    ensures { IfOk result (λ v. v.items ≡ map static_constant p.now.fields.items) }
{
    Ok(
        p.fields
            .iter()
            .map(|field| static_constant(field))
            .collect(alloc)?,
    )
}

// The value of an instance field, where it is final and its initialiser is a constant expression.
fn initialized_constant(
    alloc: Global,
    scope: &ProgramScope,
    class: &DeclaredClass,
    field: &Field,
    written: &NumberedField,
) -> Result<Option<i64>, NoMemory>
    ensures { IfOk result (λ n. n ≡ initialized_constant (environment_in scope.now) (source_class_of class.now) field.now (initializer_of (written_field_of written.now.declared))) }
{
    let Some(e) = &written.declared.variable.initializer else {
        return Ok(None);
    };
    if !field.is_final {
        return Ok(None);
    }
    let place = surroundings_in(scope, class, true, Some(class.class), &[], &[]);
    let mut refusals = Vec::new(alloc);
    let vtype = Some(field.vtype);
    let typing = value(alloc, &place, &mut refusals, vtype, e)?;
    let facts = operand(typing.answer);
    Ok(constant_value(scope.program, field.is_final, vtype, facts))
}

// Writes the value of the field with this number.
fn put_constant(constants: &mut [Option<i64>], field: FieldId, constant: Option<i64>)
    ensures { constants.new ≡ slice_set constants.old field.0 constant }
{
    let number = field.0 as usize;
    if number < constants.len() {
        constants[number] = constant;
    }
}

// Takes the value of one more field in.
fn put_field(
    alloc: Global,
    p: &Program,
    names: &ClassNames,
    class: &DeclaredClass,
    constants: &mut Vec<Option<i64>>,
    field: &NumberedField,
) -> Result<(), NoMemory>
    ensures { OnOk result (constants.new.items ≡ with_field_of p.now names.now (source_class_of class.now) constants.old.items (numbered_field_of field.now)) }
{
    let Some(found) = p.field(field.field) else {
        return Ok(());
    };
    if found.is_static {
        return Ok(());
    }
    let scope = ProgramScope {
        program: p,
        names,
        constants: &*constants,
    };
    let constant = initialized_constant(alloc, &scope, class, found, field)?;
    put_constant(constants, field.field, constant);
    Ok(())
}

// Takes the values of these fields in.
fn put_fields(
    alloc: Global,
    p: &Program,
    names: &ClassNames,
    class: &DeclaredClass,
    constants: &mut Vec<Option<i64>>,
    fields: &[NumberedField],
) -> Result<(), NoMemory>
    ensures { OnOk result (constants.new.items ≡ fold (with_field_of p.now names.now (source_class_of class.now)) constants.old.items (map numbered_field_of fields.now)) }
{
    for field in fields {
        put_field(alloc, p, names, class, constants, field)?;
    }
    Ok(())
}

// Takes the values of the fields of a class in.
fn put_class(
    alloc: Global,
    p: &Program,
    names: &ClassNames,
    constants: &mut Vec<Option<i64>>,
    class: &DeclaredClass,
) -> Result<(), NoMemory>
    ensures { OnOk result (constants.new.items ≡ with_class p.now names.now constants.old.items (source_class_of class.now)) }
{
    let fields = numbered_fields(alloc, p, class)?;
    put_fields(alloc, p, names, class, constants, &fields)
}

// How many classes a class is under, itself among them.
fn height(p: &Program, class: &DeclaredClass) -> usize
    ensures { result ≡ height p.now (source_class_of class.now) }
{
    match p.class(class.class) {
        None => 0,
        Some(found) => found.above.len(),
    }
}

fn greatest_height(p: &Program, classes: &[DeclaredClass]) -> usize
    ensures { result ≡ greatest_height p.now (map source_class_of classes.now) }
{
    let mut greatest = 0;
    for class in classes {
        greatest = greatest.max(height(p, class));
    }
    greatest
}

// Takes the values of the fields of the class in, where it is of this height.
fn put_class_of_height(
    alloc: Global,
    p: &Program,
    names: &ClassNames,
    constants: &mut Vec<Option<i64>>,
    class: &DeclaredClass,
    wanted: usize,
) -> Result<(), NoMemory>
    ensures { OnOk result (constants.new.items ≡ with_height p.now names.now (source_class_of class.now ∷ []) constants.old.items wanted) }
{
    if height(p, class) == wanted {
        put_class(alloc, p, names, constants, class)?;
    }
    Ok(())
}

// Takes the values of the fields of the classes of this height in.
fn put_height(
    alloc: Global,
    p: &Program,
    names: &ClassNames,
    classes: &[DeclaredClass],
    constants: &mut Vec<Option<i64>>,
    wanted: usize,
) -> Result<(), NoMemory>
    ensures { OnOk result (constants.new.items ≡ with_height p.now names.now (map source_class_of classes.now) constants.old.items wanted) }
{
    for class in classes {
        put_class_of_height(alloc, p, names, constants, class, wanted)?;
    }
    Ok(())
}

/// The value of each field that is a constant variable of a primitive type (JLS 4.12.4), by the field's number: of a static
/// final one that begins with a literal, and of a final instance field whose initialiser is a constant expression.
pub fn field_constants(
    alloc: Global,
    p: &Program,
    names: &ClassNames,
    classes: &[DeclaredClass],
) -> Result<Vec<Option<i64>>, NoMemory>
    ensures { IfOk result (λ v. v.items ≡ field_constants p.now names.now (map source_class_of classes.now)) }
{
    let mut constants = static_constants(alloc, p)?;
    for below in 0..greatest_height(p, classes) {
        put_height(alloc, p, names, classes, &mut constants, below + 1)?;
    }
    Ok(constants)
}
