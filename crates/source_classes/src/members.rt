//! The members of the classes of the source files: what the table has of them, beside what is written.

ghost use Rattle.std.specs.Prelude.{◌≡◌, map, IfOk};
ghost use Rattle.program_model.specs.Lookups.{class_at};
ghost use Rattle.program_model.specs.Overrides.{methods_of};
ghost use Rattle.java_statement_rules.specs.Members.{fields_in};
ghost use Rattle.source_classes.specs.Members.{environment_in, fields_beside, methods_beside, numbered_field_of, numbered_fields, numbered_method_of, numbered_methods};
ghost use Rattle.source_classes.specs.SourceClasses.{source_class_of};

use crate::classes::DeclaredClass;
use crate::scope::ProgramScope;
use class_declarations::{DeclaredField, MethodTree, all_fields, written_in};
use program_model::{ClassId, FieldId, MethodId, Program};
use rlc_base::NoMemory;
use std::alloc::Global;

/// A field of a class of a source file, with its number.
#[derive(Clone, Copy)]
pub struct NumberedField<'d, 'u> {
    /// Its number.
    pub field: FieldId,
    /// What is written of it.
    pub declared: DeclaredField<'d, 'u>,
}

/// A method or constructor of a class of a source file, with its number.
#[derive(Clone, Copy)]
pub struct NumberedMethod<'d> {
    /// Its number.
    pub method: MethodId,
    /// What is written of it.
    pub tree: MethodTree<'d>,
}

// The numbers of the fields that the table has of a class.
fn field_numbers(p: &Program, class: ClassId) -> &[FieldId]
    ensures { result.now ≡ fields_in (class_at p.now class) }
{
    match p.class(class) {
        None => &[],
        Some(found) => &found.fields,
    }
}

// The numbers of the methods that the table has of a class.
fn method_numbers(p: &Program, class: ClassId) -> &[MethodId]
    ensures { result.now ≡ methods_of p.now class }
{
    match p.class(class) {
        None => &[],
        Some(found) => &found.methods,
    }
}

/// The fields of a class, each with its number, in the order of the text.
pub fn numbered_fields<'d, 'u>(
    alloc: Global,
    p: &Program,
    class: &DeclaredClass<'d, 'u>,
) -> Result<Vec<NumberedField<'d, 'u>>, NoMemory>
    ensures { IfOk result (λ v. map numbered_field_of v.items ≡ numbered_fields p.now (source_class_of class.now)) }
{
    let written = all_fields(alloc, &[class.declared])?;
    let numbers = field_numbers(p, class.class);
    let all = fields_beside(alloc, class.class, numbers, &written)?;
    Ok(all)
}

/// The methods and constructors of a class, each with its number, in the order of the text. The constructor of a class that
/// declares none is among them (JLS 8.8.9).
pub fn numbered_methods<'d>(
    alloc: Global,
    scope: &ProgramScope,
    class: &DeclaredClass<'d, '_>,
) -> Result<Vec<NumberedMethod<'d>>, NoMemory>
    ensures { IfOk result (λ v. map numbered_method_of v.items ≡ numbered_methods (environment_in scope.now) (source_class_of class.now)) }
{
    let written = written_in(alloc, scope.names, &class.declared)?;
    let numbers = method_numbers(scope.program, class.class);
    let all = methods_beside(alloc, numbers, &written)?;
    Ok(all)
}

// Each field beside its number, as one of the class with this number.
fn fields_beside<'d, 'u>(
    alloc: Global,
    class: ClassId,
    numbers: &[FieldId],
    written: &[DeclaredField<'d, 'u>],
) -> Result<Vec<NumberedField<'d, 'u>>, NoMemory>
    ensures { IfOk result (λ v. v.items ≡ fields_beside class numbers.now written.now) }
{
    Ok(
        numbers
            .iter()
            .zip(written)
            .map(|x| NumberedField {
                field: *x.0,
                declared: DeclaredField { class, ..*x.1 },
            })
            .collect(alloc)?,
    )
}

// Each method beside its number.
fn methods_beside<'d>(
    alloc: Global,
    numbers: &[MethodId],
    written: &[MethodTree<'d>],
) -> Result<Vec<NumberedMethod<'d>>, NoMemory>
    ensures { IfOk result (λ v. v.items ≡ methods_beside numbers.now written.now) }
{
    Ok(
        numbers
            .iter()
            .zip(written)
            .map(|x| NumberedMethod {
                method: *x.0,
                tree: *x.1,
            })
            .collect(alloc)?,
    )
}
