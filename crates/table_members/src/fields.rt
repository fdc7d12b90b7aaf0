//! The fields of the table.

ghost use Rattle.std.specs.Prelude.{◌≡◌, All, IfOk, map};
ghost use Rattle.std.specs.List.{AllZip};
ghost use Rattle.class_names.specs.Meanings.{unit_of};
ghost use Rattle.class_declarations.specs.Members.{written_field_of};
ghost use Rattle.java_annotations.specs.Annotations.{annotation_in, annotations_of, is_annotated};
ghost use Rattle.java_annotations.specs.InitialValues.{written_value};
ghost use Rattle.table_members.specs.Fields.{IsField, IsFirstValue};
ghost use Rattle.table_members.specs.Methods.{IsKnown};

use crate::signatures::known_type;
use annotation_kinds::{AnnotationKind, is_marked};
use class_declarations::DeclaredField;
use class_names::ClassNames;
use class_order::{has_final, has_private, has_static};
use java_annotations::{initial_value, raw_annotations, written_value};
use java_syntax::{Expr, Modifier};
use program_model::{Field, Literal, RawAnno, VType};
use rlc_base::{NoMemory, Text};
use std::alloc::Global;

/// Annotations, with whether `@Owning` is among them.
#[derive(Drop)]
pub struct MarkedAnnotations {
    annos: Vec<RawAnno>,
    owning: bool,
}

// The annotations among these modifiers.
fn annotations_on(alloc: Global, modifiers: &[Modifier]) -> Result<MarkedAnnotations, NoMemory>
    ensures annotations { IfOk result (λ m. map annotation_in m.annos.items ≡ annotations_of modifiers.now) }
    ensures owning { IfOk result (λ m. m.owning ≡ is_annotated AnnotationKind.Owning (annotations_of modifiers.now)) }
{
    let annos = raw_annotations(alloc, modifiers)?;
    let owning = is_marked(AnnotationKind::Owning, &annos);
    Ok(MarkedAnnotations { annos, owning })
}

// The value that a field begins with: that of an instance field is not kept.
fn first_value(is_static: bool, vtype: VType, initializer: &Option<Expr>) -> Option<Literal>
    ensures { IsFirstValue is_static vtype (written_value initializer.now) result }
{
    if is_static {
        initial_value(vtype, written_value(initializer))
    } else {
        None
    }
}

// The field of a declaration.
fn table_field(
    alloc: Global,
    names: &ClassNames,
    written: &DeclaredField,
) -> Result<Field, NoMemory>
    requires { IsKnown names.now (unit_of written.now.declared.scope) written.now.declaration.now.typ }
    ensures { IfOk result (λ x. IsField names.now (written_field_of written.now) x) }
{
    let modifiers = written.declaration.modifiers.as_slice();
    let vtype = known_type(names, &written.declared.scope, &written.declaration.typ);
    let is_static = has_static(modifiers);
    let name = written.variable.name.text.clone()?;
    match annotations_on(alloc, modifiers) {
        Ok(marked) => Ok(Field {
            class: written.class,
            name,
            vtype,
            is_static,
            is_final: has_final(modifiers),
            is_private: has_private(modifiers),
            owning: marked.owning,
            annos: marked.annos,
            pos: written.variable.name.pos,
            initial: first_value(is_static, vtype, &written.variable.initializer),
        }),
        Err(error) => Err(error),
    }
}

/// The fields of the table, by their declarations in the same order, where each name in their types means a class.
///
/// # Errors
///
/// Memory may run out.
pub fn table_fields(
    alloc: Global,
    names: &ClassNames,
    written: &[DeclaredField],
) -> Result<Vec<Field>, NoMemory>
    requires { All (λ w. IsKnown names.now w.declaration.unit w.field.typ) (map written_field_of written.now) }
    ensures { IfOk result (λ v. AllZip (IsField names.now) (map written_field_of written.now) v.items) }
{
    let mut fields = Vec::new(alloc);
    'each: for field in written {
        fields.push(table_field(alloc, names, field)?)?;
    }
    Ok(fields)
}
