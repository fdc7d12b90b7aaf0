//! The fields of a class by name.

ghost use Rattle.std.specs.Prelude.{◌≡◌, find, IfOk};
ghost use Rattle.program_model.specs.Lookups.{class_at, field_at, method_at};
ghost use Rattle.class_members.specs.Members.{constant_from, declared_constant, declared_field, declared_member, declares_field, field_from, field_named, is_constant_by, is_field_by, is_private_field, is_private_method};

use crate::classes::super_classes;
use crate::methods::is_accessible;
use program_model::{ClassId, FieldId, MethodId, MethodKind, Program};
use rlc_base::NoMemory;
use std::alloc::Global;

/// A field that a name means.
#[derive(Clone, Copy, Debug, PartialEq, Eq)]
pub enum FieldMember {
    /// A field of a program class.
    Field(FieldId),
    /// A static final field of class type of a stub.
    Constant(MethodId),
}

fn is_field_by(p: &Program, name: &[u8], field: FieldId) -> bool
    ensures { result ≡ is_field_by name.now (field_at p.now field) }
{
    match p.field(field) {
        None => false,
        Some(found) => found.name.bytes() == name,
    }
}

fn field_among(p: &Program, name: &[u8], fields: &[FieldId]) -> Option<FieldId>
    ensures { result ≡ find (λ f. is_field_by name.now (field_at p.now f)) fields.now }
{
    fields.iter().copied().find(|f| is_field_by(p, name, *f))
}

fn declared_field(p: &Program, name: &[u8], class: ClassId) -> Option<FieldId>
    ensures { result ≡ declared_field p.now name.now class }
{
    match p.class(class) {
        None => None,
        Some(found) => field_among(p, name, &found.fields),
    }
}

fn is_constant_by(p: &Program, name: &[u8], method: MethodId) -> bool
    ensures { result ≡ is_constant_by name.now (method_at p.now method) }
{
    match p.method(method) {
        None => false,
        Some(found) => { matches!(found.kind, MethodKind::Constant) && found.name.bytes() == name }
    }
}

fn constant_among(p: &Program, name: &[u8], methods: &[MethodId]) -> Option<MethodId>
    ensures { result ≡ find (λ m. is_constant_by name.now (method_at p.now m)) methods.now }
{
    methods
        .iter()
        .copied()
        .find(|m| is_constant_by(p, name, *m))
}

fn declared_constant(p: &Program, name: &[u8], class: ClassId) -> Option<MethodId>
    ensures { result ≡ declared_constant p.now name.now class }
{
    match p.class(class) {
        None => None,
        Some(found) => constant_among(p, name, &found.methods),
    }
}

fn declares_field(p: &Program, name: &[u8], class: ClassId) -> bool
    ensures { result ≡ declares_field p.now name.now class }
{
    match declared_field(p, name, class) {
        Some(_) => true,
        None => declared_constant(p, name, class).is_some(),
    }
}

fn nearest(p: &Program, name: &[u8], classes: &[ClassId]) -> Option<ClassId>
    ensures { result ≡ find (declares_field p.now name.now) classes.now }
{
    classes
        .iter()
        .copied()
        .find(|c| declares_field(p, name, *c))
}

fn is_private_field(p: &Program, field: FieldId) -> bool
    ensures { result ≡ is_private_field (field_at p.now field) }
{
    match p.field(field) {
        None => false,
        Some(found) => found.is_private,
    }
}

fn is_private_method(p: &Program, method: MethodId) -> bool
    ensures { result ≡ is_private_method (method_at p.now method) }
{
    match p.method(method) {
        None => false,
        Some(found) => found.is_private,
    }
}

fn field_from(
    p: &Program,
    from: ClassId,
    class: ClassId,
    declaring: ClassId,
    field: FieldId,
) -> Option<FieldMember>
    ensures { result ≡ field_from p.now from class declaring (Some field) }
{
    if is_accessible(from, class, declaring, is_private_field(p, field)) {
        Some(FieldMember::Field(field))
    } else {
        None
    }
}

fn constant_from(
    p: &Program,
    from: ClassId,
    class: ClassId,
    declaring: ClassId,
    constant: Option<MethodId>,
) -> Option<FieldMember>
    ensures { result ≡ constant_from p.now from class declaring constant }
{
    match constant {
        None => None,
        Some(method) => {
            if is_accessible(from, class, declaring, is_private_method(p, method)) {
                Some(FieldMember::Constant(method))
            } else {
                None
            }
        }
    }
}

fn declared_member(
    p: &Program,
    from: ClassId,
    class: ClassId,
    declaring: ClassId,
    name: &[u8],
) -> Option<FieldMember>
    ensures { result ≡ declared_member p.now from class declaring (declared_field p.now name.now declaring) (declared_constant p.now name.now declaring) }
{
    match declared_field(p, name, declaring) {
        Some(field) => field_from(p, from, class, declaring, field),
        None => constant_from(
            p,
            from,
            class,
            declaring,
            declared_constant(p, name, declaring),
        ),
    }
}

/// The field of the name that is a member of the class (JLS 8.2, 8.3), as the bodies of `from` find it: that of the nearest
/// class which declares one. None where no class does, and where that one is private and the bodies of `from` have no
/// access to it, or find it through another class: it still hides those above it.
pub fn field_named(
    alloc: Global,
    p: &Program,
    from: ClassId,
    class: ClassId,
    name: &[u8],
) -> Result<Option<FieldMember>, NoMemory>
    ensures { IfOk result (λ x. x ≡ field_named p.now from class name.now) }
{
    let classes = super_classes(alloc, p, class)?;
    match nearest(p, name, &classes) {
        None => Ok(None),
        Some(declaring) => Ok(declared_member(p, from, class, declaring, name)),
    }
}
