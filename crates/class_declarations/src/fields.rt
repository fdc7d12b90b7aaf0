//! The fields of classes as they are written.

ghost use Rattle.std.specs.Prelude.{◌≡◌, ◌≤◌, ◌^◌, ◌++◌, map, length, IfOk, OnOk};
ghost use Rattle.class_order.specs.Declarations.{declaration_of};
ghost use Rattle.class_declarations.specs.Members.{fields_from, fields_of, fields_of_declaration, fields_of_member, fields_of_members, written_field_of};

use class_order::Declared;
use java_syntax::{FieldDecl, Member, Variable};
use program_model::ClassId;
use rlc_base::NoMemory;
use std::alloc::Global;

/// A field of a class (JLS 8.3), as it is written.
#[derive(Clone, Copy)]
pub struct DeclaredField<'d, 'u> {
    /// The number of its class.
    pub class: ClassId,
    /// Its class.
    pub declared: Declared<'d, 'u>,
    /// The declaration of fields in which it stands.
    pub declaration: &'d FieldDecl,
    /// Its name and initialiser.
    pub variable: &'d Variable,
}

// Puts the fields of one declaration at the end.
fn push_declaration<'d, 'u>(
    all: &mut Vec<DeclaredField<'d, 'u>>,
    class: ClassId,
    declared: &Declared<'d, 'u>,
    declaration: &'d FieldDecl,
) -> Result<(), NoMemory>
    ensures { OnOk result (map written_field_of all.new.items ≡ map written_field_of all.old.items ++ fields_of_declaration class (declaration_of declared.now) declaration.now declaration.now.variables.items) }
{
    for variable in &declaration.variables {
        all.push(DeclaredField {
            class,
            declared: *declared,
            declaration,
            variable,
        })?;
    }
    Ok(())
}

// Puts the fields that a member declares at the end.
fn push_member<'d, 'u>(
    all: &mut Vec<DeclaredField<'d, 'u>>,
    class: ClassId,
    declared: &Declared<'d, 'u>,
    member: &'d Member,
) -> Result<(), NoMemory>
    ensures { OnOk result (map written_field_of all.new.items ≡ map written_field_of all.old.items ++ fields_of_member class (declaration_of declared.now) member.now) }
{
    match member {
        Member::Field(declaration) => push_declaration(all, class, declared, declaration),
        Member::Method(_) => Ok(()),
        Member::Constructor(_) => Ok(()),
    }
}

// Puts the fields of members at the end.
fn push_members<'d, 'u>(
    all: &mut Vec<DeclaredField<'d, 'u>>,
    class: ClassId,
    declared: &Declared<'d, 'u>,
    members: &'d [Member],
) -> Result<(), NoMemory>
    ensures { OnOk result (map written_field_of all.new.items ≡ map written_field_of all.old.items ++ fields_of_members class (declaration_of declared.now) members.now) }
{
    for member in members {
        push_member(all, class, declared, member)?;
    }
    Ok(())
}

// Puts the fields of the class with this number at the end.
fn push_fields<'d, 'u>(
    all: &mut Vec<DeclaredField<'d, 'u>>,
    class: ClassId,
    declared: &Declared<'d, 'u>,
) -> Result<(), NoMemory>
    ensures { OnOk result (map written_field_of all.new.items ≡ map written_field_of all.old.items ++ fields_of class (declaration_of declared.now)) }
{
    if declared.scope.library {
        Ok(())
    } else {
        push_members(all, class, declared, &declared.declaration.members)
    }
}

/// The fields of all classes in class order, those of each as the text has them. Classes of stubs have none.
pub fn all_fields<'d, 'u>(
    alloc: Global,
    order: &[Declared<'d, 'u>],
) -> Result<Vec<DeclaredField<'d, 'u>>, NoMemory>
    requires { length order.now ≤ 2 ^ 32 }
    ensures { IfOk result (λ v. map written_field_of v.items ≡ fields_from 0 (map declaration_of order.now)) }
{
    let mut all = Vec::new(alloc);
    for (i, declared) in order.iter().enumerate() {
        push_fields(&mut all, ClassId(i as u32), declared)?;
    }
    Ok(all)
}
