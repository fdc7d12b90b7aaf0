//! The methods, constructors and constants of classes as they are written.

ghost use Rattle.std.specs.Prelude.{◌≡◌, ◌≤◌, ◌^◌, ◌++◌, map, length, IfOk, OnOk};
ghost use Rattle.std.specs.List.{list_any};
ghost use Rattle.class_order.specs.Declarations.{declaration_of};
ghost use Rattle.class_declarations.specs.Members.{constants_among, constants_of, implied_constructor, is_class_type, is_constant, is_constructor, methods_from, methods_of, methods_written, needs_constructor, written_by, written_by_all, written_in, written_method_of, written_of};

use crate::method_tree::MethodTree;
use class_names::{ClassNames, written_type};
use class_order::{Declared, has_final, has_static};
use java_syntax::{FieldDecl, Member, Variable};
use program_model::{ClassId, VType};
use rlc_base::NoMemory;
use std::alloc::Global;

/// What a class has as a method: a method, a constructor or a constant, as it is written.
#[derive(Clone, Copy)]
pub struct DeclaredMethod<'d, 'u> {
    /// The number of its class.
    pub class: ClassId,
    /// Its class.
    pub declared: Declared<'d, 'u>,
    /// What is written of it.
    pub tree: MethodTree<'d>,
}

/// Whether a type is that of a class other than `String` (JLS 4.3).
pub fn is_class_type(vtype: Option<VType>) -> bool
    ensures { result ≡ is_class_type vtype }
{
    matches!(vtype, Some(VType::Obj(_)))
}

/// Whether fields are static and final and of a class type other than `String`: in a stub such fields are constants.
pub fn is_constant(names: &ClassNames, declared: &Declared, declaration: &FieldDecl) -> bool
    ensures { result ≡ is_constant names.now (declaration_of declared.now) declaration.now }
{
    has_static(&declaration.modifiers)
        && has_final(&declaration.modifiers)
        && is_class_type(written_type(names, &declared.scope, &declaration.typ))
}

// Puts the fields of one declaration at the end, as constants.
fn push_constants<'d>(
    all: &mut Vec<MethodTree<'d>>,
    declaration: &'d FieldDecl,
) -> Result<(), NoMemory>
    ensures { OnOk result (map written_of all.new.items ≡ map written_of all.old.items ++ constants_among declaration.now declaration.now.variables.items) }
{
    for variable in &declaration.variables {
        all.push(MethodTree::Constant(declaration, variable))?;
    }
    Ok(())
}

// Puts the constants of a declaration of fields at the end.
fn push_fields<'d>(
    all: &mut Vec<MethodTree<'d>>,
    names: &ClassNames,
    declared: &Declared,
    declaration: &'d FieldDecl,
) -> Result<(), NoMemory>
    ensures { OnOk result (map written_of all.new.items ≡ map written_of all.old.items ++ constants_of names.now (declaration_of declared.now) declaration.now) }
{
    if declared.scope.library && is_constant(names, declared, declaration) {
        push_constants(all, declaration)
    } else {
        Ok(())
    }
}

// Puts what a member declares at the end.
fn push_member<'d>(
    all: &mut Vec<MethodTree<'d>>,
    names: &ClassNames,
    declared: &Declared,
    member: &'d Member,
) -> Result<(), NoMemory>
    ensures { OnOk result (map written_of all.new.items ≡ map written_of all.old.items ++ written_by names.now (declaration_of declared.now) member.now) }
{
    match member {
        Member::Field(declaration) => push_fields(all, names, declared, declaration),
        Member::Method(method) => {
            all.push(MethodTree::Method(method))?;
            Ok(())
        }
        Member::Constructor(constructor) => {
            all.push(MethodTree::Constructor(constructor))?;
            Ok(())
        }
    }
}

fn is_constructor(member: &Member) -> bool
    ensures { result ≡ is_constructor member.now }
{
    matches!(member, Member::Constructor(_))
}

// Whether one of the members is a constructor.
fn has_constructor(members: &[Member]) -> bool
    ensures { result ≡ list_any is_constructor members.now }
{
    members.iter().any(|m| is_constructor(m))
}

// Whether the class has a constructor that is not written.
fn needs_constructor(declared: &Declared) -> bool
    ensures { result ≡ needs_constructor (declaration_of declared.now) }
{
    !(declared.declaration.is_interface || has_constructor(&declared.declaration.members))
}

// Puts the constructor that is not written at the end, where the class has it.
fn push_implied(all: &mut Vec<MethodTree>, declared: &Declared) -> Result<(), NoMemory>
    ensures { OnOk result (map written_of all.new.items ≡ map written_of all.old.items ++ implied_constructor (declaration_of declared.now)) }
{
    if needs_constructor(declared) {
        all.push(MethodTree::ImpliedConstructor(declared.declaration.name.pos))?;
    }
    Ok(())
}

// Puts what members declare at the end.
fn push_members<'d>(
    all: &mut Vec<MethodTree<'d>>,
    names: &ClassNames,
    declared: &Declared,
    members: &'d [Member],
) -> Result<(), NoMemory>
    ensures { OnOk result (map written_of all.new.items ≡ map written_of all.old.items ++ written_by_all names.now (declaration_of declared.now) members.now) }
{
    for member in members {
        push_member(all, names, declared, member)?;
    }
    Ok(())
}

/// What a class has as methods, in the order of the text: the constructor of a class that declares none stands first. A class of a
/// stub has its constants too.
pub fn written_in<'d>(
    alloc: Global,
    names: &ClassNames,
    declared: &Declared<'d, '_>,
) -> Result<Vec<MethodTree<'d>>, NoMemory>
    ensures { IfOk result (λ v. map written_of v.items ≡ written_in names.now (declaration_of declared.now)) }
{
    let mut all = Vec::new(alloc);
    push_implied(&mut all, declared)?;
    push_members(&mut all, names, declared, &declared.declaration.members)?;
    Ok(all)
}

// Puts what the class with this number has as methods at the end.
fn push_methods<'d, 'u>(
    all: &mut Vec<DeclaredMethod<'d, 'u>>,
    class: ClassId,
    declared: &Declared<'d, 'u>,
    trees: &[MethodTree<'d>],
) -> Result<(), NoMemory>
    ensures { OnOk result (map written_method_of all.new.items ≡ map written_method_of all.old.items ++ methods_written class (declaration_of declared.now) (map written_of trees.now)) }
{
    for tree in trees {
        all.push(DeclaredMethod {
            class,
            declared: *declared,
            tree: *tree,
        })?;
    }
    Ok(())
}

/// What all classes have as methods, in class order, and that of each as the text has it.
pub fn all_methods<'d, 'u>(
    alloc: Global,
    names: &ClassNames,
    order: &[Declared<'d, 'u>],
) -> Result<Vec<DeclaredMethod<'d, 'u>>, NoMemory>
    requires { length order.now ≤ 2 ^ 32 }
    ensures { IfOk result (λ v. map written_method_of v.items ≡ methods_from 0 names.now (map declaration_of order.now)) }
{
    let mut all = Vec::new(alloc);
    for (i, declared) in order.iter().enumerate() {
        let trees = written_in(alloc, names, declared)?;
        push_methods(&mut all, ClassId(i as u32), declared, &trees)?;
    }
    Ok(all)
}
