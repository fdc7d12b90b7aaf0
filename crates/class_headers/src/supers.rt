//! The direct super types of a class.

ghost use Rattle.std.specs.Prelude.{◌≡◌, ◌≤◌, ◌^◌, ◌++◌, map, length, IfOk, OnOk};
ghost use Rattle.program_model.specs.Lookups.{optional};
ghost use Rattle.class_names.specs.ClassNames.{rows_in};
ghost use Rattle.class_names.specs.Meanings.{unit_of};
ghost use Rattle.class_order.specs.Declarations.{declaration_of};
ghost use Rattle.class_headers.specs.SuperTypes.{all_direct, all_supers, class_named, declared_supers, direct_of, implied_class, named_class, super_class, super_interfaces, supers_of};

use class_names::{ClassNames, Meaning, Scope, meaning_of};
use class_order::Declared;
use java_syntax::Name;
use program_model::ClassId;
use rlc_base::NoMemory;
use std::alloc::Global;

/// The super types that a class names, or that are implied (JLS 8.1.4, 8.1.5, 9.1.3).
#[derive(Drop)]
pub struct Supers {
    /// The super class; none for `Object`, and for an interface.
    pub super_class: Option<ClassId>,
    /// The interfaces that a class implements or an interface extends, in order.
    pub interfaces: Vec<ClassId>,
    /// It is an interface.
    pub is_interface: bool,
}

fn named_class(meaning: Meaning) -> Option<ClassId>
    ensures { result ≡ named_class meaning }
{
    match meaning {
        Meaning::Named(class) => Some(class),
        Meaning::NoClass => None,
        Meaning::TwoClasses => None,
    }
}

/// The class that a name means in a unit.
pub fn class_named(names: &ClassNames, scope: &Scope, name: &Name) -> Option<ClassId>
    ensures { result ≡ class_named names.now (unit_of scope.now) name.now }
{
    named_class(meaning_of(names, scope, name.text.bytes()))
}

// The super class of a class that names none.
fn implied_class(object: ClassId, class: ClassId, is_interface: bool) -> Option<ClassId>
    ensures { result ≡ implied_class object class is_interface }
{
    if is_interface || class == object {
        None
    } else {
        Some(object)
    }
}

// The super class of the class with this number.
fn super_class(
    names: &ClassNames,
    object: ClassId,
    class: ClassId,
    declared: &Declared,
) -> Option<ClassId>
    ensures { result ≡ super_class names.now object class (declaration_of declared.now) (declaration_of declared.now).class_tree.superclass }
{
    match &declared.declaration.superclass {
        None => implied_class(object, class, declared.declaration.is_interface),
        Some(name) => class_named(names, &declared.scope, name),
    }
}

// Puts the class that a name means at the end.
fn push_named(
    classes: &mut Vec<ClassId>,
    names: &ClassNames,
    scope: &Scope,
    name: &Name,
) -> Result<(), NoMemory>
    ensures { OnOk result (classes.new.items ≡ classes.old.items ++ optional (class_named names.now (unit_of scope.now) name.now)) }
{
    match class_named(names, scope, name) {
        None => Ok(()),
        Some(class) => {
            classes.push(class)?;
            Ok(())
        }
    }
}

/// The classes that names mean in a unit, in order.
pub fn classes_named(
    alloc: Global,
    names: &ClassNames,
    scope: &Scope,
    written: &[Name],
) -> Result<Vec<ClassId>, NoMemory>
    ensures { IfOk result (λ v. v.items ≡ super_interfaces names.now (unit_of scope.now) written.now) }
{
    let mut classes = Vec::new(alloc);
    for name in written {
        push_named(&mut classes, names, scope, name)?;
    }
    Ok(classes)
}

// The super types of the class with this number.
fn declared_supers(
    alloc: Global,
    names: &ClassNames,
    object: ClassId,
    class: ClassId,
    declared: &Declared,
) -> Result<Supers, NoMemory>
    ensures { IfOk result (λ s. supers_of s ≡ declared_supers names.now object class (declaration_of declared.now)) }
{
    let interfaces = classes_named(
        alloc,
        names,
        &declared.scope,
        &declared.declaration.interfaces,
    )?;
    Ok(Supers {
        super_class: super_class(names, object, class, declared),
        interfaces,
        is_interface: declared.declaration.is_interface,
    })
}

/// The super types of all classes, in class order.
pub fn all_supers(
    alloc: Global,
    names: &ClassNames,
    object: ClassId,
    order: &[Declared],
) -> Result<Vec<Supers>, NoMemory>
    requires { length order.now ≤ 2 ^ 32 }
    ensures { IfOk result (λ v. map supers_of v.items ≡ all_supers names.now object (map declaration_of order.now)) }
{
    let mut all = Vec::new(alloc);
    for (i, declared) in order.iter().enumerate() {
        let class = ClassId(i as u32);
        all.push(declared_supers(alloc, names, object, class, declared)?)?;
    }
    Ok(all)
}

// What stands right above a class (JLS 4.10.2).
fn direct_of(alloc: Global, object: ClassId, supers: &Supers) -> Result<Vec<ClassId>, NoMemory>
    ensures { IfOk result (λ v. v.items ≡ direct_of object (supers_of supers.now)) }
{
    let mut direct = Vec::new(alloc);
    if let Some(class) = supers.super_class {
        direct.push(class)?;
    }
    direct.extend_from_slice(&supers.interfaces)?;
    if supers.is_interface {
        direct.push(object)?;
    }
    Ok(direct)
}

/// What stands right above each class, in class order.
pub fn all_direct(
    alloc: Global,
    object: ClassId,
    supers: &[Supers],
) -> Result<Vec<Vec<ClassId>>, NoMemory>
    ensures { IfOk result (λ v. rows_in v.items ≡ all_direct object (map supers_of supers.now)) }
{
    let mut all = Vec::new(alloc);
    for one in supers {
        all.push(direct_of(alloc, object, one)?)?;
    }
    Ok(all)
}
