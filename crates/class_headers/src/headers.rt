//! The table of classes by their headers.

ghost use Rattle.std.specs.Prelude.{◌≡◌, ◌≤◌, ◌<◌, ◌^◌, ◌++◌, [], None, length, map, IfOk, OnOk, slice_get};
ghost use Rattle.program_model.specs.Hierarchy.{IsHierarchy};
ghost use Rattle.program_model.specs.Lookups.{optional};
ghost use Rattle.program_model.specs.declared.kinds.ClassId.{ClassId};
ghost use Rattle.program_model.specs.declared.program.Class.{Class};
ghost use Rattle.class_names.specs.ClassNames.{class_number, class_of_name, rows_in};
ghost use Rattle.class_headers.specs.Cases.{IsCycleCase};
ghost use Rattle.class_order.specs.Cases.{IsLeast};
ghost use Rattle.class_order.specs.Declarations.{class_names, declaration_of};
ghost use Rattle.class_headers.specs.Headers.{AllList, ListsAbove, classes_of_names, declared_header, declared_headers, header_of};
ghost use Rattle.class_headers.specs.SuperTypes.{AreKnown, all_direct, all_supers, supers_of};

use crate::cyclic::marked_classes;
use crate::kinds::{is_abstract, is_final};
use crate::search::marks_above;
use crate::super_table::SuperTable;
use crate::supers::Supers;
use class_names::ClassNames;
use class_order::{Declared, name_of};
use java_syntax::Settings;
use program_model::{Class, ClassId, CoreClasses, Program};
use rlc_base::{NameSet, Names, NoMemory, Text};
use std::alloc::Global;

// The class and all that stands above it, in class order.
fn lists_above(
    alloc: Global,
    direct: &[Vec<ClassId>],
    class: ClassId,
) -> Result<Vec<ClassId>, NoMemory>
    requires few { length direct.now ≤ 2 ^ 32 }
    requires known { AreKnown (rows_in direct.now) }
    requires within { class.0 < length direct.now }
    ensures { IfOk result (λ v. ListsAbove (rows_in direct.now) class v.items) }
{
    let marks = marks_above(alloc, direct, class)?;
    let classes = marked_classes(alloc, &marks)?;
    Ok(classes)
}

// A class by its header, with what stands above it.
fn header(
    alloc: Global,
    declared: &Declared,
    supers: &Supers,
    above: Vec<ClassId>,
) -> Result<Class, NoMemory>
    ensures header { IfOk result (λ k. header_of k ≡ declared_header (declaration_of declared.now) (supers_of supers.now)) }
    ensures above { IfOk result (λ k. k.above.items ≡ above.items) }
{
    let name = name_of(alloc, declared)?;
    let faces = supers.interfaces.as_slice().to_vec(alloc)?;
    Ok(Class {
        name: Text::from_bytes(name),
        pos: declared.declaration.name.pos,
        library: declared.scope.library,
        interface: declared.declaration.is_interface,
        is_abstract: declared.declaration.is_interface || is_abstract(declared.declaration),
        is_final: is_final(declared.declaration),
        sup: supers.super_class,
        faces,
        fields: Vec::new(alloc),
        methods: Vec::new(alloc),
        above,
        annos: Vec::new(alloc),
        own_must: None,
        must: NameSet::empty(),
    })
}

// The classes by their headers, in class order.
fn classes_of(alloc: Global, order: &[Declared], table: &SuperTable) -> Result<Vec<Class>, NoMemory>
    requires few { length table.now.direct.items ≤ 2 ^ 32 }
    requires known { AreKnown (rows_in table.now.direct.items) }
    requires long { length order.now ≡ length table.now.direct.items }
    requires wide { length order.now ≡ length table.now.supers.items }
    ensures headers { IfOk result (λ v. map header_of v.items ≡ declared_headers (map declaration_of order.now) (map supers_of table.now.supers.items)) }
    ensures above { IfOk result (λ v. AllList (rows_in table.now.direct.items) v.items) }
{
    let mut all = Vec::new(alloc);
    for number in 0..order.len() {
        let above = lists_above(alloc, &table.direct, ClassId(number as u32))?;
        let class = header(alloc, &order[number], &table.supers[number], above)?;
        all.push(class)?;
    }
    Ok(all)
}

// Puts the class of a name at the end, if there is one.
fn push_found(classes: &mut Vec<ClassId>, names: &ClassNames, name: &Text) -> Result<(), NoMemory>
    ensures { OnOk result (classes.new.items ≡ classes.old.items ++ optional (class_of_name names.now name.now)) }
{
    match names.find(name.bytes()) {
        None => Ok(()),
        Some(class) => {
            classes.push(class)?;
            Ok(())
        }
    }
}

// The classes that names mean. A name that is no class has no effect.
fn classes_of_names(
    alloc: Global,
    names: &ClassNames,
    texts: &[Text],
) -> Result<Vec<ClassId>, NoMemory>
    ensures { IfOk result (λ v. v.items ≡ classes_of_names names.now texts.now) }
{
    let mut classes = Vec::new(alloc);
    for text in texts {
        push_found(&mut classes, names, text)?;
    }
    Ok(classes)
}

/// The table of the classes by their headers, in class order: names, kinds, super types and what stands above each. It has no
/// members, annotations, methods, fields or bodies yet. A class of the settings that is not declared has no effect.
pub fn header_table(
    alloc: Global,
    order: &[Declared],
    names: &ClassNames,
    core: CoreClasses,
    table: &SuperTable,
    settings: &Settings,
) -> Result<Program, NoMemory>
    requires few { length table.now.direct.items ≤ 2 ^ 32 }
    requires supers { map supers_of table.now.supers.items ≡ all_supers names.now core.object (map declaration_of order.now) }
    requires direct { rows_in table.now.direct.items ≡ all_direct core.object (map supers_of table.now.supers.items) }
    requires known { AreKnown (rows_in table.now.direct.items) }
    requires acyclic { IsLeast (IsCycleCase (map declaration_of order.now) (rows_in table.now.direct.items)) None }
    ensures headers { IfOk result (λ p. map header_of p.classes.items ≡ declared_headers (map declaration_of order.now) (map supers_of table.now.supers.items)) }
    ensures core { IfOk result (λ p. p.core ≡ core) }
    ensures ignored { IfOk result (λ p. p.ignored.items ≡ classes_of_names names.now settings.now.ignored.items) }
    ensures exact { IfOk result (λ p. p.exact.items ≡ classes_of_names names.now settings.now.exact.items) }
    ensures above { IfOk result (λ p. AllList (rows_in table.now.direct.items) p.classes.items) }
    ensures hierarchy { IfOk result (λ p. IsHierarchy p) }
{
    let classes = classes_of(alloc, order, table)?;
    let ignored = classes_of_names(alloc, names, &settings.ignored)?;
    let exact = classes_of_names(alloc, names, &settings.exact)?;
    Ok(Program {
        classes,
        methods: Vec::new(alloc),
        fields: Vec::new(alloc),
        bodies: Vec::new(alloc),
        ignored,
        exact,
        names: Names::new(alloc),
        core,
    })
}
