//! The passes over the classes, and their table.

ghost use Rattle.std.specs.Prelude.{◌≡◌, [], None, map, All, IfErr, IfOk};
ghost use Rattle.class_order.specs.Cases.{IsLeast, double_cases, too_many_cases};
ghost use Rattle.class_order.specs.Core.{AreCore};
ghost use Rattle.class_order.specs.Declarations.{class_names, declaration_of};
ghost use Rattle.class_checks.specs.TypeCases.{IsTypeCase};
ghost use Rattle.table_members.specs.Methods.{HasFewParameters};
ghost use Rattle.class_table.specs.Passes.{AreFit, IsBehindStop, IsBuilt, IsLaterStop, IsMade, IsTableStop, classes_of};
ghost use Rattle.class_table.specs.SuperTables.{AreSupers};

use crate::table::make_table;
use class_checks::{check_types, double_member_refusal};
use class_headers::{SuperTable, cycles, table_of_supers};
use class_names::ClassNames;
use class_order::{Declared, class_order, index_names, too_many_classes};
use java_syntax::{Settings, Unit};
use program_model::{CoreClasses, Program};
use rlc_base::Stop;
use std::alloc::Global;
use super_obligations::super_refusal;

// The passes over classes above themselves, members of one name, and super types.
fn check_members(
    alloc: Global,
    order: &[Declared],
    names: &ClassNames,
    core: CoreClasses,
    supers: &SuperTable,
) -> Result<(), Stop>
    requires names { names.now ≡ class_names (map declaration_of order.now) }
    requires core { AreCore names.now core }
    requires supers { AreSupers (map declaration_of order.now) core supers.now }
    ensures fit { IfOk result (λ _. AreFit (map declaration_of order.now) core) }
    ensures cause { IfErr result (λ stop. IsLaterStop (map declaration_of order.now) core stop) }
{
    match cycles(alloc, order, &supers.direct)? {
        Some(cycle) => Err(Stop::Refused(cycle)),
        None => match double_member_refusal(alloc, names, order)? {
            Some(double) => Err(Stop::Refused(double)),
            None => match super_refusal(alloc, order, names, core, supers)? {
                Some(misplaced) => Err(Stop::Refused(misplaced)),
                None => Ok(()),
            },
        },
    }
}

// The table of classes whose types are known.
fn build_behind_types(
    alloc: Global,
    order: &[Declared],
    names: &ClassNames,
    core: CoreClasses,
    settings: &Settings,
) -> Result<Program, Stop>
    requires names { names.now ≡ class_names (map declaration_of order.now) }
    requires core { AreCore names.now core }
    requires types { IsLeast (IsTypeCase (map declaration_of order.now)) None }
    ensures core { IfOk result (λ p. p.core ≡ core) }
    ensures fit { IfOk result (λ _. AreFit (map declaration_of order.now) core) }
    ensures few { IfOk result (λ _. too_many_cases (map declaration_of order.now) ≡ []) }
    ensures made { IfOk result (λ p. IsMade (map declaration_of order.now) settings.now p) }
    ensures parameters { IfOk result (λ p. All HasFewParameters p.methods.items) }
    ensures cause { IfErr result (λ stop. IsBehindStop (map declaration_of order.now) core stop) }
{
    let supers = table_of_supers(alloc, names, core.object, order)?;
    check_members(alloc, order, names, core, &supers)?;
    match too_many_classes(order) {
        Some(refusal) => Err(Stop::TooMuch(refusal)),
        None => Ok(make_table(alloc, order, names, core, &supers, settings)?),
    }
}

// The table of classes of which no two have one name.
fn build_named(
    alloc: Global,
    order: &[Declared],
    names: &ClassNames,
    settings: &Settings,
) -> Result<Program, Stop>
    requires names { names.now ≡ class_names (map declaration_of order.now) }
    requires single { double_cases (map declaration_of order.now) ≡ [] }
    ensures built { IfOk result (λ p. IsBuilt (map declaration_of order.now) settings.now p) }
    ensures parameters { IfOk result (λ p. All HasFewParameters p.methods.items) }
    ensures cause { IfErr result (λ stop. IsTableStop (map declaration_of order.now) stop) }
{
    match check_types(names, order) {
        Err(refusal) => Err(Stop::Refused(refusal)),
        Ok(core) => build_behind_types(alloc, order, names, core, settings),
    }
}

/// The table of the classes of a program: those of the stubs and of the source files, with their fields, methods, constructors
/// and constants, and without bodies. Must-call sets, effective signatures and names are read into it later.
///
/// # Errors
///
/// Each pass refuses at the least place of its cases, and where it has none the next one does:
/// code 30 at a class whose qualified name an earlier class has (JLS 7.6);
/// code 31 at a type outside of bodies and field initialisers that is none, and with no place for a core library that lacks a
/// class which the language names (JLS 6.5.5);
/// code 32 at a class that stands above itself (JLS 8.1.4, 9.1.3);
/// code 33 at a member of one name, and for methods and constructors of one parameter list, with an earlier one of its class
/// (JLS 8.3, 8.4.2, 8.8.2);
/// code 34 at a class with a super type of a wrong kind (JLS 8.1.4, 8.1.5, 9.1.3), at a program class that extends a class of the
/// library with a must-call set that is not empty, and at a name of a throws clause that is no `Throwable` (JLS 8.4.6); with no
/// place for a core library whose exceptions or class of strings are not as the language says (JLS 4.3.3, 11.1.1, 15.6).
/// `TooMuch` with code 62 at the first class past 4,096. `NoMemory` where memory runs out.
pub fn build_table(
    alloc: Global,
    units: &[Unit],
    stubs: &[Unit],
    settings: &Settings,
) -> Result<Program, Stop>
    ensures built { IfOk result (λ p. IsBuilt (classes_of units.now stubs.now settings.now) settings.now p) }
    ensures parameters { IfOk result (λ p. All HasFewParameters p.methods.items) }
    ensures cause { IfErr result (λ stop. IsTableStop (classes_of units.now stubs.now settings.now) stop) }
{
    let order = class_order(alloc, settings.core, stubs, units)?;
    match index_names(alloc, &order) {
        Err(stop) => Err(stop),
        Ok(names) => build_named(alloc, &order, &names, settings),
    }
}
