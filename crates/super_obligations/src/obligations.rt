//! Super classes of the library that have obligations.

ghost use Rattle.std.specs.Prelude.{◌≡◌, ◌↔◌, ◌<◌, length, map, slice_get, IsTrue, IfOk, OnOk};
ghost use Rattle.std.specs.List.{list_any, range_with_len};
ghost use Rattle.class_names.specs.ClassNames.{rows_in};
ghost use Rattle.class_order.specs.Cases.{IsAmong, IsLeast};
ghost use Rattle.class_order.specs.Declarations.{declaration_of};
ghost use Rattle.class_headers.specs.SuperTypes.{AreKnown, all_direct, supers_of};
ghost use Rattle.super_checks.specs.Readiness.{AreReady};
ghost use Rattle.super_obligations.specs.Obligations.{HasObligation, IsBurdened, IsObligationAt, IsObligationOf, IsObligationWith, is_candidate, is_library, own_sets, says_name, set_sources};

use crate::own_sets::{own_sets, says_name, set_sources};
use class_headers::{Supers, clear_marks, found_above};
use class_order::Declared;
use program_model::ClassId;
use refusal_order::{lesser_of, where_true};
use rlc_base::{Code, NoMemory, Refusal};
use std::alloc::Global;

/// The classes of a program with their sets.
#[derive(Clone, Copy)]
pub(crate) struct Sets<'o, 's, 'r> {
    /// The set that each class says itself, by whether it has a name.
    pub owns: &'o [Option<bool>],
    /// The super types of each.
    pub supers: &'s [Supers],
    /// The classes whose sets make up that of each.
    pub sources: &'r [Vec<ClassId>],
}

// Whether one of the classes says a set of its own that has a name.
fn any_says_name(owns: &[Option<bool>], found: &[ClassId]) -> bool
    ensures { result ≡ list_any (says_name owns.now) found.now }
{
    found.iter().any(|class| says_name(owns, *class))
}

// Whether the set of a class has a name.
fn has_obligation(
    alloc: Global,
    sets: &Sets,
    marks: &mut Vec<bool>,
    class: ClassId,
) -> Result<bool, NoMemory>
    requires sources { rows_in sets.now.sources.now ≡ set_sources sets.now.owns.now (map supers_of sets.now.supers.now) }
    requires known { AreKnown (rows_in sets.now.sources.now) }
    requires within { class.0 < length sets.now.sources.now }
    requires ready { AreReady (length sets.now.sources.now) marks.old.items }
    ensures has { IfOk result (λ b. IsTrue b ↔ HasObligation sets.now.owns.now (map supers_of sets.now.supers.now) class) }
    ensures ready { OnOk result (AreReady (length sets.now.sources.now) marks.new.items) }
{
    let found = found_above(alloc, sets.sources, marks, class)?;
    Ok(any_says_name(sets.owns, &found))
}

// Whether the class with this number is one of the library.
fn is_library(order: &[Declared], class: ClassId) -> bool
    ensures { result ≡ is_library (map declaration_of order.now) class }
{
    match order.get(class.0 as usize) {
        None => false,
        Some(declared) => declared.scope.library,
    }
}

// Whether a class is one of the program and its super class one of the library.
fn is_candidate(order: &[Declared], class: &Declared, extended: ClassId) -> bool
    ensures { result ≡ is_candidate (map declaration_of order.now) (declaration_of class.now) extended }
{
    !class.scope.library && is_library(order, extended)
}

// The refusal of a class with this super class.
fn obligation_of(
    alloc: Global,
    order: &[Declared],
    sets: &Sets,
    marks: &mut Vec<bool>,
    class: &Declared,
    extended: ClassId,
) -> Result<Option<Refusal>, NoMemory>
    requires sources { rows_in sets.now.sources.now ≡ set_sources sets.now.owns.now (map supers_of sets.now.supers.now) }
    requires known { AreKnown (rows_in sets.now.sources.now) }
    requires long { length order.now ≡ length sets.now.sources.now }
    requires ready { AreReady (length sets.now.sources.now) marks.old.items }
    ensures least { IfOk result (λ r. IsLeast (IsObligationOf (map declaration_of order.now) sets.now.owns.now (map supers_of sets.now.supers.now) (declaration_of class.now) (Some extended)) r) }
    ensures ready { OnOk result (AreReady (length sets.now.sources.now) marks.new.items) }
{
    if is_candidate(order, class, extended) {
        let has = has_obligation(alloc, sets, marks, extended)?;
        Ok(where_true(has, Code::BadSuper, class.declaration.name.pos))
    } else {
        Ok(None)
    }
}

// The refusal of the class with this number.
fn obligation_at(
    alloc: Global,
    order: &[Declared],
    sets: &Sets,
    marks: &mut Vec<bool>,
    number: usize,
) -> Result<Option<Refusal>, NoMemory>
    requires sources { rows_in sets.now.sources.now ≡ set_sources sets.now.owns.now (map supers_of sets.now.supers.now) }
    requires known { AreKnown (rows_in sets.now.sources.now) }
    requires long { length order.now ≡ length sets.now.sources.now }
    requires wide { length order.now ≡ length sets.now.supers.now }
    requires within { number < length order.now }
    requires ready { AreReady (length sets.now.sources.now) marks.old.items }
    ensures least { IfOk result (λ r. IsLeast (IsObligationAt (map declaration_of order.now) sets.now.owns.now (map supers_of sets.now.supers.now) number) r) }
    ensures ready { OnOk result (AreReady (length sets.now.sources.now) marks.new.items) }
{
    let class = &order[number];
    let supers = &sets.supers[number];
    match supers.super_class {
        None => Ok(None),
        Some(extended) => {
            let found = obligation_of(alloc, order, sets, marks, class, extended)?;
            Ok(found)
        }
    }
}

// The least refusal of all classes.
fn obligations_among(
    alloc: Global,
    order: &[Declared],
    sets: &Sets,
) -> Result<Option<Refusal>, NoMemory>
    requires sources { rows_in sets.now.sources.now ≡ set_sources sets.now.owns.now (map supers_of sets.now.supers.now) }
    requires known { AreKnown (rows_in sets.now.sources.now) }
    requires long { length order.now ≡ length sets.now.sources.now }
    requires wide { length order.now ≡ length sets.now.supers.now }
    ensures { IfOk result (λ r. IsLeast (IsAmong (IsObligationAt (map declaration_of order.now) sets.now.owns.now (map supers_of sets.now.supers.now)) (range_with_len 0 (length order.now))) r) }
{
    let mut marks = clear_marks(alloc, sets.sources.len())?;
    let mut found = None;
    for number in 0..order.len() {
        let own = obligation_at(alloc, order, sets, &mut marks, number)?;
        found = lesser_of(found, own);
    }
    Ok(found)
}

/// The least refusal of program classes that extend a class of the library whose must-call set is not empty, code 34 at the
/// class (Checker Framework manual, Must Call Checker).
pub fn obligation_refusal(
    alloc: Global,
    order: &[Declared],
    supers: &[Supers],
    direct: &[Vec<ClassId>],
    object: ClassId,
) -> Result<Option<Refusal>, NoMemory>
    requires direct { rows_in direct.now ≡ all_direct object (map supers_of supers.now) }
    requires known { AreKnown (rows_in direct.now) }
    requires long { length order.now ≡ length direct.now }
    requires wide { length order.now ≡ length supers.now }
    ensures { IfOk result (λ r. IsLeast (IsAmong (IsObligationAt (map declaration_of order.now) (own_sets (map declaration_of order.now)) (map supers_of supers.now)) (range_with_len 0 (length order.now))) r) }
{
    let owns = own_sets(alloc, order)?;
    let said = owns.as_slice();
    let sources = set_sources(alloc, said, supers)?;
    let rows = sources.as_slice();
    let sets = Sets {
        owns: said,
        supers,
        sources: rows,
    };
    let found = obligations_among(alloc, order, &sets)?;
    Ok(found)
}
