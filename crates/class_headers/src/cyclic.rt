//! Classes above themselves, and the lists of what stands above a class.

ghost use Rattle.std.specs.Prelude.{◌≡◌, ◌↔◌, ◌≤◌, ◌<◌, ◌^◌, ◌++◌, ◌∷◌, [], if◌then◌else◌, length, map, slice_get, IsTrue, IfOk, OnOk};
ghost use Rattle.program_model.specs.SuperTests.{has_class};
ghost use Rattle.class_names.specs.ClassNames.{class_number, rows_in};
ghost use Rattle.class_headers.specs.Cases.{IsCycleAt, IsCycleCase};
ghost use Rattle.class_order.specs.Cases.{IsLeast};
ghost use Rattle.class_headers.specs.Cycles.{closes, marked_classes};
ghost use Rattle.class_order.specs.Declarations.{declaration_of};
ghost use Rattle.class_headers.specs.Search.{AreFound, AreMarked};
ghost use Rattle.class_headers.specs.SuperTypes.{AreKnown, IsAboveItself, IsUnder};

use crate::search::{clear_marks, found_above, right_above};
use class_order::Declared;
use program_model::ClassId;
use refusal_order::{lesser_of, where_true};
use rlc_base::{Code, NoMemory, Refusal};
use std::alloc::Global;

// Whether a class is one of these.
fn has_class(classes: &[ClassId], class: ClassId) -> bool
    ensures { result ≡ has_class classes.now class }
{
    classes.iter().any(|x| *x == class)
}

/// Whether a class is the other or stands under it (JLS 4.10.2), by marks of which none is set, before and after. It takes the
/// time of what the class stands under.
pub fn is_under(
    alloc: Global,
    direct: &[Vec<ClassId>],
    marks: &mut Vec<bool>,
    class: ClassId,
    other: ClassId,
) -> Result<bool, NoMemory>
    requires known { AreKnown (rows_in direct.now) }
    requires within { class.0 < length direct.now }
    requires long { length marks.old.items ≡ length direct.now }
    requires clear { AreMarked [] marks.old.items }
    ensures under { IfOk result (λ b. IsTrue b ↔ IsUnder (rows_in direct.now) class other) }
    ensures clear { OnOk result (AreMarked [] marks.new.items) }
    ensures length { OnOk result (length marks.new.items ≡ length marks.old.items) }
{
    let found = found_above(alloc, direct, marks, class)?;
    Ok(has_class(&found, other))
}

// Whether one of the classes has the class right above it.
fn closes(direct: &[Vec<ClassId>], found: &[ClassId], class: ClassId) -> bool
    ensures { result ≡ closes (rows_in direct.now) found.now class }
{
    found
        .iter()
        .any(|b| has_class(right_above(direct, *b), class))
}

// Whether a class stands above itself, where these are all that it stands under.
fn is_above_itself(direct: &[Vec<ClassId>], found: &[ClassId], class: ClassId) -> bool
    requires { AreFound (rows_in direct.now) class found.now }
    ensures { IsTrue result ↔ IsAboveItself (rows_in direct.now) class }
{
    closes(direct, found, class)
}

// The refusal of a class above itself.
fn cycle_case(
    alloc: Global,
    order: &[Declared],
    direct: &[Vec<ClassId>],
    marks: &mut Vec<bool>,
    number: u32,
) -> Result<Option<Refusal>, NoMemory>
    requires known { AreKnown (rows_in direct.now) }
    requires within { number < length direct.now }
    requires long { length marks.old.items ≡ length direct.now }
    requires clear { AreMarked [] marks.old.items }
    ensures least { IfOk result (λ r. IsLeast (IsCycleAt (rows_in direct.now) (class_number number) (slice_get (map declaration_of order.now) number)) r) }
    ensures clear { OnOk result (AreMarked [] marks.new.items) }
    ensures length { OnOk result (length marks.new.items ≡ length marks.old.items) }
{
    let class = ClassId(number);
    let found = found_above(alloc, direct, marks, class)?;
    let is_cyclic = is_above_itself(direct, &found, class);
    match order.get(number as usize) {
        None => Ok(None),
        Some(declared) => Ok(where_true(
            is_cyclic,
            Code::CyclicSupers,
            declared.declaration.name.pos,
        )),
    }
}

/// The least refusal of classes above themselves (JLS 8.1.4, 9.1.3), code 32 at the class.
pub fn cycles(
    alloc: Global,
    order: &[Declared],
    direct: &[Vec<ClassId>],
) -> Result<Option<Refusal>, NoMemory>
    requires few { length direct.now ≤ 2 ^ 32 }
    requires long { length order.now ≡ length direct.now }
    requires known { AreKnown (rows_in direct.now) }
    ensures { IfOk result (λ r. IsLeast (IsCycleCase (map declaration_of order.now) (rows_in direct.now)) r) }
{
    let mut found = None;
    let mut marks = clear_marks(alloc, direct.len())?;
    for number in 0..direct.len() {
        let own = cycle_case(alloc, order, direct, &mut marks, number as u32)?;
        found = lesser_of(found, own);
    }
    Ok(found)
}

// Puts a class at the end, where it has a mark.
fn push_marked(classes: &mut Vec<ClassId>, marked: bool, number: u32) -> Result<(), NoMemory>
    ensures { OnOk result (classes.new.items ≡ classes.old.items ++ (if marked then class_number number ∷ [] else [])) }
{
    if marked {
        classes.push(ClassId(number))?;
    }
    Ok(())
}

// The classes with a mark, in class order.
pub(crate) fn marked_classes(alloc: Global, marks: &[bool]) -> Result<Vec<ClassId>, NoMemory>
    requires { length marks.now ≤ 2 ^ 32 }
    ensures { IfOk result (λ v. v.items ≡ marked_classes marks.now) }
{
    let mut classes = Vec::new(alloc);
    for number in 0..marks.len() {
        push_marked(&mut classes, marks[number], number as u32)?;
    }
    Ok(classes)
}
