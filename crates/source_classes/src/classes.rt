//! The classes of the source files by their numbers.

ghost use Rattle.std.specs.Prelude.{◌≡◌, ◌+◌, length, map, IfOk};
ghost use Rattle.class_names.specs.ClassNames.{class_number};
ghost use Rattle.class_order.specs.Declarations.{declaration_of};
ghost use Rattle.source_classes.specs.SourceClasses.{library_classes, numbered_from, source_class_of, source_classes};

use class_order::{Declared, class_order};
use java_syntax::Unit;
use program_model::{ClassId, Program};
use rlc_base::NoMemory;
use std::alloc::Global;

/// A class of a source file as it is declared, with its number in the table.
#[derive(Clone, Copy)]
pub struct DeclaredClass<'d, 'u> {
    /// Its number.
    pub class: ClassId,
    /// Its declaration, with its unit.
    pub declared: Declared<'d, 'u>,
}

// How many classes of the table the stubs declare.
fn library_count(p: &Program) -> usize
    ensures { result ≡ length (library_classes p.now) }
{
    p.classes.iter().filter(|k| k.library).count()
}

// The number of the class that stands this far behind the class with the number `first`.
fn class_number(first: usize, place: usize) -> Result<ClassId, NoMemory>
    ensures { IfOk result (λ c. c ≡ class_number (first + place)) }
{
    let Some(number) = first.checked_add(place) else {
        return Err(NoMemory);
    };
    match u32::try_from(number) {
        Ok(found) => Ok(ClassId(found)),
        Err(_) => Err(NoMemory),
    }
}

// The classes with their numbers, where the first has the number `first`.
fn numbered_from<'d, 'u>(
    alloc: Global,
    first: usize,
    order: &[Declared<'d, 'u>],
) -> Result<Vec<DeclaredClass<'d, 'u>>, NoMemory>
    ensures { IfOk result (λ v. map source_class_of v.items ≡ numbered_from first (map declaration_of order.now)) }
{
    let mut all = Vec::new(alloc);
    for (i, declared) in order.iter().enumerate() {
        let class = class_number(first, i)?;
        all.push(DeclaredClass {
            class,
            declared: *declared,
        })?;
    }
    Ok(all)
}

/// The classes of the source files in class order, where the table has the classes of the stubs before them.
///
/// # Errors
///
/// Where memory runs out, for which more classes than there are numbers of classes, 2 ^ 32, count too.
pub fn source_classes<'u>(
    alloc: Global,
    p: &Program,
    units: &'u [Unit],
) -> Result<Vec<DeclaredClass<'u, 'u>>, NoMemory>
    ensures { IfOk result (λ v. map source_class_of v.items ≡ source_classes p.now units.now) }
{
    let order = class_order(alloc, false, &[], units)?;
    numbered_from(alloc, library_count(p), &order)
}
