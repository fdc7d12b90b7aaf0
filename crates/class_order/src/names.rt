//! The names of the classes in class order, each its own.

ghost use Rattle.std.specs.Prelude.{◌≡◌, [], map, flat_map, IfOk, IfErr};
ghost use Rattle.refusal_order.specs.Refusals.{least};
ghost use Rattle.class_order.specs.Cases.{IsCause, double_cases, double_case};
ghost use Rattle.class_order.specs.Declarations.{class_name_of, class_names, declaration_of};

use crate::declared::Declared;
use class_names::{ClassName, ClassNames, Indexed};
use refusal_order::lesser_of;
use rlc_base::{Code, NoMemory, Refusal, Stop};
use std::alloc::Global;

// A class by its name.
fn class_name(class: &Declared) -> Result<ClassName, NoMemory>
    ensures { IfOk result (λ k. k ≡ class_name_of (declaration_of class.now)) }
{
    Ok(ClassName {
        package: class.scope.unit.package.clone()?,
        simple: class.declaration.name.text.clone()?,
        unit: class.scope.number,
        library: class.scope.library,
    })
}

// The classes by their names.
fn class_names(alloc: Global, order: &[Declared]) -> Result<Vec<ClassName>, NoMemory>
    ensures { IfOk result (λ v. v.items ≡ class_names (map declaration_of order.now)) }
{
    let mut names = Vec::new(alloc);
    for class in order {
        names.push(class_name(class)?)?;
    }
    Ok(names)
}

// The refusal of a class with this number, whose name an earlier class has.
fn double_case(order: &[Declared], number: usize) -> Option<Refusal>
    ensures { result ≡ least (double_case (map declaration_of order.now) number) }
{
    match order.get(number) {
        None => None,
        Some(class) => Some(Refusal {
            code: Code::DoubleClass,
            pos: class.declaration.name.pos,
        }),
    }
}

// The least of the refusals of these classes.
fn least_double(order: &[Declared], doubles: &[usize]) -> Option<Refusal>
    ensures { result ≡ least (flat_map (double_case (map declaration_of order.now)) doubles.now) }
{
    let mut found = None;
    for number in doubles {
        found = lesser_of(found, double_case(order, *number));
    }
    found
}

/// The index of the classes by their names.
///
/// # Errors
///
/// `Refused` with code 30 where two classes have one qualified name: at the later one, and of several at the least place.
/// `NoMemory` where memory runs out.
pub fn index_names(alloc: Global, order: &[Declared]) -> Result<ClassNames, Stop>
    ensures names { IfOk result (λ names. names ≡ class_names (map declaration_of order.now)) }
    ensures single { IfOk result (λ _. double_cases (map declaration_of order.now) ≡ []) }
    ensures cause { IfErr result (λ stop. IsCause (double_cases (map declaration_of order.now)) stop) }
{
    let names = class_names(alloc, order)?;
    match ClassNames::new(alloc, names)? {
        Indexed::Names(names) => Ok(names),
        Indexed::Doubles(doubles) => match least_double(order, &doubles) {
            None => unreachable!(),
            Some(refusal) => Err(Stop::Refused(refusal)),
        },
    }
}
