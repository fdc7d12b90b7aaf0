//! What the classes of the core library are.

ghost use Rattle.std.specs.Prelude.{◌≡◌, ◌↔◌, length, map, slice_get, IsTrue, IfOk};
ghost use Rattle.class_names.specs.ClassNames.{rows_in};
ghost use Rattle.class_order.specs.Cases.{IsLeast};
ghost use Rattle.class_order.specs.Core.{AreCore};
ghost use Rattle.class_order.specs.Declarations.{declaration_of};
ghost use Rattle.class_headers.specs.SuperTypes.{AreKnown, IsUnder};
ghost use Rattle.super_checks.specs.SuperCases.{AreOfLibrary, HasStringClass, IsCoreLibrary, core_misplaced, is_final_at, is_final_in_library, is_library_at, language_exceptions};

use crate::exceptions::{both, has_exceptions};
use class_headers::{clear_marks, is_final, is_under};
use class_names::ClassNames;
use class_order::Declared;
use program_model::{ClassId, CoreClasses};
use refusal_order::where_true;
use rlc_base::{Code, NoMemory, Pos, Refusal};
use std::alloc::Global;

// Whether a class is a final class of the library.
fn is_final_in_library(class: &Declared) -> bool
    ensures { result ≡ is_final_in_library (declaration_of class.now) }
{
    class.scope.library && (!class.declaration.is_interface && is_final(class.declaration))
}

// Whether the class with this number is a final class of the library.
fn is_final_at(order: &[Declared], class: ClassId) -> bool
    ensures { result ≡ is_final_at (slice_get (map declaration_of order.now) class.0) }
{
    match order.get(class.0 as usize) {
        None => false,
        Some(declared) => is_final_in_library(declared),
    }
}

// Whether the class with this number is one of the library.
fn is_library_at(order: &[Declared], class: ClassId) -> bool
    ensures { result ≡ is_library_at (slice_get (map declaration_of order.now) class.0) }
{
    match order.get(class.0 as usize) {
        None => false,
        Some(declared) => declared.scope.library,
    }
}

// Whether all these classes are of the library.
fn are_library(order: &[Declared], classes: &[ClassId]) -> bool
    ensures { IsTrue result ↔ AreOfLibrary (map declaration_of order.now) classes.now }
{
    let mut all = true;
    for class in classes {
        let fits = is_library_at(order, *class);
        all = both(all, fits);
    }
    all
}

// Whether the exceptions that the language itself throws are classes of the library.
fn has_library_exceptions(order: &[Declared], core: CoreClasses) -> bool
    ensures { IsTrue result ↔ AreOfLibrary (map declaration_of order.now) (language_exceptions core) }
{
    let thrown = [
        core.error,
        core.runtime_exception,
        core.arithmetic_exception,
        core.array_index_exception,
        core.class_cast_exception,
        core.negative_array_size_exception,
        core.null_pointer_exception,
    ];
    are_library(order, &thrown)
}

// Whether the class of strings is one of exceptions.
fn is_exception(
    alloc: Global,
    names: &ClassNames,
    direct: &[Vec<ClassId>],
    core: CoreClasses,
) -> Result<bool, NoMemory>
    requires known { AreKnown (rows_in direct.now) }
    requires long { length names.now ≡ length direct.now }
    requires core { AreCore names.now core }
    ensures { IfOk result (λ b. IsTrue b ↔ IsUnder (rows_in direct.now) core.string core.throwable) }
{
    let _count = names.len();
    let mut marks = clear_marks(alloc, direct.len())?;
    let under = is_under(alloc, direct, &mut marks, core.string, core.throwable)?;
    Ok(under)
}

// Whether the class of strings is as the language says.
fn has_string_class(
    alloc: Global,
    order: &[Declared],
    names: &ClassNames,
    direct: &[Vec<ClassId>],
    core: CoreClasses,
) -> Result<bool, NoMemory>
    requires known { AreKnown (rows_in direct.now) }
    requires long { length names.now ≡ length direct.now }
    requires core { AreCore names.now core }
    ensures { IfOk result (λ b. IsTrue b ↔ HasStringClass (map declaration_of order.now) (rows_in direct.now) core) }
{
    let is_final = is_final_at(order, core.string);
    let is_exception = is_exception(alloc, names, direct, core)?;
    Ok(both(is_final, !is_exception))
}

// Whether the classes of the core library are as the language says.
fn is_core_library(
    alloc: Global,
    order: &[Declared],
    names: &ClassNames,
    direct: &[Vec<ClassId>],
    core: CoreClasses,
) -> Result<bool, NoMemory>
    requires known { AreKnown (rows_in direct.now) }
    requires long { length names.now ≡ length direct.now }
    requires core { AreCore names.now core }
    ensures { IfOk result (λ b. IsTrue b ↔ IsCoreLibrary (map declaration_of order.now) (rows_in direct.now) core) }
{
    let ordered = has_exceptions(alloc, names, direct, core)?;
    let thrown = has_library_exceptions(order, core);
    let exceptions = both(ordered, thrown);
    let object = is_library_at(order, core.object);
    let string = has_string_class(alloc, order, names, direct, core)?;
    let named_classes = both(object, string);
    Ok(both(exceptions, named_classes))
}

/// The refusal of a core library that is not as the language says: its exceptions don't stand under each other so (JLS 11.1.1,
/// 15.6) or are no classes of the library, `Object` is no class of the library (JLS 4.3.2), or `String` is no final class of the
/// library or is one of exceptions (JLS 4.3.3, 8.1.1.2). It is code 34, with no place in its file.
pub fn core_refusal(
    alloc: Global,
    order: &[Declared],
    names: &ClassNames,
    direct: &[Vec<ClassId>],
    core: CoreClasses,
) -> Result<Option<Refusal>, NoMemory>
    requires known { AreKnown (rows_in direct.now) }
    requires long { length names.now ≡ length direct.now }
    requires core { AreCore names.now core }
    ensures { IfOk result (λ r. IsLeast (λ x. (IsCoreLibrary (map declaration_of order.now) (rows_in direct.now) core → ⊥) × (x ≡ core_misplaced)) r) }
{
    let is_right = is_core_library(alloc, order, names, direct, core)?;
    let no_place = Pos {
        file: 0,
        line: 0,
        col: 0,
    };
    Ok(where_true(!is_right, Code::BadSuper, no_place))
}
