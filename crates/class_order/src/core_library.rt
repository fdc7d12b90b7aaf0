//! The classes of `java.lang` that the language itself names.

ghost use Rattle.std.specs.Prelude.{◌≡◌, Some, None, IfOk, IfErr};
ghost use Rattle.class_names.specs.ClassNames.{class_of_name};
ghost use Rattle.program_model.specs.declared.program.CoreClasses.{CoreClasses};
ghost use Rattle.class_order.specs.Core.{AreCore, AreRoots, AreThrown, core_missing};
ghost use Rattle.class_order.specs.declared.core_library.Roots.{Roots};
ghost use Rattle.class_order.specs.declared.core_library.OperatorExceptions.{OperatorExceptions};

use class_names::ClassNames;
use program_model::{ClassId, CoreClasses};
use rlc_base::{Code, Pos, Refusal};

// The class with this qualified name, or the refusal of a core library that lacks it.
fn core_class(names: &ClassNames, name: &[u8]) -> Result<ClassId, Refusal>
    ensures found { IfOk result (λ c. class_of_name names.now name.now ≡ Some c) }
    ensures missing { IfErr result (λ r. (class_of_name names.now name.now ≡ None) × (r ≡ core_missing)) }
{
    match names.find(name) {
        Some(class) => Ok(class),
        None => Err(Refusal {
            code: Code::UnknownType,
            pos: Pos {
                file: 0,
                line: 0,
                col: 0,
            },
        }),
    }
}

// The roots of the classes and of the exceptions.
#[derive(Clone, Copy)]
pub struct Roots {
    pub object: ClassId,
    pub string: ClassId,
    pub throwable: ClassId,
    pub error: ClassId,
    pub runtime: ClassId,
}

// The exceptions that operators throw.
#[derive(Clone, Copy)]
pub struct OperatorExceptions {
    pub arithmetic: ClassId,
    pub array_index: ClassId,
    pub class_cast: ClassId,
    pub negative_array_size: ClassId,
    pub null_pointer: ClassId,
}

fn root_classes(names: &ClassNames) -> Result<Roots, Refusal>
    ensures roots { IfOk result (λ k. AreRoots names.now k) }
    ensures missing { IfErr result (λ r. (r ≡ core_missing) × ((k : Roots) → AreRoots names.now k → ⊥)) }
{
    Ok(Roots {
        object: core_class(names, b"java.lang.Object")?,
        string: core_class(names, b"java.lang.String")?,
        throwable: core_class(names, b"java.lang.Throwable")?,
        error: core_class(names, b"java.lang.Error")?,
        runtime: core_class(names, b"java.lang.RuntimeException")?,
    })
}

fn operator_exceptions(names: &ClassNames) -> Result<OperatorExceptions, Refusal>
    ensures thrown { IfOk result (λ k. AreThrown names.now k) }
    ensures missing { IfErr result (λ r. (r ≡ core_missing) × ((k : OperatorExceptions) → AreThrown names.now k → ⊥)) }
{
    Ok(OperatorExceptions {
        arithmetic: core_class(names, b"java.lang.ArithmeticException")?,
        array_index: core_class(names, b"java.lang.ArrayIndexOutOfBoundsException")?,
        class_cast: core_class(names, b"java.lang.ClassCastException")?,
        negative_array_size: core_class(names, b"java.lang.NegativeArraySizeException")?,
        null_pointer: core_class(names, b"java.lang.NullPointerException")?,
    })
}

/// The classes of `java.lang` that the language itself names (JLS 4.3.2, 11.1.1, 15.6).
///
/// # Errors
///
/// Code 31, with no place in the core library's file, where one of them is not declared.
pub fn core_classes(names: &ClassNames) -> Result<CoreClasses, Refusal>
    ensures core { IfOk result (λ k. AreCore names.now k) }
    ensures missing { IfErr result (λ r. (r ≡ core_missing) × ((k : CoreClasses) → AreCore names.now k → ⊥)) }
{
    match root_classes(names) {
        Err(missing) => Err(missing),
        Ok(roots) => match operator_exceptions(names) {
            Err(missing) => Err(missing),
            Ok(thrown) => Ok(CoreClasses {
                object: roots.object,
                string: roots.string,
                throwable: roots.throwable,
                error: roots.error,
                runtime_exception: roots.runtime,
                arithmetic_exception: thrown.arithmetic,
                array_index_exception: thrown.array_index,
                class_cast_exception: thrown.class_cast,
                negative_array_size_exception: thrown.negative_array_size,
                null_pointer_exception: thrown.null_pointer,
            }),
        },
    }
}
