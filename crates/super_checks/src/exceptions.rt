//! The exceptions of the core library.

ghost use Rattle.std.specs.Prelude.{◌≡◌, ◌↔◌, ◌&&◌, All, length, IsTrue, IfOk};
ghost use Rattle.class_names.specs.ClassNames.{rows_in};
ghost use Rattle.class_order.specs.Core.{AreCore};
ghost use Rattle.class_headers.specs.SuperTypes.{AreKnown};
ghost use Rattle.super_checks.specs.SuperCases.{HasExceptions};
ghost use Rattle.super_checks.specs.Readiness.{IsPairUnder, IsPairWithin};

use class_headers::{clear_marks, is_under};
use class_names::ClassNames;
use program_model::{ClassId, CoreClasses};
use rlc_base::NoMemory;
use std::alloc::Global;

/// A class and one that it has to stand under.
#[derive(Clone, Copy)]
pub struct Pair {
    pub lower: ClassId,
    pub upper: ClassId,
}

/// Whether both hold.
pub(crate) fn both(first: bool, second: bool) -> bool
    ensures { result ≡ (first && second) }
{
    first && second
}

// Whether each class stands under the other one of its pair.
fn are_under(alloc: Global, direct: &[Vec<ClassId>], pairs: &[Pair]) -> Result<bool, NoMemory>
    requires known { AreKnown (rows_in direct.now) }
    requires within { All (IsPairWithin (length direct.now)) pairs.now }
    ensures { IfOk result (λ b. IsTrue b ↔ All (IsPairUnder (rows_in direct.now)) pairs.now) }
{
    let mut marks = clear_marks(alloc, direct.len())?;
    let mut all = true;
    for pair in pairs {
        let fits = is_under(alloc, direct, &mut marks, pair.lower, pair.upper)?;
        all = both(all, fits);
    }
    Ok(all)
}

/// Whether the exceptions of the core library stand under each other as the language says (JLS 11.1.1, 15.6).
pub(crate) fn has_exceptions(
    alloc: Global,
    names: &ClassNames,
    direct: &[Vec<ClassId>],
    core: CoreClasses,
) -> Result<bool, NoMemory>
    requires known { AreKnown (rows_in direct.now) }
    requires long { length names.now ≡ length direct.now }
    requires core { AreCore names.now core }
    ensures { IfOk result (λ b. IsTrue b ↔ HasExceptions (rows_in direct.now) core) }
{
    let unchecked = core.runtime_exception;
    let pairs = [
        Pair {
            lower: core.error,
            upper: core.throwable,
        },
        Pair {
            lower: unchecked,
            upper: core.throwable,
        },
        Pair {
            lower: core.arithmetic_exception,
            upper: unchecked,
        },
        Pair {
            lower: core.array_index_exception,
            upper: unchecked,
        },
        Pair {
            lower: core.class_cast_exception,
            upper: unchecked,
        },
        Pair {
            lower: core.negative_array_size_exception,
            upper: unchecked,
        },
        Pair {
            lower: core.null_pointer_exception,
            upper: unchecked,
        },
    ];
    let all = are_under(alloc, direct, &pairs)?;
    Ok(all)
}
