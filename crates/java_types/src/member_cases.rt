//! The refusals of classes that are due to their members (JLS 8.1.1.1, 8.4.8).

ghost use Rattle.std.specs.Prelude.{◌≡◌, ◌++◌, IfOk, OnOk, length};
ghost use Rattle.class_overrides.specs.Cases.{class_cases};
ghost use Rattle.class_names.specs.ClassNames.{class_number};
ghost use Rattle.java_types.specs.ProgramCases.{member_cases};

use class_overrides::class_cases;
use program_model::{ClassId, Program};
use rlc_base::{NoMemory, Refusal};
use std::alloc::Global;

// How many classes there are, where each has a number of 32 bits.
fn class_count(p: &Program) -> Result<u32, NoMemory>
    ensures { IfOk result (λ n. n ≡ length p.now.classes.items) }
{
    match u32::try_from(p.classes.len()) {
        Ok(count) => Ok(count),
        Err(_) => Err(NoMemory),
    }
}

// Counts the refusals of the class with this number.
fn count_class(
    alloc: Global,
    p: &Program,
    number: u32,
    refusals: &mut Vec<Refusal>,
) -> Result<(), NoMemory>
    ensures { OnOk result (refusals.new.items ≡ refusals.old.items ++ class_cases p.now (class_number number)) }
{
    let mut found = class_cases(alloc, p, ClassId(number))?;
    refusals.append(&mut found)?;
    Ok(())
}

/// Counts the refusals of all classes: of overriding methods that may not be, and of classes that are not abstract and lack a body
/// for a method.
pub(crate) fn count_members(
    alloc: Global,
    p: &Program,
    refusals: &mut Vec<Refusal>,
) -> Result<(), NoMemory>
    ensures { OnOk result (refusals.new.items ≡ refusals.old.items ++ member_cases p.now) }
{
    for number in 0..class_count(p)? {
        count_class(alloc, p, number, refusals)?;
    }
    Ok(())
}
