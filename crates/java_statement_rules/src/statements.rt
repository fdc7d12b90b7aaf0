//! What is refused of a statement itself, by the facts of its expressions (JLS 14).

ghost use Rattle.std.specs.Prelude.{◌≡◌, ◌++◌, OnOk, Some};
ghost use Rattle.program_model.specs.Lookups.{optional};
ghost use Rattle.program_model.specs.Typing.{class_of};
ghost use Rattle.java_typed_trees.specs.Exceptions.{undeclared_cases};
ghost use Rattle.java_statement_rules.specs.StatementCases.{condition_by, condition_cases, needless_result, plain_return_cases, return_cases, storing_cases, storing_from, throw_by, throw_cases, unless};

use java_conversions::{class_of, is_assignable, is_boolean, is_throwable};
use java_typed_trees::{Facts, count_undeclared, type_of};
use program_model::{ClassId, Program, VType};
use rlc_base::{Code, NoMemory, Pos, Refusal};

/// Counts the refusal of a statement where the condition does not hold.
pub fn count_unless(holds: bool, pos: Pos, refusals: &mut Vec<Refusal>) -> Result<(), NoMemory>
    ensures { OnOk result (refusals.new.items ≡ refusals.old.items ++ unless holds pos) }
{
    if !holds {
        let code = Code::Mismatch;
        refusals.push(Refusal { code, pos })?;
    }
    Ok(())
}

fn count_storing_from(
    p: &Program,
    pos: Pos,
    to: VType,
    e: Facts,
    refusals: &mut Vec<Refusal>,
) -> Result<(), NoMemory>
    ensures { OnOk result (refusals.new.items ≡ refusals.old.items ++ storing_cases p.now pos (Some to) e) }
{
    match type_of(e) {
        None => Ok(()),
        Some(from) => count_unless(is_assignable(p, e.constant, from, to), pos, refusals),
    }
}

/// Counts the refusal of a value that may not be stored in a variable of the type (JLS 5.2), where both have types.
pub fn count_storing(
    p: &Program,
    pos: Pos,
    to: Option<VType>,
    e: Facts,
    refusals: &mut Vec<Refusal>,
) -> Result<(), NoMemory>
    ensures { OnOk result (refusals.new.items ≡ refusals.old.items ++ storing_cases p.now pos to e) }
{
    match to {
        None => Ok(()),
        Some(found) => count_storing_from(p, pos, found, e, refusals),
    }
}

/// Counts the refusal of a condition that is no truth value (JLS 14.9, 14.12, 14.13, 14.14.1).
pub fn count_condition(pos: Pos, e: Facts, refusals: &mut Vec<Refusal>) -> Result<(), NoMemory>
    ensures { OnOk result (refusals.new.items ≡ refusals.old.items ++ condition_cases pos e) }
{
    match type_of(e) {
        None => Ok(()),
        Some(found) => count_unless(is_boolean(found), pos, refusals),
    }
}

/// Counts the refusal of `return;` where a result is to be given (JLS 14.17).
pub fn count_plain_return(
    pos: Pos,
    given: Option<VType>,
    refusals: &mut Vec<Refusal>,
) -> Result<(), NoMemory>
    ensures { OnOk result (refusals.new.items ≡ refusals.old.items ++ plain_return_cases pos given) }
{
    match given {
        None => Ok(()),
        Some(_) => count_unless(false, pos, refusals),
    }
}

fn count_needless(
    pos: Pos,
    vtype: Option<VType>,
    refusals: &mut Vec<Refusal>,
) -> Result<(), NoMemory>
    ensures { OnOk result (refusals.new.items ≡ refusals.old.items ++ needless_result pos vtype) }
{
    match vtype {
        None => Ok(()),
        Some(_) => count_unless(false, pos, refusals),
    }
}

/// Counts the refusal of `return e;` where no result is given, or one of a type in which e may not be stored (JLS 14.17).
pub fn count_return(
    p: &Program,
    pos: Pos,
    given: Option<VType>,
    e: Facts,
    refusals: &mut Vec<Refusal>,
) -> Result<(), NoMemory>
    ensures { OnOk result (refusals.new.items ≡ refusals.old.items ++ return_cases p.now pos given e) }
{
    match given {
        None => count_needless(pos, type_of(e), refusals),
        Some(found) => count_storing_from(p, pos, found, e, refusals),
    }
}

fn count_thrown(
    p: &Program,
    covered: &[ClassId],
    pos: Pos,
    class: Option<ClassId>,
    refusals: &mut Vec<Refusal>,
) -> Result<(), NoMemory>
    ensures { OnOk result (refusals.new.items ≡ refusals.old.items ++ undeclared_cases p.now covered.now (optional class) pos) }
{
    match class {
        None => count_undeclared(p, covered, &[], pos, refusals),
        Some(found) => count_undeclared(p, covered, &[found], pos, refusals),
    }
}

fn count_throw_of(
    p: &Program,
    covered: &[ClassId],
    pos: Pos,
    vtype: VType,
    refusals: &mut Vec<Refusal>,
) -> Result<(), NoMemory>
    ensures { OnOk result (refusals.new.items ≡ refusals.old.items ++ throw_by p.now covered.now pos (Some vtype)) }
{
    if is_throwable(p, vtype) {
        count_thrown(p, covered, pos, class_of(p, vtype), refusals)
    } else {
        count_unless(false, pos, refusals)
    }
}

/// Counts the refusal of `throw e;` where e is neither a Throwable nor `null`, or of a class of checked exceptions that is
/// neither caught nor declared (JLS 11.2.2, 14.18).
pub fn count_throw(
    p: &Program,
    covered: &[ClassId],
    pos: Pos,
    e: Facts,
    refusals: &mut Vec<Refusal>,
) -> Result<(), NoMemory>
    ensures { OnOk result (refusals.new.items ≡ refusals.old.items ++ throw_cases p.now covered.now pos e) }
{
    match type_of(e) {
        None => Ok(()),
        Some(found) => count_throw_of(p, covered, pos, found, refusals),
    }
}
