//! The checked exceptions of calls and of instance creations, which must be caught or declared (JLS 11.2).

ghost use Rattle.std.specs.Prelude.{◌≡◌, ◌++◌, OnOk};
ghost use Rattle.std.specs.List.{list_any};
ghost use Rattle.java_typed_trees.specs.Exceptions.{classes_thrown, is_checked, is_covered, is_undeclared, thrown_by, undeclared_cases};

use crate::shapes::Shape;
use program_model::{ClassId, MethodId, Program, under};
use rlc_base::{Code, NoMemory, Pos, Refusal};

/// Whether the class is one of checked exceptions (JLS 11.1.1).
pub fn is_checked(p: &Program, class: ClassId) -> bool
    ensures { result ≡ is_checked p.now class }
{
    under(p, class, p.core.throwable)
        && !under(p, class, p.core.runtime_exception)
        && !under(p, class, p.core.error)
}

fn is_covered(p: &Program, covered: &[ClassId], class: ClassId) -> bool
    ensures { result ≡ is_covered p.now covered.now class }
{
    covered.iter().any(|other| under(p, class, *other))
}

/// Whether the class is one of checked exceptions, and neither it nor one above it is caught or declared.
pub fn is_undeclared(p: &Program, covered: &[ClassId], class: ClassId) -> bool
    ensures { result ≡ is_undeclared p.now covered.now class }
{
    is_checked(p, class) && !is_covered(p, covered, class)
}

/// The throws clause of a method or constructor.
pub fn thrown_by(p: &Program, method: MethodId) -> &[ClassId]
    ensures { result.now ≡ thrown_by p.now method }
{
    match p.method(method) {
        None => &[],
        Some(found) => &found.sig.throws,
    }
}

fn is_some_undeclared(p: &Program, covered: &[ClassId], thrown: &[ClassId]) -> bool
    ensures { result ≡ list_any (λ c. is_undeclared p.now covered.now c) thrown.now }
{
    thrown.iter().any(|class| is_undeclared(p, covered, *class))
}

/// Counts the refusal at a place where these classes may be thrown: that one of them is neither caught nor declared.
pub fn count_undeclared(
    p: &Program,
    covered: &[ClassId],
    thrown: &[ClassId],
    pos: Pos,
    refusals: &mut Vec<Refusal>,
) -> Result<(), NoMemory>
    ensures { OnOk result (refusals.new.items ≡ refusals.old.items ++ undeclared_cases p.now covered.now thrown.now pos) }
{
    if is_some_undeclared(p, covered, thrown) {
        let code = Code::UndeclaredException;
        refusals.push(Refusal { code, pos })?;
    }
    Ok(())
}

/// The classes that an expression of the shape may throw by a throws clause (JLS 11.2.1), without those of its parts.
pub fn classes_thrown(p: &Program, shape: Shape) -> &[ClassId]
    ensures { result.now ≡ classes_thrown p.now shape }
{
    match shape {
        Shape::Call(_, method) => thrown_by(p, method),
        Shape::NewObject(_, constructor) => thrown_by(p, constructor),
        _ => &[],
    }
}
