//! Throws clauses.

ghost use Rattle.std.specs.Prelude.{◌≡◌, length, map, IfOk, OnOk};
ghost use Rattle.class_names.specs.ClassNames.{rows_in};
ghost use Rattle.class_names.specs.Meanings.{unit_of};
ghost use Rattle.class_order.specs.Cases.{IsAmong, IsLeast};
ghost use Rattle.class_order.specs.Declarations.{declaration_of};
ghost use Rattle.class_headers.specs.SuperTypes.{AreKnown};
ghost use Rattle.class_declarations.specs.Members.{written_of};
ghost use Rattle.super_checks.specs.Readiness.{AreReady};
ghost use Rattle.super_checks.specs.SuperCases.{IsThrowsAt, IsThrowsIn, IsThrowsOf, IsUnfit};

use class_declarations::{MethodTree, written_in};
use class_headers::{class_named, clear_marks, is_under};
use class_names::{ClassNames, Scope};
use class_order::Declared;
use java_syntax::Name;
use program_model::ClassId;
use refusal_order::{lesser_of, where_true};
use rlc_base::{Code, NoMemory, Refusal};
use std::alloc::Global;

/// The classes among which the names of throws clauses are looked up.
#[derive(Clone, Copy)]
pub struct Hierarchy<'n, 'd> {
    /// Their names.
    pub names: &'n ClassNames,
    /// What stands right above each.
    pub direct: &'d [Vec<ClassId>],
    /// `java.lang.Throwable`.
    pub throwable: ClassId,
}

// The refusal of a name of a throws clause.
fn throws_at(
    alloc: Global,
    hierarchy: &Hierarchy,
    marks: &mut Vec<bool>,
    scope: &Scope,
    name: &Name,
) -> Result<Option<Refusal>, NoMemory>
    requires known { AreKnown (rows_in hierarchy.now.direct.now) }
    requires long { length hierarchy.now.names.now ≡ length hierarchy.now.direct.now }
    requires ready { AreReady (length hierarchy.now.direct.now) marks.old.items }
    ensures least { IfOk result (λ r. IsLeast (IsThrowsAt hierarchy.now.names.now (rows_in hierarchy.now.direct.now) hierarchy.now.throwable (unit_of scope.now) name.now) r) }
    ensures ready { OnOk result (AreReady (length hierarchy.now.direct.now) marks.new.items) }
{
    match class_named(hierarchy.names, scope, name) {
        None => Ok(None),
        Some(thrown) => {
            let fits = is_under(alloc, hierarchy.direct, marks, thrown, hierarchy.throwable)?;
            Ok(where_true(!fits, Code::BadSuper, name.pos))
        }
    }
}

// The least refusal of the names of a throws clause.
fn throws_in(
    alloc: Global,
    hierarchy: &Hierarchy,
    marks: &mut Vec<bool>,
    scope: &Scope,
    clause: &[Name],
) -> Result<Option<Refusal>, NoMemory>
    requires known { AreKnown (rows_in hierarchy.now.direct.now) }
    requires long { length hierarchy.now.names.now ≡ length hierarchy.now.direct.now }
    requires ready { AreReady (length hierarchy.now.direct.now) marks.old.items }
    ensures least { IfOk result (λ r. IsLeast (IsAmong (IsThrowsAt hierarchy.now.names.now (rows_in hierarchy.now.direct.now) hierarchy.now.throwable (unit_of scope.now)) clause.now) r) }
    ensures ready { OnOk result (AreReady (length hierarchy.now.direct.now) marks.new.items) }
{
    let mut found = None;
    for name in clause {
        let own = throws_at(alloc, hierarchy, marks, scope, name)?;
        found = lesser_of(found, own);
    }
    Ok(found)
}

// The least refusal of the throws clauses of methods and constructors.
fn throws_among(
    alloc: Global,
    hierarchy: &Hierarchy,
    marks: &mut Vec<bool>,
    scope: &Scope,
    trees: &[MethodTree],
) -> Result<Option<Refusal>, NoMemory>
    requires known { AreKnown (rows_in hierarchy.now.direct.now) }
    requires long { length hierarchy.now.names.now ≡ length hierarchy.now.direct.now }
    requires ready { AreReady (length hierarchy.now.direct.now) marks.old.items }
    ensures least { IfOk result (λ r. IsLeast (IsAmong (IsThrowsIn hierarchy.now.names.now (rows_in hierarchy.now.direct.now) hierarchy.now.throwable (unit_of scope.now)) (map written_of trees.now)) r) }
    ensures ready { OnOk result (AreReady (length hierarchy.now.direct.now) marks.new.items) }
{
    let mut found = None;
    for tree in trees {
        let own = throws_in(alloc, hierarchy, marks, scope, tree.throws())?;
        found = lesser_of(found, own);
    }
    Ok(found)
}

// The least refusal of the throws clauses of a class.
fn throws_of_class(
    alloc: Global,
    hierarchy: &Hierarchy,
    marks: &mut Vec<bool>,
    class: &Declared,
) -> Result<Option<Refusal>, NoMemory>
    requires known { AreKnown (rows_in hierarchy.now.direct.now) }
    requires long { length hierarchy.now.names.now ≡ length hierarchy.now.direct.now }
    requires ready { AreReady (length hierarchy.now.direct.now) marks.old.items }
    ensures least { IfOk result (λ r. IsLeast (IsThrowsOf hierarchy.now.names.now (rows_in hierarchy.now.direct.now) hierarchy.now.throwable (declaration_of class.now)) r) }
    ensures ready { OnOk result (AreReady (length hierarchy.now.direct.now) marks.new.items) }
{
    let trees = written_in(alloc, hierarchy.names, class)?;
    throws_among(alloc, hierarchy, marks, &class.scope, &trees)
}

/// The least refusal of throws clauses, code 34 at the name: one that means a class that is not under `Throwable`.
pub fn throws_refusal(
    alloc: Global,
    hierarchy: &Hierarchy,
    order: &[Declared],
) -> Result<Option<Refusal>, NoMemory>
    requires known { AreKnown (rows_in hierarchy.now.direct.now) }
    requires long { length hierarchy.now.names.now ≡ length hierarchy.now.direct.now }
    ensures { IfOk result (λ r. IsLeast (IsAmong (IsThrowsOf hierarchy.now.names.now (rows_in hierarchy.now.direct.now) hierarchy.now.throwable) (map declaration_of order.now)) r) }
{
    let mut marks = clear_marks(alloc, hierarchy.direct.len())?;
    let mut found = None;
    for class in order {
        let own = throws_of_class(alloc, hierarchy, &mut marks, class)?;
        found = lesser_of(found, own);
    }
    Ok(found)
}
