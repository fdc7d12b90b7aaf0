//! What the typing of all bodies reads, and where an expression of a class stands.

ghost use Rattle.std.specs.Prelude.{◌≡◌};
ghost use Rattle.java_statement_rules.specs.Surroundings.{surroundings_of};
ghost use Rattle.source_classes.specs.Members.{environment_in, surroundings_in};
ghost use Rattle.source_classes.specs.SourceClasses.{source_class_of};

use crate::classes::DeclaredClass;
use class_names::ClassNames;
use java_statement_rules::BodyScope;
use java_typed_trees::{Local, Scope};
use program_model::{ClassId, Program};

/// What the typing of all bodies of a program reads.
#[derive(Clone, Copy)]
pub struct ProgramScope<'p, 'n, 'k> {
    /// The table.
    pub program: &'p Program,
    /// The names of all classes, in class order.
    pub names: &'n ClassNames,
    /// The value of each field that is a constant variable of a primitive type (JLS 4.12.4), by the field's number.
    pub constants: &'k [Option<i64>],
}

/// Where an expression of the class stands. `has_this`: `this` may be used. `initialized` is the class, where the expression
/// stands in one of its constructors or field initialisers (JLS 8.3.1.2). `locals` are the variables in scope, and `covered`
/// the classes of exceptions that are caught or declared.
pub fn surroundings_in<'p, 'l, 'c, 'n, 'u, 'k>(
    scope: &ProgramScope<'p, 'n, 'k>,
    class: &DeclaredClass<'_, 'u>,
    has_this: bool,
    initialized: Option<ClassId>,
    locals: &'l [Local],
    covered: &'c [ClassId],
) -> BodyScope<'p, 'l, 'c, 'n, 'u, 'k>
    ensures { surroundings_of result ≡ surroundings_in (environment_in scope.now) (source_class_of class.now) has_this initialized locals.now covered.now }
{
    BodyScope {
        scope: Scope {
            program: scope.program,
            class: class.class,
            has_this,
            locals,
            covered,
        },
        names: scope.names,
        unit: class.declared.scope,
        initialized,
        constants: scope.constants,
    }
}
