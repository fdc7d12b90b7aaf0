//! Where a statement stands.

ghost use Rattle.std.specs.Prelude.{◌≡◌, ◌+◌, IfOk, OnOk};
ghost use Rattle.java_statement_rules.specs.Surroundings.{surroundings_of};
ghost use Rattle.java_statement_scopes.specs.Scopes.{surroundings_at};

use class_names::{ClassNames, Scope as UnitScope};
use java_statement_rules::BodyScope;
use java_typed_trees::{Local, Scope};
use program_model::{ClassId, Program, VType};
use rlc_base::NoMemory;

/// All that the typing of a statement may read beside the statement and the variables in scope.
#[derive(Clone, Copy)]
pub struct StatementScope<'p, 'c, 'n, 'u, 'k> {
    pub program: &'p Program,
    /// The class of the method or constructor.
    pub class: ClassId,
    /// `this` may be used.
    pub has_this: bool,
    /// The classes of the exceptions that are caught or declared here.
    pub covered: &'c [ClassId],
    /// The names of all classes of the program, in class order.
    pub names: &'n ClassNames,
    /// The compilation unit, which says what a simple name of a class means (JLS 6.4.1).
    pub unit: UnitScope<'u>,
    /// The class whose constructor it stands in, if it stands in one (JLS 8.3.1.2).
    pub initialized: Option<ClassId>,
    /// The value of each field that is a constant variable of a primitive type (JLS 4.12.4), by the field's number. A field
    /// past the end is none.
    pub constants: &'k [Option<i64>],
    /// What the method gives: none for `void` and for a constructor.
    pub given: Option<VType>,
    /// It stands in a loop (JLS 14.15, 14.16).
    pub in_loop: bool,
}

/// Where an expression of the statement stands.
pub fn body_scope<'p, 'l, 'c, 'n, 'u, 'k>(
    scope: &StatementScope<'p, 'c, 'n, 'u, 'k>,
    locals: &'l [Local],
) -> BodyScope<'p, 'l, 'c, 'n, 'u, 'k>
    ensures { surroundings_of result ≡ surroundings_at scope.now locals.now }
{
    let inner = Scope {
        program: scope.program,
        class: scope.class,
        has_this: scope.has_this,
        locals,
        covered: scope.covered,
    };
    BodyScope {
        scope: inner,
        names: scope.names,
        unit: scope.unit,
        initialized: scope.initialized,
        constants: scope.constants,
    }
}

/// The number of the variable that is declared next, which is one more behind it.
pub fn take_number(next: &mut u32) -> Result<u32, NoMemory>
    ensures number { IfOk result (λ n. n ≡ next.old) }
    ensures next { OnOk result (next.new ≡ next.old + 1) }
{
    let number = *next;
    match number.checked_add(1) {
        None => Err(NoMemory),
        Some(behind) => {
            *next = behind;
            Ok(number)
        }
    }
}
