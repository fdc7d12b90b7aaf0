//! Where an expression of a body stands, with what its names may mean.

use class_names::{ClassNames, Scope as UnitScope};
use java_typed_trees::Scope;
use program_model::ClassId;

/// All that the typing of an expression may read beside the expression.
#[derive(Clone, Copy)]
pub struct BodyScope<'p, 'l, 'c, 'n, 'u, 'k> {
    /// The program, the class, the variables in scope and the classes of exceptions that are caught or declared.
    pub scope: Scope<'p, 'l, 'c>,
    /// The names of all classes of the program, in class order.
    pub names: &'n ClassNames,
    /// The compilation unit, which says what a simple name of a class means (JLS 6.4.1).
    pub unit: UnitScope<'u>,
    /// The class whose constructor or field initialiser it stands in, if it stands in one (JLS 8.3.1.2).
    pub initialized: Option<ClassId>,
    /// The value of each field that is a constant variable of a primitive type (JLS 4.12.4), by the field's number. A field
    /// past the end is none.
    pub constants: &'k [Option<i64>],
}
