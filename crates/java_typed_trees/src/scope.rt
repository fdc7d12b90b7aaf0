//! Where an expression stands, and what a name means there.

ghost use Rattle.std.specs.Prelude.{◌≡◌};
ghost use Rattle.std.specs.Option.{option_copied};
ghost use Rattle.java_typed_trees.specs.Names.{local_named, meaning_of};

use crate::facts::StaticType;
use program_model::{ClassId, FieldId, MethodId, Program};
use rlc_base::Text;

/// A variable of a body.
#[derive(Clone, Copy)]
pub struct Variable {
    /// Its number in the body's list of variables.
    pub number: u32,
    /// `Erroneous` where its declared type is unknown, so that its uses are refused no further.
    pub static_type: StaticType,
    /// The value of a constant variable of a primitive type (JLS 4.12.4).
    pub constant: Option<i64>,
    /// It is never assigned again: a final parameter, a resource, or a final variable with an initialiser.
    pub is_final: bool,
}

/// A variable that is in scope, with its name.
#[derive(Drop)]
pub struct Local {
    pub name: Text,
    pub variable: Variable,
}

/// Where an expression stands: what its typing may read.
#[derive(Clone, Copy)]
pub struct Scope<'p, 'l, 'c> {
    pub program: &'p Program,
    /// The class of the method, constructor or field.
    pub class: ClassId,
    /// `this` may be used: not in a static method, nor in the arguments of a super call (JLS 8.8.7.1, 15.8.3).
    pub has_this: bool,
    /// The variables in scope, in the order of their declarations. No two have one name.
    pub locals: &'l [Local],
    /// The classes of the exceptions that are caught or declared here.
    pub covered: &'c [ClassId],
}

/// What a simple name of a variable means (JLS 6.5.6.1).
#[derive(Clone, Copy)]
pub enum NameMeaning {
    Variable(Variable),
    /// A field of a program class that the class declares or inherits.
    Field(FieldId),
    /// A static final field of class type of a stub that the class inherits.
    LibraryConstant(MethodId),
    /// No variable and no field has the name.
    NoVariable,
}

/// The variable in scope that has the name.
pub fn local_named<'l>(locals: &'l [Local], name: &Text) -> Option<&'l Local>
    ensures { option_copied result ≡ local_named locals.now name.now }
{
    locals.iter().find(|x| x.name == *name)
}

/// What the name means where it means this as a member of the class: a variable of the body shadows a field (JLS 6.4.1).
pub fn meaning_of(locals: &[Local], name: &Text, member: NameMeaning) -> NameMeaning
    ensures { result ≡ meaning_of locals.now name.now member }
{
    match local_named(locals, name) {
        Some(found) => NameMeaning::Variable(found.variable),
        None => member,
    }
}
