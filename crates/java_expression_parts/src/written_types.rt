//! The classes and types that are written in an expression (JLS 6.5.5, 15.9, 15.10.1, 15.16, 15.20.2).

ghost use Rattle.std.specs.Prelude.{◌≡◌, ◌++◌, OnOk};
ghost use Rattle.class_names.specs.Meanings.{has_dot};
ghost use Rattle.java_expression_parts.specs.Surroundings.{surroundings_of};
ghost use Rattle.java_expression_parts.specs.WrittenTypes.{cast_type, class_in, class_of_name, element_type, if_element, is_qualified, may_be_element, tested_type, unknown_name_cases};

use crate::surroundings::BodyScope;
use class_names::{Meaning, meaning_of, written_type};
use java_syntax::{Typ, TypeName};
use program_model::{ClassId, VType};
use rlc_base::{Code, NoMemory, Pos, Refusal, Text};

fn class_in(meaning: Meaning) -> Option<ClassId>
    ensures { result ≡ class_in meaning }
{
    match meaning {
        Meaning::Named(class) => Some(class),
        Meaning::NoClass => None,
        Meaning::TwoClasses => None,
    }
}

/// The class that the name means in the compilation unit (JLS 6.5.5): none where no class has it, or two on the level that
/// decides.
pub fn class_of_name(scope: &BodyScope, name: &Text) -> Option<ClassId>
    ensures { result ≡ class_of_name (surroundings_of scope.now) name.now }
{
    class_in(meaning_of(scope.names, &scope.unit, name.bytes()))
}

/// Counts the refusal of a name of a class or of a type that means none.
pub fn count_unknown(is_known: bool, pos: Pos, refusals: &mut Vec<Refusal>) -> Result<(), NoMemory>
    ensures { OnOk result (refusals.new.items ≡ refusals.old.items ++ unknown_name_cases is_known pos) }
{
    if !is_known {
        let code = Code::NoSuchName;
        refusals.push(Refusal { code, pos })?;
    }
    Ok(())
}

/// The type of a cast (JLS 15.16). There is none where its name is refused, or it is an array over a class other than
/// `String`.
pub fn cast_type(scope: &BodyScope, typ: &Typ) -> Option<VType>
    ensures { result ≡ cast_type (surroundings_of scope.now) typ.now }
{
    written_type(scope.names, &scope.unit, typ)
}

fn has_dot(name: &[u8]) -> bool
    ensures { result ≡ has_dot name.now }
{
    name.iter().any(|b| *b == b'.')
}

fn is_qualified(name: &TypeName) -> bool
    ensures { result ≡ is_qualified name.now }
{
    match name {
        TypeName::Primitive(_) => false,
        TypeName::Named(text) => has_dot(text.bytes()),
    }
}

/// The type behind `instanceof` (JLS 15.20.2). There is none where its name is refused or a qualified one, which the subset
/// has not there, or it is an array over a class other than `String`.
pub fn tested_type(scope: &BodyScope, typ: &Typ) -> Option<VType>
    ensures { result ≡ tested_type (surroundings_of scope.now) typ.now }
{
    if is_qualified(&typ.name) {
        None
    } else {
        written_type(scope.names, &scope.unit, typ)
    }
}

fn may_be_element(vtype: VType) -> bool
    ensures { result ≡ may_be_element vtype }
{
    match vtype {
        VType::Primitive(_) => true,
        VType::Str => true,
        VType::Arr(_) => false,
        VType::Obj(_) => false,
        VType::NullType => false,
    }
}

fn if_element(vtype: Option<VType>) -> Option<VType>
    ensures { result ≡ if_element vtype }
{
    match vtype {
        None => None,
        Some(found) => {
            if may_be_element(found) {
                Some(found)
            } else {
                None
            }
        }
    }
}

/// The type of a new array's elements (JLS 15.10.1). There is none where its name is refused, or it is a class other than
/// `String`.
pub fn element_type(scope: &BodyScope, typ: &Typ) -> Option<VType>
    ensures { result ≡ element_type (surroundings_of scope.now) typ.now }
{
    if_element(written_type(scope.names, &scope.unit, typ))
}
