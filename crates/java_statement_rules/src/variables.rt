//! The variables that statements declare (JLS 4.12.3, 4.12.4, 6.3, 6.4, 14.4).

ghost use Rattle.std.specs.Prelude.{◌≡◌, ◌++◌, IfOk, OnOk, Some, map};
ghost use Rattle.std.specs.List.{list_any};
ghost use Rattle.java_syntax.specs.AnnotationTrees.{modifier_of};
ghost use Rattle.java_statement_rules.specs.DeclaredVariables.{constant_of, constant_value, declared_type, double_cases, has_final, is_final_word, local_variable};

use java_conversions::is_assignable;
use java_syntax::Modifier;
use java_typed_trees::{Facts, Local, StaticType, Variable, local_named, type_of};
use program_model::{Program, VType};
use rlc_base::{Code, NoMemory, Pos, Refusal, Text};

fn is_final_word(modifier: &Modifier) -> bool
    ensures { result ≡ is_final_word (modifier_of modifier.now) }
{
    match modifier {
        Modifier::Annotation(_) => false,
        Modifier::Public => false,
        Modifier::Protected => false,
        Modifier::Private => false,
        Modifier::Static => false,
        Modifier::Final => true,
        Modifier::Abstract => false,
    }
}

fn any_final(modifiers: &[Modifier]) -> bool
    ensures { result ≡ list_any (λ m. is_final_word (modifier_of m)) modifiers.now }
{
    modifiers.iter().any(|m| is_final_word(m))
}

/// Whether `final` stands among the modifiers.
pub fn has_final(modifiers: &[Modifier]) -> bool
    ensures { result ≡ has_final (map modifier_of modifiers.now) }
{
    any_final(modifiers)
}

fn declared_type(vtype: Option<VType>) -> StaticType
    ensures { result ≡ declared_type vtype }
{
    match vtype {
        None => StaticType::Erroneous,
        Some(found) => StaticType::Value(found),
    }
}

/// A variable of the body with this number. One whose type is refused has none, so that its uses are refused no further.
/// `is_final`: it is never assigned again (JLS 4.12.4).
pub fn local_variable(
    number: u32,
    name: &Text,
    vtype: Option<VType>,
    is_final: bool,
    constant: Option<i64>,
) -> Result<Local, NoMemory>
    ensures { IfOk result (λ x. x ≡ local_variable number name.now vtype is_final constant) }
{
    let variable = Variable {
        number,
        static_type: declared_type(vtype),
        constant,
        is_final,
    };
    let name = name.clone()?;
    Ok(Local { name, variable })
}

fn constant_as(p: &Program, to: VType, from: Option<VType>, constant: Option<i64>) -> Option<i64>
    ensures { result ≡ constant_of p.now (Some to) from constant }
{
    match to {
        VType::Primitive(_) => match from {
            None => None,
            Some(found) => {
                if is_assignable(p, constant, found, to) {
                    constant
                } else {
                    None
                }
            }
        },
        VType::Str => None,
        VType::Arr(_) => None,
        VType::Obj(_) => None,
        VType::NullType => None,
    }
}

fn constant_of(
    p: &Program,
    vtype: Option<VType>,
    from: Option<VType>,
    constant: Option<i64>,
) -> Option<i64>
    ensures { result ≡ constant_of p.now vtype from constant }
{
    match vtype {
        None => None,
        Some(to) => constant_as(p, to, from, constant),
    }
}

/// The value of a variable or field of the type that begins with this expression, where it is a constant variable: final, of a
/// primitive type and initialised with a constant expression (JLS 4.12.4).
pub fn constant_value(p: &Program, is_final: bool, vtype: Option<VType>, e: Facts) -> Option<i64>
    ensures { result ≡ constant_value p.now is_final vtype e }
{
    if is_final {
        constant_of(p, vtype, type_of(e), e.constant)
    } else {
        None
    }
}

/// Counts the refusal of a variable where one of its name is in scope (JLS 6.4).
pub fn count_double(
    pos: Pos,
    locals: &[Local],
    name: &Text,
    refusals: &mut Vec<Refusal>,
) -> Result<(), NoMemory>
    ensures { OnOk result (refusals.new.items ≡ refusals.old.items ++ double_cases pos locals.now name.now) }
{
    if local_named(locals, name).is_some() {
        let code = Code::Mismatch;
        refusals.push(Refusal { code, pos })?;
    }
    Ok(())
}
