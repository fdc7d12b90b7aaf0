//! Bodies that stand where there should be none, or are missing.

ghost use Rattle.std.specs.Prelude.{◌≡◌, flat_map};
ghost use Rattle.refusal_order.specs.Refusals.{least};
ghost use Rattle.method_bodies.specs.MethodBodies.{body_cases, class_cases, constructor_case, is_abstract, is_misfit, member_case, method_case, unit_cases};

use class_order::has_abstract;
use java_syntax::{ClassDecl, ConstructorDecl, Member, MethodDecl, Unit};
use refusal_order::{lesser_of, where_true};
use rlc_base::{Code, Refusal};

// Whether a method is abstract: each of an interface is.
fn is_abstract(class: &ClassDecl, method: &MethodDecl) -> bool
    ensures { result ≡ is_abstract class.now method.now }
{
    class.is_interface || has_abstract(&method.modifiers)
}

fn is_misfit(is_abstract: bool, has_body: bool) -> bool
    ensures { result ≡ is_misfit is_abstract has_body }
{
    if is_abstract { has_body } else { !has_body }
}

fn method_case(class: &ClassDecl, method: &MethodDecl) -> Option<Refusal>
    ensures { result ≡ least (method_case class.now method.now) }
{
    let misfit = is_misfit(is_abstract(class, method), method.body.is_some());
    where_true(misfit, Code::Syntax, method.name.pos)
}

fn constructor_case(constructor: &ConstructorDecl) -> Option<Refusal>
    ensures { result ≡ least (constructor_case constructor.now) }
{
    let lacks = constructor.body.is_none();
    where_true(lacks, Code::Syntax, constructor.name.pos)
}

fn member_case(class: &ClassDecl, member: &Member) -> Option<Refusal>
    ensures { result ≡ least (member_case class.now member.now) }
{
    match member {
        Member::Field(_) => None,
        Member::Method(method) => method_case(class, method),
        Member::Constructor(constructor) => constructor_case(constructor),
    }
}

// The least refusal of members of a class.
fn members_refusal(class: &ClassDecl, members: &[Member]) -> Option<Refusal>
    ensures { result ≡ least (flat_map (member_case class.now) members.now) }
{
    let mut found = None;
    for member in members {
        found = lesser_of(found, member_case(class, member));
    }
    found
}

fn class_refusal(class: &ClassDecl) -> Option<Refusal>
    ensures { result ≡ least (class_cases class.now) }
{
    members_refusal(class, &class.members)
}

// The least refusal of classes.
fn classes_refusal(classes: &[ClassDecl]) -> Option<Refusal>
    ensures { result ≡ least (flat_map class_cases classes.now) }
{
    let mut found = None;
    for class in classes {
        found = lesser_of(found, class_refusal(class));
    }
    found
}

fn unit_refusal(unit: &Unit) -> Option<Refusal>
    ensures { result ≡ least (unit_cases unit.now) }
{
    classes_refusal(&unit.types)
}

/// The least refusal of source files in which a method has a body and is abstract, or has none and is not, or a constructor has none
/// (JLS 8.4.7, 8.8.7, 9.4): code 20, at the name. No file that was parsed has one, since the grammar refuses it.
pub fn body_refusal(units: &[Unit]) -> Option<Refusal>
    ensures { result ≡ least (body_cases units.now) }
{
    let mut found = None;
    for unit in units {
        found = lesser_of(found, unit_refusal(unit));
    }
    found
}
