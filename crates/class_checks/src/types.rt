//! Types outside of bodies and field initialisers that are none.

ghost use Rattle.std.specs.Prelude.{◌≡◌, map, IfErr, IfOk};
ghost use Rattle.std.specs.Option.{option_copied};
ghost use Rattle.refusal_order.specs.Refusals.{least};
ghost use Rattle.class_names.specs.Meanings.{unit_of};
ghost use Rattle.class_order.specs.Cases.{IsLeast};
ghost use Rattle.class_order.specs.Core.{AreCore};
ghost use Rattle.class_order.specs.Declarations.{class_names, declaration_of};
ghost use Rattle.class_declarations.specs.Members.{written_of};
ghost use Rattle.class_checks.specs.TypeCases.{IsTypeCase, all_type_cases, bad_static, is_class_written, is_read_in_stub, type_cases, unknown_if_some, unknown_in_field, unknown_in_head, unknown_in_member, unknown_in_members, unknown_parameters, unknown_receiver, unknown_type};

use class_declarations::{MethodTree, is_class_type};
use class_names::{ClassNames, Scope, written_type};
use class_order::{Declared, core_classes, has_final, has_static, unknown_names, unknown_supers};
use java_syntax::{FieldDecl, Member, Param, Typ, TypeName};
use program_model::CoreClasses;
use refusal_order::{lesser_of, where_true};
use rlc_base::{Code, Refusal};

// The refusal of a written type.
fn unknown_type(names: &ClassNames, scope: &Scope, typ: &Typ) -> Option<Refusal>
    ensures { result ≡ least (unknown_type names.now (unit_of scope.now) typ.now) }
{
    let is_unknown = written_type(names, scope, typ).is_none();
    where_true(is_unknown, Code::UnknownType, typ.pos)
}

// The refusal of the type of a result that may be there.
fn unknown_if_some(names: &ClassNames, scope: &Scope, typ: Option<&Typ>) -> Option<Refusal>
    ensures { result ≡ least (unknown_if_some names.now (unit_of scope.now) (option_copied typ.entry)) }
{
    match typ {
        None => None,
        Some(typ) => unknown_type(names, scope, typ),
    }
}

// The refusal of the type of a receiver parameter that may be there.
fn unknown_receiver(names: &ClassNames, scope: &Scope, receiver: Option<&Param>) -> Option<Refusal>
    ensures { result ≡ least (unknown_receiver names.now (unit_of scope.now) (option_copied receiver.entry)) }
{
    match receiver {
        None => None,
        Some(parameter) => unknown_type(names, scope, &parameter.typ),
    }
}

// The least refusal of the types of parameters.
fn unknown_parameters(names: &ClassNames, scope: &Scope, parameters: &[Param]) -> Option<Refusal>
    ensures { result ≡ least (unknown_parameters names.now (unit_of scope.now) parameters.now) }
{
    let mut found = None;
    for parameter in parameters {
        found = lesser_of(found, unknown_type(names, scope, &parameter.typ));
    }
    found
}

// The least refusal of the types of a method's or constructor's head.
fn unknown_in_head(names: &ClassNames, scope: &Scope, tree: &MethodTree) -> Option<Refusal>
    ensures { result ≡ least (unknown_in_head names.now (unit_of scope.now) (written_of tree.now)) }
{
    let in_result = unknown_if_some(names, scope, tree.result());
    let in_receiver = unknown_receiver(names, scope, tree.receiver());
    let in_parameters = unknown_parameters(names, scope, tree.parameters());
    let in_throws = unknown_names(names, scope, tree.throws());
    let before_parameters = lesser_of(in_result, in_receiver);
    let before_throws = lesser_of(before_parameters, in_parameters);
    lesser_of(before_throws, in_throws)
}

// The refusal of a static field of a class type other than `String`.
fn bad_static(names: &ClassNames, scope: &Scope, field: &FieldDecl) -> Option<Refusal>
    ensures { result ≡ least (bad_static names.now (unit_of scope.now) field.now) }
{
    let is_bad = has_static(&field.modifiers)
        && is_class_type(written_type(names, scope, &field.typ));
    where_true(is_bad, Code::UnknownType, field.typ.pos)
}

fn is_class_written(name: &TypeName) -> bool
    ensures { result ≡ is_class_written name.now }
{
    matches!(name, TypeName::Named(_))
}

// Whether the type of a field of a stub is looked at.
fn is_read_in_stub(field: &FieldDecl) -> bool
    ensures { result ≡ is_read_in_stub field.now }
{
    has_static(&field.modifiers)
        && has_final(&field.modifiers)
        && !field.typ.is_array
        && is_class_written(&field.typ.name)
}

// The least refusal of the type of a field.
fn unknown_in_field(names: &ClassNames, scope: &Scope, field: &FieldDecl) -> Option<Refusal>
    ensures { result ≡ least (unknown_in_field names.now (unit_of scope.now) field.now) }
{
    if scope.library {
        if is_read_in_stub(field) {
            unknown_type(names, scope, &field.typ)
        } else {
            None
        }
    } else {
        let unknown = unknown_type(names, scope, &field.typ);
        lesser_of(unknown, bad_static(names, scope, field))
    }
}

// The least refusal of the types of a member.
fn unknown_in_member(names: &ClassNames, scope: &Scope, member: &Member) -> Option<Refusal>
    ensures { result ≡ least (unknown_in_member names.now (unit_of scope.now) member.now) }
{
    match member {
        Member::Field(field) => unknown_in_field(names, scope, field),
        Member::Method(method) => unknown_in_head(names, scope, &MethodTree::Method(method)),
        Member::Constructor(constructor) => {
            unknown_in_head(names, scope, &MethodTree::Constructor(constructor))
        }
    }
}

// The least refusal of the types of members.
fn unknown_in_members(names: &ClassNames, scope: &Scope, members: &[Member]) -> Option<Refusal>
    ensures { result ≡ least (unknown_in_members names.now (unit_of scope.now) members.now) }
{
    let mut found = None;
    for member in members {
        found = lesser_of(found, unknown_in_member(names, scope, member));
    }
    found
}

// The least refusal of the types of a class.
fn type_case(names: &ClassNames, class: &Declared) -> Option<Refusal>
    ensures { result ≡ least (type_cases names.now (declaration_of class.now)) }
{
    let supers = unknown_supers(names, class);
    let members = unknown_in_members(names, &class.scope, &class.declaration.members);
    lesser_of(supers, members)
}

/// The least refusal of types outside of bodies and field initialisers, code 31: at a name of a super type or in a throws
/// clause that means no class or two, at the first token of another type that is none, and at that of a static field of a
/// program class whose type is a class other than `String`.
pub fn type_refusal(names: &ClassNames, order: &[Declared]) -> Option<Refusal>
    ensures { result ≡ least (all_type_cases names.now (map declaration_of order.now)) }
{
    let mut found = None;
    for class in order {
        found = lesser_of(found, type_case(names, class));
    }
    found
}

/// The pass over types: the classes that the language itself names.
///
/// # Errors
///
/// Code 31: with no place in the core library's file, where that lacks one of those classes, and else the least refusal of types.
pub fn check_types(names: &ClassNames, order: &[Declared]) -> Result<CoreClasses, Refusal>
    requires { names.now ≡ class_names (map declaration_of order.now) }
    ensures core { IfOk result (λ k. AreCore names.now k) }
    ensures none { IfOk result (λ _. IsLeast (IsTypeCase (map declaration_of order.now)) None) }
    ensures least { IfErr result (λ r. IsLeast (IsTypeCase (map declaration_of order.now)) (Some r)) }
{
    match core_classes(names) {
        Err(missing) => Err(missing),
        Ok(core) => match type_refusal(names, order) {
            None => Ok(core),
            Some(refusal) => Err(refusal),
        },
    }
}
