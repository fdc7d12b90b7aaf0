//! Double members of classes.

ghost use Rattle.std.specs.Prelude.{◌≡◌, ◌++◌, ◌∷◌, [], map, IfOk, OnOk};
ghost use Rattle.refusal_order.specs.Refusals.{least};
ghost use Rattle.class_names.specs.Meanings.{unit_of};
ghost use Rattle.class_names.specs.WrittenTypes.{written_type};
ghost use Rattle.class_order.specs.Declarations.{declaration_of};
ghost use Rattle.class_declarations.specs.Members.{written_of};
ghost use Rattle.class_checks.specs.DoubleMembers.{double_fields, double_member_cases, double_members, double_methods, double_signatures, field_names_among, field_names_in, field_names_of, invocable, is_declared, is_invocable, names_among};
ghost use Rattle.class_checks.specs.MemberKeys.{keyed_field, keyed_method, keyed_of, parameter_codes, signature_key, type_code};
ghost use Rattle.program_model.specs.Overrides.{element_number, primitive_number};

use crate::keys::{MemberKey, double_keys};
use class_declarations::{MethodTree, is_constant, written_in};
use class_names::{ClassNames, Scope, written_type};
use class_order::Declared;
use java_syntax::{FieldDecl, Member, Name, Param, Variable};
use program_model::{ElementType, Primitive, VType};
use refusal_order::lesser_of;
use rlc_base::{NoMemory, Refusal};
use std::alloc::Global;

// Puts the bytes of a name at the end of a key.
fn push_name(key: &mut Vec<u32>, name: &[u8]) -> Result<(), NoMemory>
    ensures { OnOk result (key.new.items ≡ key.old.items ++ name.now) }
{
    for byte in name {
        key.push(u32::from(*byte))?;
    }
    Ok(())
}

// ---- fields

// The key of a field.
fn field_key(alloc: Global, name: &Name) -> Result<MemberKey, NoMemory>
    ensures { IfOk result (λ k. keyed_of k ≡ keyed_field name.now) }
{
    let mut key = Vec::new(alloc);
    push_name(&mut key, name.text.bytes())?;
    Ok(MemberKey { key, pos: name.pos })
}

// Puts the keys of the fields of one declaration at the end.
fn push_variables(
    alloc: Global,
    keys: &mut Vec<MemberKey>,
    variables: &[Variable],
) -> Result<(), NoMemory>
    ensures { OnOk result (map keyed_of keys.new.items ≡ map keyed_of keys.old.items ++ map keyed_field (names_among variables.now)) }
{
    for variable in variables {
        keys.push(field_key(alloc, &variable.name)?)?;
    }
    Ok(())
}

// Whether a field counts: in a stub only a constant does.
fn is_declared(names: &ClassNames, class: &Declared, field: &FieldDecl) -> bool
    ensures { result ≡ is_declared names.now (declaration_of class.now) field.now }
{
    if class.scope.library {
        is_constant(names, class, field)
    } else {
        true
    }
}

// Puts the keys of the fields of one declaration at the end, where they count.
fn push_fields(
    alloc: Global,
    keys: &mut Vec<MemberKey>,
    names: &ClassNames,
    class: &Declared,
    field: &FieldDecl,
) -> Result<(), NoMemory>
    ensures { OnOk result (map keyed_of keys.new.items ≡ map keyed_of keys.old.items ++ map keyed_field (field_names_in names.now (declaration_of class.now) field.now)) }
{
    if is_declared(names, class, field) {
        push_variables(alloc, keys, &field.variables)
    } else {
        Ok(())
    }
}

// Puts the keys of the fields that a member declares at the end.
fn push_member(
    alloc: Global,
    keys: &mut Vec<MemberKey>,
    names: &ClassNames,
    class: &Declared,
    member: &Member,
) -> Result<(), NoMemory>
    ensures { OnOk result (map keyed_of keys.new.items ≡ map keyed_of keys.old.items ++ map keyed_field (field_names_of names.now (declaration_of class.now) member.now)) }
{
    match member {
        Member::Field(field) => push_fields(alloc, keys, names, class, field),
        Member::Method(_) => Ok(()),
        Member::Constructor(_) => Ok(()),
    }
}

// The keys of the fields that members declare.
fn field_keys(
    alloc: Global,
    names: &ClassNames,
    class: &Declared,
    members: &[Member],
) -> Result<Vec<MemberKey>, NoMemory>
    ensures { IfOk result (λ v. map keyed_of v.items ≡ map keyed_field (field_names_among names.now (declaration_of class.now) members.now)) }
{
    let mut keys = Vec::new(alloc);
    for member in members {
        push_member(alloc, &mut keys, names, class, member)?;
    }
    Ok(keys)
}

// The least refusal of fields of a class that have the name of an earlier one.
fn double_fields(
    alloc: Global,
    names: &ClassNames,
    class: &Declared,
) -> Result<Option<Refusal>, NoMemory>
    ensures { IfOk result (λ r. r ≡ least (double_fields names.now (declaration_of class.now))) }
{
    let keys = field_keys(alloc, names, class, &class.declaration.members)?;
    double_keys(alloc, &keys)
}

// ---- methods and constructors

fn primitive_number(primitive: Primitive) -> u32
    ensures { result ≡ primitive_number primitive }
{
    match primitive {
        Primitive::Boolean => 0,
        Primitive::Byte => 1,
        Primitive::Char => 2,
        Primitive::Int => 3,
        Primitive::Long => 4,
    }
}

fn element_number(element: ElementType) -> u32
    ensures { result ≡ element_number element }
{
    match element {
        ElementType::Primitive(primitive) => primitive_number(primitive),
        ElementType::Str => 5,
    }
}

// Two numbers that differ from those of other types.
fn type_code(vtype: Option<VType>) -> [u32; 2]
    ensures { result ≡ type_code vtype }
{
    match vtype {
        None => [1, 0],
        Some(VType::Primitive(primitive)) => [2, primitive_number(primitive)],
        Some(VType::Str) => [3, 0],
        Some(VType::Arr(element)) => [4, element_number(element)],
        Some(VType::Obj(class)) => [5, class.0],
        Some(VType::NullType) => [6, 0],
    }
}

// Puts the numbers of the types of parameters at the end of a key.
fn push_parameters(
    key: &mut Vec<u32>,
    names: &ClassNames,
    scope: &Scope,
    parameters: &[Param],
) -> Result<(), NoMemory>
    ensures { OnOk result (key.new.items ≡ key.old.items ++ parameter_codes names.now (unit_of scope.now) parameters.now) }
{
    for parameter in parameters {
        let code = type_code(written_type(names, scope, &parameter.typ));
        key.extend_from_slice(&code)?;
    }
    Ok(())
}

// The key of a method or constructor.
fn method_key(
    alloc: Global,
    names: &ClassNames,
    scope: &Scope,
    tree: &MethodTree,
) -> Result<MemberKey, NoMemory>
    ensures { IfOk result (λ k. keyed_of k ≡ keyed_method names.now (unit_of scope.now) (written_of tree.now)) }
{
    let mut key = Vec::new(alloc);
    push_parameters(&mut key, names, scope, tree.parameters())?;
    key.push(0)?;
    push_name(&mut key, tree.name())?;
    Ok(MemberKey {
        key,
        pos: tree.pos(),
    })
}

// Whether it is a method or constructor, and no constant.
fn is_invocable(tree: &MethodTree) -> bool
    ensures { result ≡ is_invocable (written_of tree.now) }
{
    match *tree {
        MethodTree::Method(_) => true,
        MethodTree::Constructor(_) => true,
        MethodTree::ImpliedConstructor(_) => true,
        MethodTree::Constant(_, _) => false,
    }
}

// Puts the key of a method or constructor at the end.
fn push_method(
    alloc: Global,
    keys: &mut Vec<MemberKey>,
    names: &ClassNames,
    scope: &Scope,
    tree: &MethodTree,
) -> Result<(), NoMemory>
    ensures { OnOk result (map keyed_of keys.new.items ≡ map keyed_of keys.old.items ++ map (keyed_method names.now (unit_of scope.now)) (invocable (written_of tree.now ∷ []))) }
{
    if is_invocable(tree) {
        keys.push(method_key(alloc, names, scope, tree)?)?;
    }
    Ok(())
}

// The keys of methods and constructors.
fn method_keys(
    alloc: Global,
    names: &ClassNames,
    scope: &Scope,
    trees: &[MethodTree],
) -> Result<Vec<MemberKey>, NoMemory>
    ensures { IfOk result (λ v. map keyed_of v.items ≡ map (keyed_method names.now (unit_of scope.now)) (invocable (map written_of trees.now))) }
{
    let mut keys = Vec::new(alloc);
    for tree in trees {
        push_method(alloc, &mut keys, names, scope, tree)?;
    }
    Ok(keys)
}

// The least refusal of methods and constructors of a class that have the signature of an earlier one.
fn double_methods(
    alloc: Global,
    names: &ClassNames,
    class: &Declared,
) -> Result<Option<Refusal>, NoMemory>
    ensures { IfOk result (λ r. r ≡ least (double_methods names.now (declaration_of class.now))) }
{
    let trees = written_in(alloc, names, class)?;
    let keys = method_keys(alloc, names, &class.scope, &trees)?;
    double_keys(alloc, &keys)
}

// ---- all members

// The least refusal of double members of a class.
fn double_members(
    alloc: Global,
    names: &ClassNames,
    class: &Declared,
) -> Result<Option<Refusal>, NoMemory>
    ensures { IfOk result (λ r. r ≡ least (double_members names.now (declaration_of class.now))) }
{
    let fields = double_fields(alloc, names, class)?;
    let methods = double_methods(alloc, names, class)?;
    Ok(lesser_of(fields, methods))
}

/// The least refusal of double members, code 33 at the later one's name: two fields of one name, or two methods or
/// constructors of one name and one parameter list, in one class (JLS 8.3, 8.4.2, 8.8.2). A constant of a stub is a field.
pub fn double_member_refusal(
    alloc: Global,
    names: &ClassNames,
    order: &[Declared],
) -> Result<Option<Refusal>, NoMemory>
    ensures { IfOk result (λ r. r ≡ least (double_member_cases names.now (map declaration_of order.now))) }
{
    let mut found = None;
    for class in order {
        let own = double_members(alloc, names, class)?;
        found = lesser_of(found, own);
    }
    Ok(found)
}
