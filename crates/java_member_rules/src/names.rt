//! The rules of `this` (JLS 15.8.3) and of a variable's or field's simple name (JLS 6.5.6.1).

ghost use Rattle.std.specs.Prelude.{◌≡◌};
ghost use Rattle.program_model.specs.Lookups.{field_at, method_at};
ghost use Rattle.java_typed_trees.specs.Answers.{typed_as};
ghost use Rattle.java_typed_trees.specs.ExpressionTrees.{tree_of};
ghost use Rattle.java_member_rules.specs.Names.{field_of, implied_this, library_constant_by, name_by, no_such_name, own_field, result_in, this_by, variable_by, variable_of};

use java_typed_trees::{
    Answer, ExpressionTree, NameMeaning, Shape, StaticType, Variable, constant_at, expression_tree,
    mismatch, value_at,
};
use program_model::{ClassId, FieldId, MethodId, Program, VType};
use rlc_base::{Code, Pos};
use std::alloc::Global;

/// `this` (JLS 15.8.3), of the type of the class.
pub fn this_by(has_this: bool, class: ClassId, pos: Pos) -> Answer
    ensures { result ≡ this_by has_this class pos }
{
    if has_this {
        Answer::Is(Shape::This(true), value_at(pos, VType::Obj(class)))
    } else {
        mismatch(pos)
    }
}

/// The implied `this` of a member that a simple name means, at the place of that name.
pub fn implied_this(alloc: Global, class: ClassId, pos: Pos) -> ExpressionTree
    ensures { tree_of result ≡ implied_this class pos }
{
    let vtype = Some(VType::Obj(class));
    expression_tree(Shape::This(false), vtype, pos, Vec::new(alloc))
}

pub(crate) fn no_such_name(pos: Pos) -> Answer
    ensures { result ≡ no_such_name pos }
{
    Answer::Wrong(Code::NoSuchName, pos)
}

/// A variable of the body, with its value where it is constant (JLS 4.12.4).
pub fn variable_by(pos: Pos, variable: Variable) -> Answer
    ensures { result ≡ variable_by pos variable }
{
    match variable.static_type {
        StaticType::Value(found) => {
            let facts = constant_at(pos, found, variable.constant);
            Answer::Is(Shape::Local(variable.number), facts)
        }
        StaticType::Void | StaticType::Erroneous => Answer::Silent(pos),
    }
}

pub(crate) fn result_of(p: &Program, method: MethodId) -> Option<VType>
    ensures { result ≡ result_in (method_at p.now method) }
{
    match p.method(method) {
        None => None,
        Some(found) => found.sig.result,
    }
}

/// A static final field of class type of a stub.
pub fn library_constant_by(p: &Program, pos: Pos, constant: MethodId) -> Answer
    ensures { result ≡ library_constant_by p.now pos constant }
{
    match result_of(p, constant) {
        None => mismatch(pos),
        Some(found) => Answer::Is(Shape::LibraryConstant(constant), value_at(pos, found)),
    }
}

fn own_field(
    has_this: bool,
    pos: Pos,
    constant: Option<i64>,
    field: FieldId,
    vtype: VType,
) -> Answer
    ensures { result ≡ own_field has_this pos constant field vtype }
{
    if has_this {
        Answer::Is(Shape::Field(field), constant_at(pos, vtype, constant))
    } else {
        mismatch(pos)
    }
}

fn field_of(p: &Program, has_this: bool, pos: Pos, constant: Option<i64>, field: FieldId) -> Answer
    ensures { result ≡ field_of has_this pos constant field (field_at p.now field) }
{
    match p.field(field) {
        None => no_such_name(pos),
        Some(found) => {
            if found.is_static {
                let facts = constant_at(pos, found.vtype, constant);
                Answer::Is(Shape::StaticField(field), facts)
            } else {
                own_field(has_this, pos, constant, field, found.vtype)
            }
        }
    }
}

/// A simple name of this meaning, as a value (JLS 6.5.6.1). `constant` is the value of the field where that is a constant
/// variable (JLS 4.12.4). An instance field has the implied `this` as its part.
pub fn name_by(
    p: &Program,
    has_this: bool,
    pos: Pos,
    constant: Option<i64>,
    meaning: NameMeaning,
) -> Answer
    ensures { result ≡ name_by p.now has_this pos constant meaning }
{
    match meaning {
        NameMeaning::Variable(variable) => variable_by(pos, variable),
        NameMeaning::Field(field) => field_of(p, has_this, pos, constant, field),
        NameMeaning::LibraryConstant(method) => library_constant_by(p, pos, method),
        NameMeaning::NoVariable => no_such_name(pos),
    }
}
