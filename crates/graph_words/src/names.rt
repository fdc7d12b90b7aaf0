// The names of classes, methods, variables, statements and types.

ghost use Rattle.std.specs.Prelude.{◌≡◌, ◌++◌, OnOk};
ghost use Rattle.program_texts.specs.Texts.{class_text};
ghost use Rattle.graph_words.specs.Names.{class_word, element_word, last_name, method_heading, method_word, primitive_word, statement_word, type_word, variable_word};

use program_model::{
    Body, ClassId, ElementType, Method, MethodId, MethodKind, Primitive, Program, StmtId, VType,
};
use program_texts::put_line;
use rlc_base::{NoMemory, Text};
use std::alloc::Global;

// What stands behind the last dot.
fn last_name(name: &[u8]) -> &[u8]
    ensures { result.now ≡ last_name name.now }
{
    let mut found = name;
    'each: for (index, byte) in name.iter().enumerate() {
        if *byte == b'.' {
            found = &name[index + 1..];
        }
    }
    found
}

pub(crate) fn class_word(p: &Program, class: ClassId) -> &[u8]
    ensures { result.now ≡ class_word p.now class }
{
    match p.class(class) {
        None => last_name(&[]),
        Some(found) => last_name(found.name.bytes()),
    }
}

/// Puts the name of a method, or the word `new` and its class for a constructor.
pub(crate) fn put_heading(p: &Program, method: &Method, into: &mut Text) -> Result<(), NoMemory>
    ensures { OnOk result (into.new ≡ into.old ++ method_heading p.now method.now) }
{
    match method.kind {
        MethodKind::Ctor => {
            into.push_bytes(b"new ")?;
            into.push_bytes(class_word(p, method.class))
        }
        MethodKind::Instance | MethodKind::Static | MethodKind::Constant => {
            into.push_bytes(method.name.bytes())
        }
    }
}

pub(crate) fn put_method(p: &Program, method: MethodId, into: &mut Text) -> Result<(), NoMemory>
    ensures { OnOk result (into.new ≡ into.old ++ method_word p.now method) }
{
    match p.method(method) {
        None => Ok(()),
        Some(found) => put_heading(p, found, into),
    }
}

pub(crate) fn variable_word(body: &Body, variable: u32) -> &[u8]
    ensures { result.now ≡ variable_word body.now variable }
{
    match body.variable(variable) {
        None => &[],
        Some(found) => found.name.bytes(),
    }
}

// Puts the place by which a statement is named.
pub(crate) fn put_statement(
    alloc: Global,
    body: &Body,
    statement: StmtId,
    into: &mut Text,
) -> Result<(), NoMemory>
    ensures { OnOk result (into.new ≡ into.old ++ statement_word body.now statement) }
{
    match body.statement(statement) {
        None => Ok(()),
        Some(found) => put_line(alloc, found.pos, into),
    }
}

fn primitive_word(kind: Primitive) -> &'static [u8]
    ensures { result.now ≡ primitive_word kind }
{
    match kind {
        Primitive::Boolean => b"boolean",
        Primitive::Byte => b"byte",
        Primitive::Char => b"char",
        Primitive::Int => b"int",
        Primitive::Long => b"long",
    }
}

fn element_word(element: ElementType) -> &'static [u8]
    ensures { result.now ≡ element_word element }
{
    match element {
        ElementType::Primitive(kind) => primitive_word(kind),
        ElementType::Str => b"String",
    }
}

pub(crate) fn put_type(p: &Program, typ: VType, into: &mut Text) -> Result<(), NoMemory>
    ensures { OnOk result (into.new ≡ into.old ++ type_word p.now typ) }
{
    match typ {
        VType::Primitive(kind) => into.push_bytes(primitive_word(kind)),
        VType::Str => into.push_bytes(b"String"),
        VType::Arr(element) => {
            into.push_bytes(element_word(element))?;
            into.push_bytes(b"[]")
        }
        VType::Obj(class) => into.push_bytes(class_word(p, class)),
        VType::NullType => into.push_bytes(b"null"),
    }
}
