// The words of values without an object.

ghost use Rattle.std.specs.Prelude.{◌≡◌, ◌++◌, OnOk};
ghost use Rattle.graph_words.specs.Places.{literal_word, plain_word};

use crate::names::{put_method, put_type};
use control_actions::PlainValue;
use program_model::{Literal, Program};
use program_texts::{put_field, put_number};
use rlc_base::{NoMemory, Text};
use std::alloc::Global;

fn put_literal(alloc: Global, literal: Literal, into: &mut Text) -> Result<(), NoMemory>
    ensures { OnOk result (into.new ≡ into.old ++ literal_word literal) }
{
    match literal {
        Literal::Number(number) => {
            let digits = format!(in alloc; "{number}")?;
            into.push_bytes(digits.as_bytes())
        }
        Literal::Character(unit) => {
            into.push_bytes(b"'")?;
            put_number(alloc, u64::from(unit), into)?;
            into.push_bytes(b"'")
        }
        Literal::Boolean(true) => into.push_bytes(b"true"),
        Literal::Boolean(false) => into.push_bytes(b"false"),
        Literal::Text => into.push_bytes(b"text"),
        Literal::Null => into.push_bytes(b"null"),
    }
}

pub(crate) fn put_plain(
    alloc: Global,
    p: &Program,
    value: PlainValue,
    into: &mut Text,
) -> Result<(), NoMemory>
    ensures { OnOk result (into.new ≡ into.old ++ plain_word p.now value) }
{
    match value {
        PlainValue::Literal(literal) => put_literal(alloc, literal, into),
        PlainValue::Default(typ) => {
            into.push_bytes(b"default ")?;
            put_type(p, typ, into)
        }
        PlainValue::StaticField(field) => put_field(p, field, into),
        PlainValue::LibraryConstant(constant) => put_method(p, constant, into),
    }
}
