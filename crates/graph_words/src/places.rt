// The words of places, and of what is emptied.

ghost use Rattle.std.specs.Prelude.{◌≡◌, ◌++◌, OnOk};
ghost use Rattle.graph_words.specs.Places.{place_word, scope_word, temp_word};

use crate::names::{put_statement, variable_word};
use control_actions::{Place, Scope};
use program_model::Body;
use program_texts::put_number;
use rlc_base::{NoMemory, Text};
use std::alloc::Global;

fn put_temp(alloc: Global, depth: u32, into: &mut Text) -> Result<(), NoMemory>
    ensures { OnOk result (into.new ≡ into.old ++ temp_word depth) }
{
    into.push_bytes(b"t")?;
    put_number(alloc, u64::from(depth), into)
}

pub(crate) fn put_place(
    alloc: Global,
    body: &Body,
    place: Place,
    into: &mut Text,
) -> Result<(), NoMemory>
    ensures { OnOk result (into.new ≡ into.old ++ place_word body.now place) }
{
    match place {
        Place::Var(variable) => into.push_bytes(variable_word(body, variable)),
        Place::This => into.push_bytes(b"this"),
        Place::Field(number) => {
            into.push_bytes(b"this.")?;
            put_number(alloc, u64::from(number), into)
        }
        Place::Temp(depth) => put_temp(alloc, depth, into),
        Place::Super => into.push_bytes(b"super"),
    }
}

pub(crate) fn put_scope(
    alloc: Global,
    body: &Body,
    scope: Scope,
    into: &mut Text,
) -> Result<(), NoMemory>
    ensures { OnOk result (into.new ≡ into.old ++ scope_word body.now scope) }
{
    match scope {
        Scope::Declared(statement) => {
            into.push_bytes(b"of ")?;
            put_statement(alloc, body, statement, into)
        }
        Scope::Variable(variable) => into.push_bytes(variable_word(body, variable)),
        Scope::Temp(depth) => put_temp(alloc, depth, into),
        Scope::TempsAbove(depth) => {
            into.push_bytes(b"above ")?;
            put_temp(alloc, depth, into)
        }
    }
}
