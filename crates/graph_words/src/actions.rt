// The words of actions: the name, and in parentheses the arguments.

ghost use Rattle.std.specs.Prelude.{◌≡◌, ◌++◌, decimal, OnOk};
ghost use Rattle.program_texts.specs.Texts.{field_text};
ghost use Rattle.graph_words.specs.Actions.{action_name, action_word, argument_list, arguments, clause_word, further, known_word, operands_word, through_word};
ghost use Rattle.graph_words.specs.Names.{method_word, type_word, variable_word};
ghost use Rattle.graph_words.specs.Operators.{form_word};
ghost use Rattle.graph_words.specs.Places.{completion_word, place_word, plain_word};
ghost use Rattle.control_actions.specs.declared.action.Action.TheVariants as actions;

use crate::completions::put_completion;
use crate::names::{class_word, put_method, put_statement, put_type, variable_word};
use crate::operators::{form_word, put_operator};
use crate::places::{put_place, put_scope};
use crate::values::put_plain;
use control_actions::{Action, ClauseId, Completion, Place, PlainValue, TargetForm};
use program_model::{Body, ClassId, FieldId, MethodId, Program, VType};
use program_texts::{put_field, put_number};
use rlc_base::{NoMemory, Text};
use std::alloc::Global;

fn action_name(action: Action) -> &'static [u8]
    ensures { result.now ≡ action_name action }
{
    match action {
        Action::Skip => b"Skip",
        Action::Copy(_, _) => b"Copy",
        Action::Move(_, _) => b"Move",
        Action::Plain(_, _) => b"Plain",
        Action::Drop(_) => b"Drop",
        Action::Settle(_, _) => b"Settle",
        Action::Enter(_, _, _, _) => b"Enter",
        Action::Test(_) => b"Test",
        Action::Op(_, _, _) => b"Op",
        Action::Get(_, _, _) => b"Get",
        Action::Put(_, _, _) => b"Put",
        Action::Cast(_, _) => b"Cast",
        Action::PutOwn(_, _) => b"PutOwn",
        Action::Call(_, _, _, _) => b"Call",
        Action::New(_, _, _) => b"New",
        Action::Super(_, _, _) => b"Super",
        Action::Raise(_, _) => b"Raise",
        Action::End(_) => b"End",
    }
}

// A comma, and a number.
fn put_further(alloc: Global, number: u32, into: &mut Text) -> Result<(), NoMemory>
    ensures { OnOk result (into.new ≡ into.old ++ further (decimal number)) }
{
    into.push_bytes(b",")?;
    put_number(alloc, u64::from(number), into)
}

fn put_operands(alloc: Global, depth: u32, count: u32, into: &mut Text) -> Result<(), NoMemory>
    ensures { OnOk result (into.new ≡ into.old ++ operands_word depth count) }
{
    put_further(alloc, depth, into)?;
    put_further(alloc, count, into)
}

fn put_places(
    alloc: Global,
    body: &Body,
    target: Place,
    source: Place,
    into: &mut Text,
) -> Result<(), NoMemory>
    ensures { OnOk result (into.new ≡ into.old ++ (place_word body.now target ++ further (place_word body.now source))) }
{
    put_place(alloc, body, target, into)?;
    into.push_bytes(b",")?;
    put_place(alloc, body, source, into)
}

fn put_filled(
    alloc: Global,
    p: &Program,
    body: &Body,
    target: Place,
    value: PlainValue,
    into: &mut Text,
) -> Result<(), NoMemory>
    ensures { OnOk result (into.new ≡ into.old ++ (place_word body.now target ++ further (plain_word p.now value))) }
{
    put_place(alloc, body, target, into)?;
    into.push_bytes(b",")?;
    put_plain(alloc, p, value, into)
}

fn put_settled(
    alloc: Global,
    p: &Program,
    depth: u32,
    completion: Completion,
    into: &mut Text,
) -> Result<(), NoMemory>
    ensures { OnOk result (into.new ≡ into.old ++ (decimal depth ++ further (completion_word p.now completion))) }
{
    put_number(alloc, u64::from(depth), into)?;
    into.push_bytes(b",")?;
    put_completion(alloc, p, completion, into)
}

fn put_clause(alloc: Global, body: &Body, clause: ClauseId, into: &mut Text) -> Result<(), NoMemory>
    ensures { OnOk result (into.new ≡ into.old ++ clause_word body.now clause) }
{
    put_number(alloc, clause.index as u64, into)?;
    into.push_bytes(b" of ")?;
    put_statement(alloc, body, clause.statement, into)
}

fn put_entered(
    alloc: Global,
    body: &Body,
    clause: ClauseId,
    variable: u32,
    base: u32,
    depth: u32,
    into: &mut Text,
) -> Result<(), NoMemory>
    ensures { OnOk result (into.new ≡ into.old ++ (clause_word body.now clause ++ (further (variable_word body.now variable) ++ operands_word base depth))) }
{
    put_clause(alloc, body, clause, into)?;
    into.push_bytes(b",")?;
    into.push_bytes(variable_word(body, variable))?;
    put_operands(alloc, base, depth, into)
}

fn through_word(through_this: bool) -> &'static [u8]
    ensures { result.now ≡ through_word through_this }
{
    if through_this { b",this" } else { b"" }
}

fn put_access(
    alloc: Global,
    p: &Program,
    field: FieldId,
    depth: u32,
    through_this: bool,
    into: &mut Text,
) -> Result<(), NoMemory>
    ensures { OnOk result (into.new ≡ into.old ++ (field_text p.now field ++ (further (decimal depth) ++ through_word through_this))) }
{
    put_field(p, field, into)?;
    put_further(alloc, depth, into)?;
    into.push_bytes(through_word(through_this))
}

fn put_cast(
    alloc: Global,
    p: &Program,
    typ: VType,
    depth: u32,
    into: &mut Text,
) -> Result<(), NoMemory>
    ensures { OnOk result (into.new ≡ into.old ++ (type_word p.now typ ++ further (decimal depth))) }
{
    put_type(p, typ, into)?;
    put_further(alloc, depth, into)
}

fn put_counted(
    alloc: Global,
    p: &Program,
    method: MethodId,
    depth: u32,
    count: u32,
    into: &mut Text,
) -> Result<(), NoMemory>
    ensures { OnOk result (into.new ≡ into.old ++ (method_word p.now method ++ operands_word depth count)) }
{
    put_method(p, method, into)?;
    put_operands(alloc, depth, count, into)
}

fn put_call(
    alloc: Global,
    p: &Program,
    method: MethodId,
    depth: u32,
    count: u32,
    form: TargetForm,
    into: &mut Text,
) -> Result<(), NoMemory>
    ensures { OnOk result (into.new ≡ into.old ++ (method_word p.now method ++ (operands_word depth count ++ further (form_word form)))) }
{
    put_counted(alloc, p, method, depth, count, into)?;
    into.push_bytes(b",")?;
    into.push_bytes(form_word(form))
}

fn put_known(p: &Program, class: Option<ClassId>, into: &mut Text) -> Result<(), NoMemory>
    ensures { OnOk result (into.new ≡ into.old ++ known_word p.now class) }
{
    match class {
        None => Ok(()),
        Some(class) => {
            into.push_bytes(b",")?;
            into.push_bytes(class_word(p, class))
        }
    }
}

fn put_arguments(
    alloc: Global,
    p: &Program,
    body: &Body,
    action: Action,
    into: &mut Text,
) -> Result<(), NoMemory>
    ensures { OnOk result (into.new ≡ into.old ++ arguments p.now body.now action) }
{
    match action {
        Action::Skip => Ok(()),
        Action::Copy(target, source) | Action::Move(target, source) => {
            put_places(alloc, body, target, source, into)
        }
        Action::Plain(target, value) => put_filled(alloc, p, body, target, value, into),
        Action::Drop(scope) => put_scope(alloc, body, scope, into),
        Action::Settle(depth, completion) => put_settled(alloc, p, depth, completion, into),
        Action::Enter(clause, variable, base, depth) => {
            put_entered(alloc, body, clause, variable, base, depth, into)
        }
        Action::Test(depth) => put_number(alloc, u64::from(depth), into),
        Action::Op(operator, depth, count) => {
            put_operator(p, operator, into)?;
            put_operands(alloc, depth, count, into)
        }
        Action::Get(field, depth, this) | Action::Put(field, depth, this) => {
            put_access(alloc, p, field, depth, this, into)
        }
        Action::Cast(typ, depth) => put_cast(alloc, p, typ, depth, into),
        Action::PutOwn(field, depth) => {
            put_field(p, field, into)?;
            put_further(alloc, depth, into)
        }
        Action::Call(method, depth, count, form) => {
            put_call(alloc, p, method, depth, count, form, into)
        }
        Action::New(method, depth, count) | Action::Super(method, depth, count) => {
            put_counted(alloc, p, method, depth, count, into)
        }
        Action::Raise(depth, class) => {
            put_number(alloc, u64::from(depth), into)?;
            put_known(p, class, into)
        }
        Action::End(completion) => put_completion(alloc, p, completion, into),
    }
}

fn put_argument_list(
    alloc: Global,
    p: &Program,
    body: &Body,
    action: Action,
    into: &mut Text,
) -> Result<(), NoMemory>
    ensures { OnOk result (into.new ≡ into.old ++ argument_list p.now body.now action) }
{
    match action {
        Action::Skip => Ok(()),
        _ => {
            into.push_bytes(b"(")?;
            put_arguments(alloc, p, body, action, into)?;
            into.push_bytes(b")")
        }
    }
}

pub(crate) fn put_action(
    alloc: Global,
    p: &Program,
    body: &Body,
    action: Action,
    into: &mut Text,
) -> Result<(), NoMemory>
    ensures { OnOk result (into.new ≡ into.old ++ action_word p.now body.now action) }
{
    into.push_bytes(action_name(action))?;
    put_argument_list(alloc, p, body, action, into)
}
