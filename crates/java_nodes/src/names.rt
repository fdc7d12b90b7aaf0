ghost use Rattle.std.specs.Prelude.{◌≡◌, ◌++◌, reverse, option_map, IfOk};
ghost use Rattle.java_syntax.specs.ExpressionTrees.{expr_of};
ghost use Rattle.java_values.specs.NestedTrees.{nested_of, exprs_in, identifiers_of, lexeme_in};
ghost use Rattle.java_values.specs.Outcomes.{Gives};
ghost use Rattle.java_nodes.specs.Parts as parts;

use crate::nodes::{call, field_access, identifier, method_call};
use crate::operators::primitive_name;
use java_syntax::{Expr, Name, Typ, TypeName};
use java_values::{BuildFail, Identifiers, Lexeme, Nested, appended, take};
use rlc_base::{NoMemory, Text};
use std::alloc::{AllocError, Global};

/// The identifier as a name.
pub fn name_at(token: Lexeme) -> Name
    ensures { result ≡ parts.name_at (lexeme_in token) }
{
    Name {
        text: token.text,
        pos: token.pos,
    }
}

/// The name with a further identifier behind a dot (JLS 6.2).
pub fn extended(name: Name, token: Lexeme) -> Result<Name, NoMemory>
    ensures { IfOk result (λ whole. whole ≡ parts.extended name (lexeme_in token)) }
{
    let pos = name.pos;
    let mut text = name.text;
    text.push_bytes(b".")?;
    text.push_bytes(token.text.bytes())?;
    Ok(Name { text, pos })
}

/// The identifiers, and this one behind them.
pub fn with_identifier(names: Identifiers, name: Name) -> Result<Identifiers, AllocError>
    ensures { IfOk result (λ all. identifiers_of all ≡ parts.with_identifier (identifiers_of names) name) }
{
    let Identifiers { first, more } = names;
    let more = appended(more, name)?;
    Ok(Identifiers { first, more })
}

/// The primitive type that the token names (JLS 4.2).
pub fn primitive_at(token: Lexeme) -> Typ
    ensures { result ≡ parts.primitive_at (lexeme_in token) }
{
    Typ {
        name: TypeName::Primitive(primitive_name(token.text.bytes())),
        is_array: false,
        pos: token.pos,
    }
}

/// The name as a type (JLS 4.3).
pub fn type_named(name: Name) -> Typ
    ensures { result ≡ parts.type_named name }
{
    Typ {
        name: TypeName::Named(name.text),
        is_array: false,
        pos: name.pos,
    }
}

/// The text, and behind it the names, each behind its dot. They stand with the last one first.
fn with_dots(text: Text, names: Vec<Name>) -> Result<Text, NoMemory>
    ensures { IfOk result (λ whole. whole ≡ text ++ parts.dots (reverse names.items)) }
{
    let mut whole = text;
    let mut names = names;
    while let Some(name) = take(&mut names) {
        whole.push_bytes(b".")?;
        whole.push_bytes(name.text.bytes())?;
    }
    Ok(whole)
}

/// The names with the last one first.
fn turned(names: Vec<Name>) -> Vec<Name>
    ensures { reverse result.items ≡ names.items }
{
    let mut names = names;
    names.reverse();
    names
}

/// Identifiers as a type (JLS 4.3).
pub fn type_of(names: Identifiers) -> Result<Typ, NoMemory>
    ensures { IfOk result (λ typ. typ ≡ parts.type_of (identifiers_of names)) }
{
    let Identifiers { first, more } = names;
    let text = with_dots(first.text, turned(more))?;
    Ok(Typ {
        name: TypeName::Named(text),
        is_array: false,
        pos: first.pos,
    })
}

/// The expression, and of it the fields with these names, which stand with the last one first.
fn with_fields(
    alloc: Global,
    limit: u32,
    first: Nested<Expr>,
    names: Vec<Name>,
) -> Result<Nested<Expr>, BuildFail>
    ensures { Gives (nested_of expr_of) result (parts.fields_of limit (nested_of expr_of first) (reverse names.items)) }
{
    let mut whole = first;
    let mut names = names;
    while let Some(name) = take(&mut names) {
        whole = field_access(alloc, limit, whole, name.text, name.pos)?;
    }
    Ok(whole)
}

/// Identifiers as an expression (JLS 6.5): a variable and fields.
///
/// # Errors
///
/// `TooDeep` where a node would be deeper than the limit.
pub fn name_expression(
    alloc: Global,
    limit: u32,
    names: Identifiers,
) -> Result<Nested<Expr>, BuildFail>
    ensures { Gives (nested_of expr_of) result (parts.name_expression limit (identifiers_of names)) }
{
    let Identifiers { first, more } = names;
    let variable = identifier(limit, first.text, first.pos)?;
    with_fields(alloc, limit, variable, turned(more))
}

/// Identifiers and arguments: a call whose method the last identifier names (JLS 15.12).
///
/// # Errors
///
/// `TooDeep` where a node would be deeper than the limit.
pub fn named_call(
    alloc: Global,
    limit: u32,
    names: Identifiers,
    arguments: Nested<Vec<Expr>>,
) -> Result<Nested<Expr>, BuildFail>
    ensures { Gives (nested_of expr_of) result (parts.named_call limit (identifiers_of names) (nested_of exprs_in arguments)) }
{
    let Identifiers { first, more } = names;
    let mut more = more;
    match take(&mut more) {
        None => call(limit, first.text, arguments, first.pos),
        Some(last) => {
            let target = name_expression(alloc, limit, Identifiers { first, more })?;
            method_call(alloc, limit, target, last.text, arguments, last.pos)
        }
    }
}

/// An identifier, or a call of the method of that name (JLS 15.12).
///
/// # Errors
///
/// `TooDeep` where it would be deeper than the limit.
pub fn head(
    limit: u32,
    name: Name,
    arguments: Option<Nested<Vec<Expr>>>,
) -> Result<Nested<Expr>, BuildFail>
    ensures { Gives (nested_of expr_of) result (parts.head_node limit name (option_map (nested_of exprs_in) arguments)) }
{
    match arguments {
        Some(arguments) => call(limit, name.text, arguments, name.pos),
        None => identifier(limit, name.text, name.pos),
    }
}

/// A field of an expression (JLS 15.11), or a call of its method of that name (JLS 15.12).
///
/// # Errors
///
/// `TooDeep` where it would be deeper than the limit.
pub fn selector(
    alloc: Global,
    limit: u32,
    target: Nested<Expr>,
    name: Name,
    arguments: Option<Nested<Vec<Expr>>>,
) -> Result<Nested<Expr>, BuildFail>
    ensures { Gives (nested_of expr_of) result (parts.selector_node limit (nested_of expr_of target) name (option_map (nested_of exprs_in) arguments)) }
{
    match arguments {
        Some(arguments) => method_call(alloc, limit, target, name.text, arguments, name.pos),
        None => field_access(alloc, limit, target, name.text, name.pos),
    }
}
