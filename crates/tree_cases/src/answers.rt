// What the lexer and the parsers answer, in words: the tree, and behind it how many tokens it has where these are not all; or
// the code of the refusal, and for a code other than 61 the line and the column of its place.

ghost use Rattle.std.specs.Prelude.{◌<◌, ◌-◌, ◌^◌, length};

use crate::classes::class_word;
use crate::texts::{Kind, Texts};
use crate::trees::{
    Printer, write_annotation, write_expression, write_member, write_statement, write_unit,
};
use case_files::FormFail;
use java_exprs::{parse_annos, parse_expr, parse_type};
use java_lexer::{Source, lex};
use java_parser::{parse_stub, parse_unit};
use java_syntax::{Member, MethodDecl, Token, Unit};
use rlc_base::Stop;
use std::alloc::{AllocError, Global};

// More bytes than a file may have.
const MOST: usize = 2_000_000;

// How many tokens were read, where these are not all.
fn write_read(out: &mut Printer, behind: usize, count: usize) {
    if behind < count {
        out.bare("up to");
        out.number(behind);
    }
}

// The bytes of a token.
fn bytes_of(text: &[u8], token: Token) -> &[u8] {
    let rest = text.get(token.start as usize..).unwrap_or(&[]);
    rest.get(..token.len as usize).unwrap_or(rest)
}

fn write_tokens(out: &mut Printer, source: &Source) {
    for token in source.tokens {
        let text = str::from_utf8(bytes_of(source.bytes, *token)).unwrap_or("?");
        out.word(text, token.pos);
    }
}

fn write_classes(out: &mut Printer, source: &Source) {
    for token in source.tokens {
        out.bare(class_word(token.word));
        out.span(token.start, token.len, token.pos);
    }
}

fn write_front_expression(
    alloc: Global,
    out: &mut Printer,
    source: &Source,
    level: u32,
) -> Result<(), Stop>
    requires { length source.now.bytes.now < 2 ^ 32 - 1 }
{
    let (expression, behind) = parse_expr(alloc, source, 0, level)?;
    write_expression(out, &expression);
    write_read(out, behind, source.tokens.len());
    Ok(())
}

fn write_front_type(alloc: Global, out: &mut Printer, source: &Source) -> Result<(), Stop>
    requires { length source.now.bytes.now < 2 ^ 32 - 1 }
{
    let (typ, behind) = parse_type(alloc, source, 0)?;
    out.typ(&typ);
    write_read(out, behind, source.tokens.len());
    Ok(())
}

fn write_front_annotations(
    alloc: Global,
    out: &mut Printer,
    source: &Source,
    level: u32,
) -> Result<(), Stop>
    requires { length source.now.bytes.now < 2 ^ 32 - 1 }
{
    let (annotations, behind) = parse_annos(alloc, source, 0, level)?;
    for annotation in &annotations {
        write_annotation(out, annotation);
    }
    write_read(out, behind, source.tokens.len());
    Ok(())
}

// The statements of the one method among the members.
fn write_body(out: &mut Printer, members: &[Member]) {
    match members {
        [
            Member::Method(
                MethodDecl {
                    body: Some(body),
                    ..
                },
            ),
        ] => {
            for statement in &body.statements {
                write_statement(out, statement);
            }
        }
        _ => out.bare("not one method"),
    }
}

// The statements of the one method of the one class of a file.
fn write_statements(out: &mut Printer, unit: &Unit) {
    match unit.types.as_slice() {
        [class] => write_body(out, &class.members),
        _ => out.bare("not one method"),
    }
}

// The members of the classes of a file.
fn write_members(out: &mut Printer, unit: &Unit) {
    for class in &unit.types {
        for member in &class.members {
            write_member(out, member);
        }
    }
}

// What is written of the tree of a file.
fn write_file(alloc: Global, out: &mut Printer, source: &Source, kind: Kind) -> Result<(), Stop>
    requires { length source.now.bytes.now < 2 ^ 32 - 1 }
{
    let unit = parse_unit(alloc, source)?;
    match kind {
        Kind::Statements => write_statements(out, &unit),
        Kind::Members => write_members(out, &unit),
        Kind::FileTaken => out.bare("taken"),
        _ => write_unit(out, &unit),
    }
    Ok(())
}

// The trees of the sections of a stub file.
fn write_stub_file(alloc: Global, out: &mut Printer, source: &Source) -> Result<(), Stop>
    requires { length source.now.bytes.now < 2 ^ 32 - 1 }
{
    for unit in &parse_stub(alloc, source)? {
        write_unit(out, unit);
    }
    Ok(())
}

fn write_answer(alloc: Global, out: &mut Printer, texts: &Texts, bytes: &[u8]) -> Result<(), Stop>
    requires { length bytes.now < 2 ^ 32 - 1 }
{
    let tokens = lex(alloc, 0, bytes)?;
    let source = Source {
        file: 0,
        bytes,
        tokens: tokens.as_slice(),
    };
    match texts.kind {
        Kind::Tokens => {
            write_tokens(out, &source);
            Ok(())
        }
        Kind::ClassesOfTokens => {
            write_classes(out, &source);
            Ok(())
        }
        Kind::Expression => write_front_expression(alloc, out, &source, texts.level),
        Kind::Type => write_front_type(alloc, out, &source),
        Kind::Annotations => write_front_annotations(alloc, out, &source, texts.level),
        Kind::StubFile => write_stub_file(alloc, out, &source),
        Kind::Statements | Kind::Members | Kind::File | Kind::FileTaken => {
            write_file(alloc, out, &source, texts.kind)
        }
    }
}

// Puts the file that a text stands in.
fn put_file(texts: &Texts, text: &[u8], file: &mut Vec<u8>) -> Result<(), AllocError> {
    file.extend_from_slice(texts.front.as_bytes())?;
    if !texts.front.is_empty() {
        file.extend_from_slice(b"\n")?;
    }
    file.extend_from_slice(text)?;
    file.extend_from_slice(texts.back.as_bytes())
}

// The answer to a file, in words.
fn answer_to(alloc: Global, texts: &Texts, bytes: &[u8]) -> Option<String>
    requires { length bytes.now < 2 ^ 32 - 1 }
{
    let mut out = Printer::new(alloc, texts.with_places);
    match write_answer(alloc, &mut out, texts, bytes) {
        Ok(()) => {}
        Err(Stop::Refused(refusal)) => out.refusal(refusal),
        Err(Stop::TooMuch(refusal)) => out.number(refusal.code.number() as usize),
        Err(Stop::NoMemory) => out.fall_short(),
    }
    out.into_text()
}

/// The answer to a text, in words.
pub fn answer(alloc: Global, texts: &Texts, text: &[u8]) -> Result<String, FormFail> {
    let mut bytes = Vec::new(alloc);
    put_file(texts, text, &mut bytes)?;
    if MOST <= bytes.len() {
        return Err(FormFail::Section);
    }
    answer_to(alloc, texts, &bytes).ok_or(FormFail::NoMemory)
}
