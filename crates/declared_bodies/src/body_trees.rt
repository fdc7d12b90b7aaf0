//! Bodies as they are written.

ghost use Rattle.std.specs.Prelude.{◌≡◌, None, option_map};
ghost use Rattle.java_syntax.specs.DeclarationTrees.{super_call_of};
ghost use Rattle.class_declarations.specs.Members.{written_of};
ghost use Rattle.declared_bodies.specs.Bodies.{body_of, constructor_body, implied_body, method_body, written_body_of};
ghost use Rattle.declared_bodies.specs.SuperCalls.{super_call_at, super_call_in};

use crate::super_calls::ConstructorCall;
use class_declarations::MethodTree;
use java_syntax::{Block, ConstructorBody, Param, Stmt, SuperCall};
use rlc_base::Pos;

/// The body of a method or constructor as it is written.
#[derive(Clone, Copy)]
pub struct BodyTree<'d> {
    /// The call of a constructor of the super class that the body of a constructor begins with.
    pub super_call: Option<ConstructorCall<'d>>,
    /// The parameters of the method or constructor.
    pub parameters: &'d [Param],
    /// Its statements.
    pub statements: &'d [Stmt],
    /// The place of the closing brace, and that of the constructor where none is written.
    pub end: Pos,
}

// The call that is implied in a constructor, which has its place (JLS 8.8.7).
fn implied_call<'d>(pos: Pos) -> ConstructorCall<'d>
    ensures { super_call_in result ≡ super_call_at pos None }
{
    ConstructorCall {
        arguments: &[],
        pos,
        written: false,
    }
}

// The super call of a constructor, where it is written or implied.
fn super_call_at(pos: Pos, call: &Option<SuperCall>) -> ConstructorCall<'_>
    ensures { super_call_in result ≡ super_call_at pos (option_map super_call_of call.now) }
{
    match call {
        None => implied_call(pos),
        Some(found) => ConstructorCall {
            arguments: &found.arguments,
            pos: found.pos,
            written: true,
        },
    }
}

fn method_body<'d>(parameters: &'d [Param], body: &'d Option<Block>) -> Option<BodyTree<'d>>
    ensures { option_map written_body_of result ≡ method_body parameters.now body.now }
{
    match body {
        None => None,
        Some(block) => Some(BodyTree {
            super_call: None,
            parameters,
            statements: &block.statements,
            end: block.end,
        }),
    }
}

fn constructor_body<'d>(
    pos: Pos,
    parameters: &'d [Param],
    body: &'d Option<ConstructorBody>,
) -> Option<BodyTree<'d>>
    ensures { option_map written_body_of result ≡ constructor_body pos parameters.now body.now }
{
    match body {
        None => None,
        Some(found) => Some(BodyTree {
            super_call: Some(super_call_at(pos, &found.super_call)),
            parameters,
            statements: &found.block.statements,
            end: found.block.end,
        }),
    }
}

// The constructor of a class that declares none, at the class's name (JLS 8.8.9).
fn implied_body<'d>(pos: Pos) -> BodyTree<'d>
    ensures { written_body_of result ≡ implied_body pos }
{
    BodyTree {
        super_call: Some(implied_call(pos)),
        parameters: &[],
        statements: &[],
        end: pos,
    }
}

/// The body of what is written, if it has one.
pub(crate) fn body_of<'d>(tree: &MethodTree<'d>) -> Option<BodyTree<'d>>
    ensures { option_map written_body_of result ≡ body_of (written_of tree.now) }
{
    match *tree {
        MethodTree::Method(m) => method_body(&m.parameters, &m.body),
        MethodTree::Constructor(k) => constructor_body(k.name.pos, &k.parameters, &k.body),
        MethodTree::ImpliedConstructor(pos) => Some(implied_body(pos)),
        MethodTree::Constant(_, _) => None,
    }
}
