ghost use Rattle.std.specs.Prelude.{◌≡◌, ◌∷◌, [], map, option_map, IfOk};
ghost use Rattle.java_syntax.specs.AnnotationTrees.{AnnoTree};
ghost use Rattle.java_syntax.specs.Derives.{lexeme_of, step_of, text_of};
ghost use Rattle.java_values.specs.NestedTrees.{lexeme_in};
ghost use Rattle.java_values.specs.Values.{AAnnotations, values_of};
ghost use Rattle.java_values.specs.Lists.{none_of};
ghost use Rattle.java_values.specs.Outcomes.{Gives, IsNoMisfit};
ghost use Rattle.java_exprs.specs.Evaluation as meaning;

use java_expression_actions::{
    perform_annotation_action, perform_expression_action, perform_token_action,
};
use java_statement_actions::{perform_declaration_action, perform_statement_action};
use java_syntax::{Action, Event, Token};
use java_values::{BuildFail, Lexeme, Value, leave, none};
use rlc_base::{NoMemory, Text};
use std::alloc::Global;

/// The bytes of a token, as far as the file has them.
fn bytes_of(bytes: &[u8], token: Token) -> &[u8]
    ensures { result.now ≡ text_of bytes.now token }
{
    let rest = bytes.get(token.start as usize..).unwrap_or(&[]);
    rest.get(..token.len as usize).unwrap_or(rest)
}

/// The token with its own copy of its bytes in the file.
fn lexeme(alloc: Global, bytes: &[u8], token: Token) -> Result<Lexeme, NoMemory>
    ensures { IfOk result (λ t. lexeme_in t ≡ lexeme_of bytes.now token) }
{
    let mut text = Text::new(alloc);
    text.push_bytes(bytes_of(bytes, token))?;
    Ok(Lexeme {
        word: token.word,
        text,
        pos: token.pos,
    })
}

/// Does an action, whose last token is this.
fn perform(
    alloc: Global,
    limit: u32,
    bytes: &[u8],
    last: Option<Token>,
    action: Action,
    stack: &mut Vec<Value>,
) -> Result<(), BuildFail>
    requires { IsNoMisfit (meaning.perform limit action (option_map (lexeme_of bytes.now) last) (values_of stack.old.items)) }
    ensures { Gives (λ _. values_of stack.new.items) result (meaning.perform limit action (option_map (lexeme_of bytes.now) last) (values_of stack.old.items)) }
{
    match action {
        Action::Token(action) => match last {
            Some(token) => {
                let taken = lexeme(alloc, bytes, token)?;
                perform_token_action(alloc, limit, taken, action, stack)
            }
            None => unreachable!(),
        },
        Action::Compute(action) => perform_expression_action(alloc, limit, action, stack),
        Action::Annotate(action) => perform_annotation_action(alloc, limit, action, stack),
        Action::State(action) => perform_statement_action(alloc, limit, action, stack),
        Action::Declare(action) => perform_declaration_action(alloc, limit, action, stack),
    }
}

/// The stack with which annotations begin: that there is none yet.
pub fn no_annotations(alloc: Global) -> Result<Vec<Value>, NoMemory>
    ensures { IfOk result (λ stack. values_of stack.items ≡ AAnnotations (none_of AnnoTree) ∷ []) }
{
    let mut stack = Vec::new(alloc);
    match leave(&mut stack, Value::Annotations(none(alloc))) {
        Ok(()) => Ok(stack),
        Err(_) => Err(NoMemory),
    }
}

/// What the steps of a derivation leave on the stack: its actions are done one after the other, each of which sees the last token.
///
/// # Errors
///
/// `TooDeep` where a node would be deeper than the limit.
pub fn evaluate(
    alloc: Global,
    limit: u32,
    bytes: &[u8],
    events: &[Event],
    start: Vec<Value>,
) -> Result<Vec<Value>, BuildFail>
    requires { IsNoMisfit (meaning.evaluate limit (map (step_of bytes.now) events.now) None (values_of start.items)) }
    ensures { Gives (λ stack. values_of stack.items) result (meaning.evaluate limit (map (step_of bytes.now) events.now) None (values_of start.items)) }
{
    let mut stack = start;
    let mut last = None;
    for event in events {
        match *event {
            Event::Took(token) => last = Some(token),
            Event::Used(_) => {}
            Event::Did(action) => perform(alloc, limit, bytes, last, action, &mut stack)?,
        }
    }
    Ok(stack)
}
