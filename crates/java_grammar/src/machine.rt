ghost use Rattle.std.specs.Prelude.{◌≡◌, ◌++◌, ◌∷◌, [], List, reverse, map, IfOk, IfErr, MatchOption, Bool, true, false};
ghost use Rattle.java_syntax.specs.Derives.{Step, step_of};
ghost use Rattle.java_syntax.specs.declared.symbols.Item.TheVariants.{Do, Read, Take};
ghost use Rattle.java_grammar.specs.declared.machine.DeriveFail.TheVariants as fails;
ghost use Rattle.java_grammar.specs.Lookahead.{choice};
ghost use Rattle.java_grammar.specs.Reached.{surroundings_of, lexemes_of, Keeps, IsSettledStack, IsNoAction, HasNoWord, Acts, Replaces, Advances, Ends};
ghost use Rattle.java_grammar.specs.Refusal.{IsDerivation, IsRefusal};

use crate::conditions::{Context, advance, enter, is_allowed, new_context};
use crate::lookahead::{choose, is_same};
use java_syntax::{Action, Effect, Event, Item, Production, Symbol, Token, Word, body};
use std::alloc::{AllocError, AllocFailed, Global};
use thiserror::Error;

/// What is still to come, and what was read.
#[derive(Drop)]
pub struct Machine {
    /// The items that are still to come, the next one last.
    pub stack: Vec<Item>,
    /// What the conditions look at.
    pub context: Context,
    /// The derivation so far.
    pub events: Vec<Event>,
}

/// Why nothing was derived.
#[derive(Clone, Copy, Debug, Error)]
pub enum DeriveFail {
    /// The token of this number, counted from 0, is wrong; the number of all tokens stands for the end.
    #[error("the token {0} is wrong")]
    WrongAt(usize),
    /// Memory ran out.
    #[error("out of memory")]
    NoMemory,
}

impl From<AllocError> for DeriveFail {
    ghost from_gives = { λ _ fail. fail ≡ fails.NoMemory };

    fn from(_error: AllocError) -> DeriveFail {
        DeriveFail::NoMemory
    }
}

impl<T: Drop> From<AllocFailed<T>> for DeriveFail {
    ghost from_gives = { λ _ fail. fail ≡ fails.NoMemory };

    fn from(_error: AllocFailed<T>) -> DeriveFail {
        DeriveFail::NoMemory
    }
}

/// Puts the value at the end of the list.
fn append<T: Drop>(list: &mut Vec<T>, value: T) -> Result<(), AllocError>
    ensures { IfOk result (λ _. list.new.items ≡ list.old.items ++ value ∷ []) }
{
    list.push(value)?;
    Ok(())
}

/// Puts the items on the stack, so that the first comes next.
fn put(stack: &mut Vec<Item>, items: &[Item]) -> Result<(), AllocError>
    ensures { IfOk result (λ _. stack.new.items ≡ stack.old.items ++ reverse items.now) }
{
    for item in items.iter().rev() {
        append(stack, *item)?;
    }
    Ok(())
}

/// Takes the next item off the stack where it is an action.
fn pop_action(stack: &mut Vec<Item>) -> Option<Action>
    ensures { MatchOption result (IsNoAction (reverse stack.old.items) × (stack.new.items ≡ stack.old.items)) (λ a. stack.old.items ≡ stack.new.items ++ Do a ∷ []) }
{
    let top = match stack.last() {
        Some(item) => *item,
        None => return None,
    };
    match top {
        Item::Do(action) => {
            stack.pop();
            Some(action)
        }
        Item::Take(_, _) => None,
        Item::Read(_) => None,
    }
}

/// Does the actions that come next.
fn act(machine: &mut Machine) -> Result<(), AllocError>
    ensures { IfOk result (λ _. Acts machine.old machine.new) }
{
    while let Some(action) = pop_action(&mut machine.stack) {
        append(&mut machine.events, Event::Did(action))?;
    }
    Ok(())
}

/// Takes the next item off the stack where it is a symbol, and leaves the stack as it is elsewhere.
fn pop_symbol(stack: &mut Vec<Item>) -> Option<Symbol>
    requires { IsNoAction (reverse stack.old.items) }
    ensures { MatchOption result (IsSettledStack stack.old.items × (stack.new.items ≡ stack.old.items)) (λ s. stack.old.items ≡ stack.new.items ++ Read s ∷ []) }
{
    let top = match stack.last() {
        Some(item) => *item,
        None => return None,
    };
    match top {
        Item::Read(symbol) => {
            stack.pop();
            Some(symbol)
        }
        Item::Take(_, _) => None,
        Item::Do(_) => unreachable!(),
    }
}

/// The production that the next word, or the end, chooses for the symbol there.
fn choose_allowed(
    bytes: &[u8],
    symbol: Symbol,
    context: Context,
    next: Option<Word>,
) -> Option<Production>
    ensures { result ≡ choice symbol (surroundings_of bytes.now context) next }
{
    match choose(symbol, next) {
        Some(production) => {
            if is_allowed(bytes, production, context) {
                Some(production)
            } else {
                None
            }
        }
        None => None,
    }
}

/// Uses the production in the place of its symbol, which is off the stack, and does the actions that come next then.
fn replace(machine: &mut Machine, production: Production) -> Result<(), AllocError>
    ensures { IfOk result (λ _. Replaces production machine.old machine.new) }
{
    put(&mut machine.stack, body(production))?;
    machine.context = enter(production, machine.context);
    append(&mut machine.events, Event::Used(production))?;
    act(machine)
}

/// Uses productions and does actions until a word comes next or nothing. False where no sentence goes on with the next word.
fn settle(machine: &mut Machine, bytes: &[u8], next: Option<Word>) -> Result<bool, AllocError>
    ensures { IfOk result (λ b. Keeps bytes.now next machine.old machine.new b) }
{
    act(machine)?;
    while let Some(symbol) = pop_symbol(&mut machine.stack) {
        let Some(production) = choose_allowed(bytes, symbol, machine.context, next) else {
            return Ok(false);
        };
        replace(machine, production)?;
    }
    Ok(true)
}

/// Takes the next item off the stack where it is a word.
fn pop_word(stack: &mut Vec<Item>) -> Option<(Word, Effect)>
    ensures { MatchOption result (HasNoWord stack.old.items) (λ w. stack.old.items ≡ stack.new.items ++ Take w.0 w.1 ∷ []) }
{
    let top = match stack.last() {
        Some(item) => *item,
        None => return None,
    };
    match top {
        Item::Read(_) => None,
        Item::Do(_) => None,
        Item::Take(word, effect) => {
            stack.pop();
            Some((word, effect))
        }
    }
}

/// Takes the token. False where no sentence goes on with it.
fn take(machine: &mut Machine, bytes: &[u8], token: Token) -> Result<bool, AllocError>
    ensures { IfOk result (λ b. Advances bytes.now token machine.old machine.new b) }
{
    if !settle(machine, bytes, Some(token.word))? {
        return Ok(false);
    }
    let Some((word, effect)) = pop_word(&mut machine.stack) else {
        return Ok(false);
    };
    if !is_same(word, token.word) {
        return Ok(false);
    }
    machine.context = advance(effect, token, machine.context);
    append(&mut machine.events, Event::Took(token))?;
    Ok(true)
}

/// Ends. False where the sentence is not yet whole.
fn finish(machine: &mut Machine, bytes: &[u8]) -> Result<bool, AllocError>
    ensures { IfOk result (λ b. Ends bytes.now machine.old machine.new b) }
{
    if !settle(machine, bytes, None)? {
        return Ok(false);
    }
    match pop_word(&mut machine.stack) {
        Some(_) => Ok(false),
        None => Ok(true),
    }
}

/// The derivation of the tokens of a file with these bytes from the symbol, as `Symbol::CompilationUnit` of a source file's
/// tokens, or `Symbol::StubFile` of a stub's.
///
/// # Errors
///
/// `WrongAt` names the token at which no sentence of the grammar goes on, though one begins with all tokens before it.
pub fn derive(
    alloc: Global,
    start: Symbol,
    is_stub: bool,
    bytes: &[u8],
    tokens: &[Token],
) -> Result<Vec<Event>, DeriveFail>
    ensures derived { IfOk result (λ events. IsDerivation is_stub start (lexemes_of bytes.now tokens.now) (map (step_of bytes.now) events.items)) }
    ensures one_derivation { IfOk result (λ events. (steps : List Step) → IsDerivation is_stub start (lexemes_of bytes.now tokens.now) steps → steps ≡ map (step_of bytes.now) events.items) }
    ensures refused { IfErr result (λ fail. IsRefusal is_stub start (lexemes_of bytes.now tokens.now) fail) }
{
    let mut machine = Machine {
        stack: Vec::new(alloc),
        context: new_context(is_stub),
        events: Vec::new(alloc),
    };
    put(&mut machine.stack, &[Item::Read(start)])?;
    for (at, token) in tokens.iter().enumerate() {
        if !take(&mut machine, bytes, *token)? {
            return Err(DeriveFail::WrongAt(at));
        }
    }
    if !finish(&mut machine, bytes)? {
        return Err(DeriveFail::WrongAt(tokens.len()));
    }
    Ok(machine.events)
}
