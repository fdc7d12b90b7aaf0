ghost use Rattle.std.specs.Prelude.{◌≡◌};
ghost use Rattle.java_grammar.specs.Lookahead.{candidate, find, found, is_in, led, rank, same};

use crate::choices::{default_of, productions};
use crate::starts::starts;
use java_syntax::{Item, Production, Symbol, Word, body};

/// The word's number, in the order of their declaration.
fn number_of(word: Word) -> u8
    ensures { result ≡ rank word }
{
    word as u8
}

/// Are these one word?
pub fn is_same(left: Word, right: Word) -> bool
    ensures { result ≡ same left right }
{
    number_of(left) == number_of(right)
}

/// Is the word one of these?
fn is_one_of(words: &[Word], word: Word) -> bool
    ensures { result ≡ is_in words.now word }
{
    for listed in words {
        if is_same(*listed, word) {
            return true;
        }
    }
    false
}

/// Can what the items of a production derive begin with the word?
fn is_led(items: &[Item], word: Word) -> bool
    ensures { result ≡ led items.now word }
{
    for item in items {
        match *item {
            Item::Take(first, _) => return is_same(first, word),
            Item::Read(symbol) => {
                if is_one_of(starts(symbol), word) {
                    return true;
                }
                if default_of(symbol).is_none() {
                    return false;
                }
            }
            Item::Do(_) => {}
        }
    }
    false
}

/// The first of the productions that the word can lead.
fn first_led(productions: &[Production], word: Word) -> Option<Production>
    ensures { result ≡ find word productions.now }
{
    for production in productions {
        if is_led(body(*production), word) {
            return Some(*production);
        }
    }
    None
}

/// The production of the symbol that the word can lead.
#[tactic(auto, unfolding(crate::specs::Lookahead::found))]
fn led_by(symbol: Symbol, word: Word) -> Option<Production>
    ensures { result ≡ found symbol word }
{
    first_led(productions(symbol), word)
}

/// The production that the next word chooses, or the end, whatever the conditions.
pub fn choose(symbol: Symbol, next: Option<Word>) -> Option<Production>
    ensures { result ≡ candidate symbol next }
{
    match next {
        Some(word) => match led_by(symbol, word) {
            Some(production) => Some(production),
            None => default_of(symbol),
        },
        None => default_of(symbol),
    }
}
