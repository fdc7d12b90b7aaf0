//! The places that a line names.

ghost use Rattle.std.specs.Prelude.{◌≡◌, min, option_map, IfSome};
ghost use Rattle.control_actions.specs.PlaceNumbers.{IsSmall};
ghost use Rattle.control_actions.specs.declared.place.Place.TheVariants as named;
ghost use Rattle.java_cfg.specs.Limits.{owning_count, variable_count};
ghost use Rattle.flow_certs.specs.Lines.{place_in, places_in, then_place, with_next_place};
ghost use Rattle.flow_certs.specs.Numbers.{number_below};

use crate::numbers::{cut, number_below};
use control_actions::{Place, Places};
use java_cfg::{MAX_OWNING_FIELDS, MAX_TEMPS, MAX_VARIABLES, owning_count, variable_count};
use program_model::{BodyId, Program};

// The parameter or local of this number.
fn variable_in(p: &Program, b: BodyId, digits: &[u8]) -> Option<Place>
    ensures place { result ≡ option_map (λ k. named.Var k) (number_below (min (variable_count p.now b) 160) digits.now) }
    ensures small { IfSome result (λ x. IsSmall x) }
{
    let number = number_below(variable_count(p, b).min(MAX_VARIABLES), digits)?;
    Some(Place::Var(number as u32))
}

// The owning field of this number.
fn field_in(p: &Program, b: BodyId, digits: &[u8]) -> Option<Place>
    ensures place { result ≡ option_map (λ k. named.Field k) (number_below (min (owning_count p.now b) 16) digits.now) }
    ensures small { IfSome result (λ x. IsSmall x) }
{
    let number = number_below(owning_count(p, b).min(MAX_OWNING_FIELDS), digits)?;
    Some(Place::Field(number as u32))
}

// The temp of this depth.
fn temp_in(digits: &[u8]) -> Option<Place>
    ensures place { result ≡ option_map (λ k. named.Temp k) (number_below 64 digits.now) }
    ensures small { IfSome result (λ x. IsSmall x) }
{
    let depth = number_below(MAX_TEMPS as usize, digits)?;
    Some(Place::Temp(depth as u32))
}

// The place that a word names.
fn place_in(p: &Program, b: BodyId, word: &[u8]) -> Option<Place>
    ensures place { result ≡ place_in p.now b word.now }
    ensures small { IfSome result (λ x. IsSmall x) }
{
    match word {
        [] => None,
        [first, digits @ ..] => {
            if word == b"this".as_slice() {
                Some(Place::This)
            } else if word == b"super".as_slice() {
                Some(Place::Super)
            } else if *first == b'v' {
                variable_in(p, b, digits)
            } else if *first == b'f' {
                field_in(p, b, digits)
            } else if *first == b't' {
                temp_in(digits)
            } else {
                None
            }
        }
    }
}

// The places with one more, and the number from which on the next one may follow.
fn with_next_place(least: u32, held: Places, place: Place) -> Option<(u32, Places)>
    requires { IsSmall place }
    ensures { result ≡ with_next_place (least, held) place }
{
    if place.number() >= least {
        Some((place.number() + 1, held.with(place)))
    } else {
        None
    }
}

// The places with that of one more word.
fn then_place(p: &Program, b: BodyId, so_far: (u32, Places), word: &[u8]) -> Option<(u32, Places)>
    ensures { result ≡ then_place so_far (place_in p.now b word.now) }
{
    let place = place_in(p, b, word)?;
    with_next_place(so_far.0, so_far.1, place)
}

/// The places that a text names, parted by commas, each behind those before it in the order of places.
pub(crate) fn places_in(p: &Program, b: BodyId, text: &[u8]) -> Option<Places>
    ensures { result ≡ places_in p.now b text.now }
{
    let mut rest = text;
    let mut so_far = (0, Places::empty());
    'words: while let Some((word, more)) = cut(rest, b',') {
        so_far = then_place(p, b, so_far, word)?;
        rest = more;
    }
    let all = then_place(p, b, so_far, rest)?;
    Some(all.1)
}
