//! The class of an object that the library makes.

ghost use Rattle.std.specs.Prelude.{◌≡◌, ◌<◌, ◌≤◌, filter, slice_get, pos};
ghost use Rattle.std.specs.List.{range_with_len};
ghost use Rattle.stub_conduct.specs.Conducts.{candidates, class_count, class_or, fits, is_stand_in, library_in, must_in, picked, stand_ins};
ghost use Rattle.program_model.specs.Lookups.{class_at};

use program_model::{ClassId, Program, under};
use rlc_base::NameSet;

fn must_in(p: &Program, class: ClassId) -> NameSet
    ensures { result ≡ must_in (class_at p.now class) }
{
    match p.class(class) {
        None => NameSet::empty(),
        Some(found) => found.must,
    }
}

/// Whether the must-call set of `from` lies within that of `to`. A number of no class has the empty set.
pub fn fits(p: &Program, from: ClassId, to: ClassId) -> bool
    ensures { result ≡ fits p.now from to }
{
    must_in(p, from).is_subset(must_in(p, to))
}

fn is_library(p: &Program, class: ClassId) -> bool
    ensures { result ≡ library_in (class_at p.now class) }
{
    match p.class(class) {
        None => false,
        Some(found) => found.library,
    }
}

// Whether `class` is another library class under `declared`, and fits its must-call set.
fn is_stand_in(p: &Program, declared: ClassId, class: ClassId) -> bool
    ensures { result ≡ is_stand_in p.now declared class.0 }
{
    class.0 != declared.0
        && is_library(p, class)
        && under(p, class, declared)
        && fits(p, class, declared)
}

// How many classes have numbers.
fn class_count(p: &Program) -> u64
    ensures exact { result ≡ class_count p.now }
    ensures range { result ≤ 4294967296 }
{
    (p.classes.len() as u64).min(4294967296)
}

// The number of the class at this place, from 0, among those that may stand in for the declared one.
#[tactic(auto, using(crate::proofs::NumberSearch::search_laws))]
fn stand_in(p: &Program, declared: ClassId, place: u64) -> Option<u32>
    ensures { result ≡ slice_get (stand_ins p.now declared) place }
{
    let mut left = place;
    let count = class_count(p);
    'numbers: for number in 0..count {
        if is_stand_in(p, declared, ClassId(number as u32)) {
            if left == 0 {
                return Some(number as u32);
            }
            left -= 1;
        }
    }
    None
}

// The class at this place of the list of those that an object may have, or the declared one where there is none.
#[tactic(auto, using(crate::proofs::NumberSearch::place_laws))]
fn candidate(p: &Program, declared: ClassId, place: u64) -> ClassId
    ensures { result ≡ class_or declared (slice_get (candidates p.now declared) place) }
{
    if place == 0 {
        return declared;
    }
    match stand_in(p, declared, place - 1) {
        None => declared,
        Some(number) => ClassId(number),
    }
}

/// The class of an object that the library makes where `declared` is the declared one: that of the list at the place
/// `value`, or the declared one where the list has no such place. The list is the declared class, then the other
/// library classes under it, in class order, that fit its must-call set.
pub fn picked(p: &Program, declared: ClassId, value: i64) -> ClassId
    ensures { result ≡ picked p.now declared value }
{
    match u64::try_from(value) {
        Err(_) => declared,
        Ok(place) => candidate(p, declared, place),
    }
}
