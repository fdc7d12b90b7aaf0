//! The births of what the owning fields of a body's class hold.

ghost use Rattle.std.specs.Prelude.{◌≡◌, true};
ghost use Rattle.std.specs.List.{filter_map};
ghost use Rattle.control_actions.specs.Owned.{place_of_field};
ghost use Rattle.control_actions.specs.PlaceNumbers.{IsSmall};
ghost use Rattle.ownership_rules.specs.Births.{field_birth, field_birth_place, field_births};
ghost use Rattle.ownership_rules.specs.Picks.{pick};
ghost use Rattle.ownership_rules.specs.Room.{HasRoom};

use crate::origins::{born, fact_at};
use crate::picks::{Pick, pick_one};
use control_actions::{Fact, Mode, Origin, OriginKind, field_place};
use must_call_sets::{fields_of, has_field_place};
use program_model::{BodyId, Field, FieldId, Program};
use rlc_base::{NameSet, Pos};

// At an entry the place is that of the field's declared name, and else that of the step.
fn field_birth_place(pos: Option<Pos>, field: &Field) -> Pos
    ensures { result ≡ field_birth_place pos field.now }
{
    match pos {
        None => field.pos,
        Some(step) => step,
    }
}

// What an owning field of the body's class holds.
fn field_birth(p: &Program, b: BodyId, pos: Option<Pos>, f: FieldId) -> Option<(Origin, Fact)>
    requires { HasRoom p.now b }
    ensures { result ≡ field_birth p.now b pos f }
{
    if has_field_place(p, b, f) {
        match p.field(f) {
            None => None,
            Some(field) => born(
                p,
                OriginKind::FieldAt(f),
                field_birth_place(pos, field),
                Some(field.vtype),
                None,
                fact_at(field_place(p, f), Mode::Held, NameSet::empty(), true),
            ),
        }
    } else {
        None
    }
}

/// The k-th birth of what the owning fields of the body's class hold.
#[tactic(auto, using(crate::proofs::PickLaws::pick_laws))]
pub(crate) fn pick_field(p: &Program, b: BodyId, pos: Option<Pos>, k: u32) -> Pick
    requires { HasRoom p.now b }
    ensures { result ≡ pick (field_births p.now b pos) k }
{
    let mut left = k;
    for f in fields_of(p, b) {
        match pick_one(field_birth(p, b, pos, *f), left) {
            Pick::Found(birth) => return Pick::Found(birth),
            Pick::Past(rest) => left = rest,
        }
    }
    Pick::Past(left)
}
