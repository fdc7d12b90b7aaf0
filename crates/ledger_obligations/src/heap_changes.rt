//! What a heap loses and what changes in it by a test of each object.

ghost use Rattle.std.specs.Prelude.{◌≡◌};
ghost use Rattle.ledger_obligations.specs.Obligations.{end_frame, end_holder, given_up_by_frame, given_up_by_holder, is_field, is_frame, is_held_by};
ghost use Rattle.ledger_state.specs.Heaps.{changed_from};

use crate::unmet::given_up;
use ledger_state::{Heap, Object, Owner};
use program_model::FieldId;

/// Whether the owner is the field of the object with this number.
pub(crate) fn is_field(owner: Owner, holder: u64, field: FieldId) -> bool
    ensures { result ≡ is_field owner holder field }
{
    match owner {
        Owner::Field(number, found) => number == holder && found.0 == field.0,
        Owner::Frame(_) | Owner::Library | Owner::Released | Owner::Lost | Owner::Unowned => false,
    }
}

fn is_frame(owner: Owner, position: u64) -> bool
    ensures { result ≡ is_frame owner position }
{
    match owner {
        Owner::Frame(found) => found == position,
        Owner::Field(_, _) | Owner::Library | Owner::Released | Owner::Lost | Owner::Unowned =>
            false,
    }
}

fn is_held_by(owner: Owner, holder: u64) -> bool
    ensures { result ≡ is_held_by owner holder }
{
    match owner {
        Owner::Field(number, _) => number == holder,
        Owner::Frame(_) | Owner::Library | Owner::Released | Owner::Lost | Owner::Unowned => false,
    }
}

fn given_up_by_frame(position: u64, number: u64, x: Object) -> Object
    ensures { result ≡ given_up_by_frame position number x }
{
    if is_frame(x.owner, position) {
        given_up(x)
    } else {
        x
    }
}

fn given_up_by_holder(holder: u64, number: u64, x: Object) -> Object
    ensures { result ≡ given_up_by_holder holder number x }
{
    if is_held_by(x.owner, holder) {
        given_up(x)
    } else {
        x
    }
}

fn end_frame_of(position: u64, objects: &mut [Object])
    ensures { objects.new ≡ changed_from 1 (given_up_by_frame position) objects.old }
{
    'each: for place in 0..objects.len() {
        objects[place] = given_up_by_frame(position, place as u64 + 1, objects[place]);
    }
}

fn end_holder_of(holder: u64, objects: &mut [Object])
    ensures { objects.new ≡ changed_from 1 (given_up_by_holder holder) objects.old }
{
    'each: for place in 0..objects.len() {
        objects[place] = given_up_by_holder(holder, place as u64 + 1, objects[place]);
    }
}

/// The frame at this position ends, and gives up what it owns.
pub fn end_frame(position: u64, heap: &mut Heap)
    ensures { heap.new ≡ end_frame position heap.old }
{
    end_frame_of(position, &mut heap.objects);
}

/// The fields of this object, where there is one, give up what they own.
pub fn end_holder(holder: Option<u64>, heap: &mut Heap)
    ensures { heap.new ≡ end_holder holder heap.old }
{
    match holder {
        None => {}
        Some(number) => end_holder_of(number, &mut heap.objects),
    }
}
