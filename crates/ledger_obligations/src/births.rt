//! How an object gets its set and its owner.

ghost use Rattle.std.specs.Prelude.{◌≡◌};
ghost use Rattle.ledger_obligations.specs.Obligations.{alias_born, finished, first_set, linked_to};

use ledger_state::{Link, Object, Owner};
use must_call_sets::must;
use program_model::{ClassId, Program};
use rlc_base::NameSet;

/// The set of a fresh object of the class, where the signature bounds it by such a list or by none.
#[tactic(auto, using(crate::proofs::SetLaws::cut_set))]
pub fn first_set(p: &Program, class: ClassId, listed: Option<NameSet>) -> NameSet
    ensures { result ≡ first_set p.now class listed }
{
    match listed {
        None => must(p, class),
        Some(names) => must(p, class).minus(must(p, class).minus(names)),
    }
}

/// The object once it is finished.
pub fn finished(names: NameSet, owner: Owner, x: Object) -> Object
    ensures { result ≡ finished names owner x }
{
    Object {
        finished: true,
        must: names,
        owner,
        ..x
    }
}

/// The object once it is an alias of another.
pub fn linked_to(p: &Program, by_library: bool, to: u64, x: Object) -> Object
    ensures { result ≡ linked_to p.now by_library to x }
{
    Object {
        finished: true,
        must: must(p, x.class),
        link: Some(Link { to, by_library }),
        ..x
    }
}

/// The object once it is an alias of this argument; one of null has the empty set, and the library owns it.
pub fn alias_born(p: &Program, by_library: bool, of: Option<u64>, x: Object) -> Object
    ensures { result ≡ alias_born p.now by_library of x }
{
    match of {
        None => finished(NameSet::empty(), Owner::Library, x),
        Some(to) => linked_to(p, by_library, to, x),
    }
}
