//! Keys of members, and the members that have the key of an earlier one.

ghost use Rattle.std.specs.Prelude.{◌≡◌, ◌++◌, ◌∷◌, [], ℕ, List, map, IfOk, OnOk};
ghost use Rattle.rlc_base.specs.Names.{texts};
ghost use Rattle.rlc_base.specs.declared.code.Code.TheVariants as refused;
ghost use Rattle.refusal_order.specs.Refusals.{least, where_true};
ghost use Rattle.class_names.specs.ClassNames.{is_among};
ghost use Rattle.class_checks.specs.MemberKeys.{double_keys, keyed_of};

use indexmap::IndexSet;
use refusal_order::{lesser_of, where_true};
use rlc_base::{Code, NoMemory, Pos, Refusal};
use std::alloc::Global;

/// What tells a member from the others of its class, with the place of its name.
#[derive(Drop)]
pub struct MemberKey {
    /// Equal in two members exactly where they are double.
    pub key: Vec<u32>,
    /// The place of its name.
    pub pos: Pos,
}

// The refusal of a member whose key is among those seen. It is seen then.
fn double_key(
    seen: &mut IndexSet<Vec<u32>>,
    member: &MemberKey,
) -> Result<Option<Refusal>, NoMemory>
    ensures case { IfOk result (λ r. r ≡ least (where_true (is_among (texts seen.old.keys) (keyed_of member.now).key) refused.DoubleMember member.now.pos)) }
    ensures seen { OnOk result ((q : List ℕ) → is_among (texts seen.new.keys) q ≡ is_among (texts seen.old.keys ++ (keyed_of member.now).key ∷ []) q) }
{
    let alloc = *seen.allocator();
    let key = member.key.as_slice().to_vec(alloc)?;
    let is_new = seen.insert(key)?;
    Ok(where_true(!is_new, Code::DoubleMember, member.pos))
}

/// The least refusal of members that have the key of an earlier one.
pub(crate) fn double_keys(alloc: Global, members: &[MemberKey]) -> Result<Option<Refusal>, NoMemory>
    ensures { IfOk result (λ r. r ≡ least (double_keys [] (map keyed_of members.now))) }
{
    let mut seen = IndexSet::new(alloc);
    let mut found = None;
    for member in members {
        let own = double_key(&mut seen, member)?;
        found = lesser_of(found, own);
    }
    Ok(found)
}
