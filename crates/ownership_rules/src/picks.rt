//! The k-th of births that stand in several lists, one behind another.

ghost use Rattle.std.specs.Prelude.{◌≡◌};
ghost use Rattle.ownership_rules.specs.Picks.{found, pick};
ghost use Rattle.program_model.specs.Lookups.{optional};

use control_actions::{Fact, Origin};

/// What a search for the k-th birth gave.
#[derive(Clone, Copy)]
pub(crate) enum Pick {
    Found((Origin, Fact)),
    /// How many births are still to be passed.
    Past(u32),
}

/// The k-th birth of a list that has at most one.
#[tactic(auto, using(crate::proofs::PickLaws::one_laws))]
pub(crate) fn pick_one(birth: Option<(Origin, Fact)>, k: u32) -> Pick
    ensures { result ≡ pick (optional birth) k }
{
    match birth {
        None => Pick::Past(k),
        Some(only) => {
            if k == 0 {
                Pick::Found(only)
            } else {
                Pick::Past(k - 1)
            }
        }
    }
}

/// The birth that was found.
pub(crate) fn found(pick: Pick) -> Option<(Origin, Fact)>
    ensures { result ≡ found pick }
{
    match pick {
        Pick::Found(birth) => Some(birth),
        Pick::Past(_) => None,
    }
}
