//! What stands in a set of pairs, and in a list of origins.

ghost use Rattle.std.specs.Prelude.{◌↔◌, IsTrue, MatchOption};
ghost use Rattle.breadth_first.specs.Searches.{IsAt, Stands};

use crate::pair::Pair;
use control_actions::Origin;
use indexmap::IndexSet;

/// Whether a pair is among the pairs.
pub(crate) fn is_among(pairs: &IndexSet<Pair>, pair: &Pair) -> bool
    ensures { IsTrue result ↔ Stands pairs.now.keys pair.now }
{
    pairs.contains(pair)
}

/// The number of an origin in the list; none where it is not there.
pub(crate) fn number_of(origins: &IndexSet<Origin>, origin: &Origin) -> Option<usize>
    ensures { MatchOption result (Stands origins.now.keys origin.now → ⊥) (λ n. IsAt origins.now.keys n origin.now) }
{
    origins.get_index_of(origin)
}
