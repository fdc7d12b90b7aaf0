//! The handles of facts.

ghost use Rattle.std.specs.Prelude.{◌≡◌, ◌<◌, length, IfOk};
ghost use Rattle.fact_pool.specs.Regions.{IsLive, list_of, with_list, most_values};
ghost use Rattle.reached_pairs.specs.Additions.{IsHandled};
ghost use Rattle.reached_pairs.specs.Visited.{IsExact};

use fact_pool::{Handle, Pool, Region};
use rlc_base::NoMemory;
use std::hash::Hash;

/// The handle of a fact in the region, if there is one.
pub(crate) fn handle_of<F: Copy + Eq + Hash>(
    pool: &mut Pool<F>,
    region: &Region,
    fact: Option<F>,
) -> Result<Option<Handle>, NoMemory>
    requires exact { IsExact F.eq }
    requires live { IsLive pool.old region.now }
    requires room { length (list_of pool.old region.now) < most_values }
    ensures handle { IfOk result (λ h. IsHandled (list_of pool.old region.now) fact h (list_of pool.new region.now)) }
    ensures others { pool.new ≡ with_list pool.old region.now (list_of pool.new region.now) }
    ensures live { IsLive pool.new region.now }
{
    match fact {
        None => Ok(None),
        Some(value) => {
            let (handle, _) = pool.intern(region, value)?;
            Ok(Some(handle))
        }
    }
}
