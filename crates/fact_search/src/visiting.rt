//! The search.

ghost use Rattle.std.specs.Prelude.{◌≡◌, ◌+◌, ◌<◌, [], length, IfOk, IfErr, OnOk, Some};
ghost use Rattle.fact_pool.specs.Regions.{IsLive, list_of, with_list};
ghost use Rattle.fact_pool.specs.declared.handle.Handle.{Handle as DeclaredHandle};
ghost use Rattle.reached_pairs.specs.Visited.{IsExact, fact_in};
ghost use Rattle.fact_search.specs.Searched.{IsSearchCause, IsSearched};

use crate::transitions::Transitions;
use fact_pool::{Handle, Pool, Region};
use reached_pairs::Visits;
use rlc_base::{Pos, Stop};
use std::alloc::Global;
use std::hash::Hash;

// The fact of a handle.
fn fact_of<F: Copy + Eq + Hash>(
    pool: &Pool<F>,
    region: &Region,
    handle: Option<Handle>,
) -> Option<F>
    requires { (h : DeclaredHandle) → handle ≡ Some h → h.0 < length (list_of pool.now region.now) }
    ensures { result ≡ fact_in (list_of pool.now region.now) handle }
{
    match handle {
        None => None,
        Some(handle) => Some(pool.get(region, handle)),
    }
}

// Visits the starts.
fn begin<F: Copy + Eq + Hash, T: Transitions<F>>(
    alloc: Global,
    transitions: &T,
    pool: &mut Pool<F>,
    region: &Region,
    pos: Pos,
) -> Result<Visits, Stop>
    requires fits { T.fits transitions.now }
    requires exact { IsExact F.eq }
    requires live { IsLive pool.old region.now }
    requires empty { list_of pool.old region.now ≡ [] }
    ensures searched { IfOk result (λ v. IsSearched (T.starts transitions.now) (T.leads transitions.now) (list_of pool.new region.now) v.visits.keys v.pairs.items v.sources.items 0) }
    ensures cause { IfErr result (λ stop. IsSearchCause (T.starts transitions.now) (T.leads transitions.now) pos stop) }
    ensures others { pool.new ≡ with_list pool.old region.now (list_of pool.new region.now) }
    ensures live { IsLive pool.new region.now }
{
    let mut visits = Visits::new(alloc);
    let points = transitions.start_points(alloc)?;
    visits.add_all(pool, region, &points, pos)?;
    Ok(visits)
}

// Visits what one step leads to from the visit at the place.
fn go_on<F: Copy + Eq + Hash, T: Transitions<F>>(
    alloc: Global,
    transitions: &T,
    visits: &mut Visits,
    pool: &mut Pool<F>,
    region: &Region,
    at: usize,
    pos: Pos,
) -> Result<(), Stop>
    requires fits { T.fits transitions.now }
    requires exact { IsExact F.eq }
    requires live { IsLive pool.old region.now }
    requires searched { IsSearched (T.starts transitions.now) (T.leads transitions.now) (list_of pool.old region.now) visits.old.visits.keys visits.old.pairs.items visits.old.sources.items at }
    requires within { at < length visits.old.visits.keys }
    ensures searched { OnOk result (IsSearched (T.starts transitions.now) (T.leads transitions.now) (list_of pool.new region.now) visits.new.visits.keys visits.new.pairs.items visits.new.sources.items (at + 1)) }
    ensures cause { IfErr result (λ stop. IsSearchCause (T.starts transitions.now) (T.leads transitions.now) pos stop) }
    ensures others { pool.new ≡ with_list pool.old region.now (list_of pool.new region.now) }
    ensures live { IsLive pool.new region.now }
{
    let visit = visits.visit(at);
    let fact = fact_of(pool, region, visit.fact);
    let points = transitions.step_points(alloc, at, visit.node, fact)?;
    visits.add_all(pool, region, &points, pos)
}

/// Visits all that walks reach, in the empty list of a region, which has then the facts of the visits.
///
/// # Errors
///
/// `TooMuch` with code 65 at the given place where walks reach more than 1,000,000 pairs of a node and a fact. `NoMemory`
/// where memory runs out. The list of the region is open then, and other regions stay.
pub fn search<F: Copy + Eq + Hash, T: Transitions<F>>(
    alloc: Global,
    transitions: &T,
    pool: &mut Pool<F>,
    region: &Region,
    pos: Pos,
) -> Result<Visits, Stop>
    requires fits { T.fits transitions.now }
    requires exact { IsExact F.eq }
    requires live { IsLive pool.old region.now }
    requires empty { list_of pool.old region.now ≡ [] }
    ensures searched { IfOk result (λ v. IsSearched (T.starts transitions.now) (T.leads transitions.now) (list_of pool.new region.now) v.visits.keys v.pairs.items v.sources.items (length v.visits.keys)) }
    ensures cause { IfErr result (λ stop. IsSearchCause (T.starts transitions.now) (T.leads transitions.now) pos stop) }
    ensures others { pool.new ≡ with_list pool.old region.now (list_of pool.new region.now) }
    ensures live { IsLive pool.new region.now }
{
    let mut visits = begin(alloc, transitions, pool, region, pos)?;
    let mut done = 0;
    'visits: while done < visits.count() {
        go_on(alloc, transitions, &mut visits, pool, region, done, pos)?;
        done += 1;
    }
    Ok(visits)
}
