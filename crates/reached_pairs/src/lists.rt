//! The list of visits.

ghost use Rattle.std.specs.Prelude.{◌≡◌, ◌+◌, ◌<◌, ◌≤◌, ◌++◌, ◌∷◌, [], length, slice_get, Some, IfErr, OnOk};
ghost use Rattle.breadth_first.specs.Searches.{Extends};
ghost use Rattle.fact_pool.specs.Regions.{IsLive, list_of, with_list};
ghost use Rattle.reached_pairs.specs.Additions.{IsAddCause, IsPairCause, IsPut, IsPutCause, point_of, points_in};
ghost use Rattle.reached_pairs.specs.Visited.{AreVisits, IsExact, found_in, pair_of, sources_in};

use crate::handles::handle_of;
use crate::visit::{Point, Source, Visit};
use fact_pool::{Handle, Pool, Region};
use indexmap::IndexSet;
use rlc_base::{Code, Pos, Refusal, Stop};
use std::alloc::Global;
use std::hash::Hash;

/// The most pairs of a node and a fact that a search may reach.
pub const MAX_PAIRS: usize = 1_000_000;

/// The visits of a search, each once, in the order in which the search came to them, with the step by which it came
/// first; none for a start.
#[derive(Drop)]
pub struct Visits {
    pub(crate) visits: IndexSet<Visit>,
    pub(crate) sources: Vec<Option<Source>>,
    pub(crate) pairs: Vec<(u32, Handle)>,
}

// Puts the pair of a visit with a fact last.
fn put_pair(pairs: &mut Vec<(u32, Handle)>, visit: Visit, pos: Pos) -> Result<(), Stop>
    ensures pairs { OnOk result (pairs.new.items ≡ pairs.old.items ++ pair_of visit) }
    ensures few { OnOk result (length pairs.old.items ≤ 1000000 → length pairs.new.items ≤ 1000000) }
    ensures cause { IfErr result (λ stop. IsPairCause pos (length (pairs.old.items ++ pair_of visit)) stop) }
{
    match visit.fact {
        None => Ok(()),
        Some(handle) => {
            pairs.push((visit.node, handle))?;
            if pairs.len() > MAX_PAIRS {
                return Err(Refusal {
                    code: Code::TooManyFacts,
                    pos,
                }
                .stop());
            }
            Ok(())
        }
    }
}

impl Visits {
    /// A list of no visits. It takes no memory.
    pub fn new(alloc: Global) -> Visits
        ensures visits { result.visits.keys ≡ [] }
        ensures sources { result.sources.items ≡ [] }
        ensures pairs { result.pairs.items ≡ [] }
    {
        Visits {
            visits: IndexSet::new(alloc),
            sources: Vec::new(alloc),
            pairs: Vec::new(alloc),
        }
    }

    // Puts a visit last with its source, unless it is there.
    fn put(&mut self, visit: Visit, source: Option<Source>, pos: Pos) -> Result<(), Stop>
        ensures put { OnOk result (IsPut self.old.visits.keys self.old.sources.items self.old.pairs.items visit source self.new.visits.keys self.new.sources.items self.new.pairs.items) }
        ensures few { OnOk result (length self.old.pairs.items ≤ 1000000 → length self.new.pairs.items ≤ 1000000) }
        ensures cause { IfErr result (λ stop. IsPutCause self.old.visits.keys self.old.pairs.items visit pos stop) }
    {
        let (_, is_new) = self.visits.insert_full(visit)?;
        if is_new {
            self.sources.push(source)?;
            put_pair(&mut self.pairs, visit, pos)
        } else {
            Ok(())
        }
    }

    // Comes to a point.
    fn add<F: Copy + Eq + Hash>(
        &mut self,
        pool: &mut Pool<F>,
        region: &Region,
        point: &Point<F>,
        pos: Pos,
    ) -> Result<(), Stop>
        requires exact { IsExact F.eq }
        requires live { IsLive pool.old region.now }
        requires visits { AreVisits (list_of pool.old region.now) self.old.visits.keys self.old.pairs.items }
        ensures visits { OnOk result (AreVisits (list_of pool.new region.now) self.new.visits.keys self.new.pairs.items) }
        ensures extends { OnOk result (Extends (found_in (list_of pool.old region.now) self.old.visits.keys) (sources_in self.old.sources.items) (point_of point.now ∷ [])
            (found_in (list_of pool.new region.now) self.new.visits.keys) (sources_in self.new.sources.items)) }
        ensures cause { IfErr result (λ stop. IsAddCause (found_in (list_of pool.old region.now) self.old.visits.keys) (point_of point.now ∷ []) pos stop) }
        ensures others { pool.new ≡ with_list pool.old region.now (list_of pool.new region.now) }
        ensures live { IsLive pool.new region.now }
    {
        let fact = handle_of(pool, region, point.fact)?;
        self.put(
            Visit {
                node: point.node,
                fact,
            },
            point.source,
            pos,
        )
    }

    /// Comes to each of the points, in order: puts what was not visited yet last, with its source. The visits and the
    /// list of the region are those that earlier calls made.
    ///
    /// # Errors
    ///
    /// `TooMuch` with code 65 at the given place where more than 1,000,000 pairs of a node and a fact are reached.
    /// `NoMemory` where memory runs out. The list of the region is open then, and other regions stay.
    pub fn add_all<F: Copy + Eq + Hash>(
        &mut self,
        pool: &mut Pool<F>,
        region: &Region,
        points: &[Point<F>],
        pos: Pos,
    ) -> Result<(), Stop>
        requires exact { IsExact F.eq }
        requires live { IsLive pool.old region.now }
        requires visits { AreVisits (list_of pool.old region.now) self.old.visits.keys self.old.pairs.items }
        ensures visits { OnOk result (AreVisits (list_of pool.new region.now) self.new.visits.keys self.new.pairs.items) }
        ensures extends { OnOk result (Extends (found_in (list_of pool.old region.now) self.old.visits.keys) (sources_in self.old.sources.items) (points_in points.now)
            (found_in (list_of pool.new region.now) self.new.visits.keys) (sources_in self.new.sources.items)) }
        ensures cause { IfErr result (λ stop. IsAddCause (found_in (list_of pool.old region.now) self.old.visits.keys) (points_in points.now) pos stop) }
        ensures others { pool.new ≡ with_list pool.old region.now (list_of pool.new region.now) }
        ensures live { IsLive pool.new region.now }
    {
        for point in points {
            self.add(pool, region, point, pos)?;
        }
        Ok(())
    }
}
