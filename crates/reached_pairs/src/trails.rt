//! What is read of a list of visits.

ghost use Rattle.std.specs.Prelude.{◌≡◌, ◌<◌, ◌^◌, length, reverse, slice_get, Some, IfOk};
ghost use Rattle.breadth_first.specs.Searches.{IsChain};
ghost use Rattle.reached_pairs.specs.Trails.{AreBehind, IsBack, IsBackToStart};
ghost use Rattle.reached_pairs.specs.Visited.{sources_in};

use crate::lists::Visits;
use crate::visit::{Source, Visit};
use fact_pool::Handle;
use std::alloc::{AllocError, Global};

impl Visits {
    /// The nodes and the handles of the visits with a fact, in the order in which the search came to them.
    pub fn pairs(&self) -> &[(u32, Handle)]
        ensures { result.now ≡ self.now.pairs.items }
    {
        &self.pairs
    }

    /// The number of visits.
    pub fn count(&self) -> usize
        ensures count { result ≡ length self.now.visits.keys }
        ensures small { result < 2 ^ 63 }
    {
        self.visits.len()
    }

    /// The visit at a place.
    pub fn visit(&self, at: usize) -> Visit
        requires { at < length self.now.visits.keys }
        ensures { slice_get self.now.visits.keys at ≡ Some result }
    {
        self.visits[at]
    }

    // The steps that lead to the visit at a place, the last one first.
    fn steps_back(&self, alloc: Global, at: usize) -> Result<Vec<Source>, AllocError>
        requires within { at < length self.now.sources.items }
        requires behind { AreBehind self.now.sources.items }
        ensures { IfOk result (λ v. IsBackToStart self.now.sources.items v.items at) }
    {
        let mut back = Vec::new(alloc);
        let mut place = at;
        'back: while let Some(source) = self.sources[place] {
            back.push(source)?;
            place = source.visit;
        }
        Ok(back)
    }

    /// The steps by which the search came first to the visit at a place, from a start on. Each step goes on from an earlier
    /// visit.
    pub fn steps_to(&self, alloc: Global, at: usize) -> Result<Vec<Source>, AllocError>
        requires within { at < length self.now.sources.items }
        requires behind { AreBehind self.now.sources.items }
        ensures trail { IfOk result (λ v. IsBackToStart self.now.sources.items (reverse v.items) at) }
        ensures chain { IfOk result (λ v. IsChain (sources_in self.now.sources.items) (length v.items) at) }
    {
        let mut steps = self.steps_back(alloc, at)?;
        steps.reverse();
        Ok(steps)
    }
}
