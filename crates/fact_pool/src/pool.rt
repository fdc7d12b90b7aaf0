//! The pool: lists of distinct values, one for each live region.
ghost use Rattle.std.specs.Prelude.{◌≡◌, ◌+◌, ◌<◌, ◌↔◌, min, length, slice_get, [], IsTrue, IfOk, OnOk, OnErr};
ghost use Rattle.std.specs.FinMap as map;
ghost use Rattle.std.specs.List.{IsDistinct};
ghost use Rattle.fact_pool.specs.Regions.{IsLive, list_of, with_list, without_list, IsSound, AreEqualAt, most_values, most_begun};
ghost use Rattle.fact_pool.specs.Intern.{IsInterned};

use crate::handle::{Handle, Region};
use indexmap::IndexSet;
use rlc_base::NoMemory;
use slab::Slab;
use std::alloc::Global;
use std::hash::Hash;
use std::marker::Model;

/// Lists of distinct values, each under a live region, with a count of the regions that were begun.
///
/// A value stands once in its list, so equal values of a region have one handle until the region is released. A list
/// only grows at its end, so a handle keeps its value.
#[derive(Drop)]
pub struct Pool<T: Copy + Eq + Hash> {
    lists: Slab<IndexSet<T>>,
    begun: u64,
}

impl<T: Copy + Eq + Hash> Model for Pool<T> {
    ghost use Rattle.fact_pool.specs.Regions.{Regions, regions_code, IsSound};

    ghost Value = { Regions T };

    ghost coded = { regions_code T.code };

    ghost use Rattle.fact_pool.specs.Layout.{regions_of};

    ghost view = { λ p. regions_of p.lists.slots p.begun };

    ghost invariant = { λ p. IsSound T.eq (regions_of p.lists.slots p.begun) };
}

impl<T: Copy + Eq + Hash> Pool<T> {
    /// A pool with no live region. It takes no memory until the first `begin`.
    pub fn new(alloc: Global) -> Pool<T>
        ensures lists { result.lists ≡ map.empty }
        ensures begun { result.begun ≡ 0 }
        ensures sound { IsSound T.eq result }
    {
        Pool {
            lists: Slab::new(alloc),
            begun: 0,
        }
    }

    /// Adds an empty list, under a region that was not live. For want of memory it changes nothing.
    pub fn begin(&mut self, alloc: Global) -> Result<Region, NoMemory>
        ensures fresh { IfOk result (λ r. ¬ (IsLive self.old r)) }
        ensures lists { IfOk result (λ r. self.new.lists ≡ map.insert self.old.lists r []) }
        ensures live { IfOk result (IsLive self.new) }
        ensures empty { IfOk result (λ r. list_of self.new r ≡ []) }
        ensures begun { OnOk result (self.new.begun ≡ min (self.old.begun + 1) most_begun) }
        ensures err { OnErr result (self.new ≡ self.old) }
        ensures sound { IsSound T.eq self.new }
    {
        self.lists.reserve(1)?;
        let key = self.lists.insert_reserved(IndexSet::new(alloc));
        self.begun = self.begun.saturating_add(1);
        Ok(Region { key })
    }

    /// How many regions were begun so far, or 18,446,744,073,709,551,615 where they were more.
    pub fn begun(&self) -> u64
        ensures begun { result ≡ self.now.begun }
        ensures sound { IsSound T.eq self.now }
    {
        self.begun
    }

    /// The handle of `value` in the list of `region`, and whether it is new there. A value that stands in the list
    /// already keeps its place and takes no memory; another goes to the end. For want of memory nothing changes.
    pub fn intern(&mut self, region: &Region, value: T) -> Result<(Handle, bool), NoMemory>
        requires live { IsLive self.old region.now }
        requires room { length (list_of self.old region.now) < most_values }
        ensures list { let xs = list_of self.old region.now in
            IsInterned T.eq xs value result (list_of self.new region.now) }
        ensures place { IfOk result (λ p. p.0.0 < length (list_of self.new region.now)) }
        ensures others { self.new ≡ with_list self.old region.now (list_of self.new region.now) }
        ensures live { IsLive self.new region.now }
        ensures err { OnErr result (self.new ≡ self.old) }
        ensures sound { IsSound T.eq self.new }
    {
        intern_in(&mut self.lists[region.key], value)
    }

    /// The value that `handle` stands for in `region`.
    pub fn get(&self, region: &Region, handle: Handle) -> T
        requires { handle.0 < length (list_of self.now region.now) }
        ensures value { slice_get (list_of self.now region.now) handle.0 ≡ Some result }
        ensures sound { IsSound T.eq self.now }
    {
        self.lists[region.key][handle.0 as usize]
    }

    /// Whether two handles of `region` stand for equal values: they do exactly where they are the same handle.
    pub fn is_same_value(&self, region: &Region, first: Handle, second: Handle) -> bool
        requires first { first.0 < length (list_of self.now region.now) }
        requires second { second.0 < length (list_of self.now region.now) }
        ensures handles { IsTrue result ↔ (first ≡ second) }
        ensures values { AreEqualAt T.eq (list_of self.now region.now) first.0 second.0 result }
    {
        let _ = &self.lists;
        first == second
    }

    /// Gives up the list of `region`, and answers how many values it had.
    pub fn release(&mut self, region: Region) -> u32
        requires { IsLive self.old region }
        ensures len { result ≡ length (list_of self.old region) }
        ensures lists { self.new ≡ without_list self.old region }
        ensures sound { IsSound T.eq self.new }
    {
        let Region { key } = region;
        self.lists.remove(key).len() as u32
    }
}

// The handle of `value` in a list, and whether it is new there.
fn intern_in<T: Copy + Eq + Hash>(
    list: &mut IndexSet<T>,
    value: T,
) -> Result<(Handle, bool), NoMemory>
    requires { length list.old.keys < most_values }
    ensures list { IsInterned T.eq list.old.keys value result list.new.keys }
    ensures distinct { IsDistinct T.eq list.new.keys }
{
    match list.insert_full(value) {
        Ok((place, is_new)) => Ok((Handle(place as u32), is_new)),
        Err(_) => Err(NoMemory),
    }
}
