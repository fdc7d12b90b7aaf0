//! Lists of items that share their tails, kept in one table and named by number.

ghost use Rattle.std.specs.Prelude.{◌≡◌, ◌<◌, ◌≤◌, ◌++◌, [], max, map, drop, length, IfOk, IfSome};
ghost use Rattle.control_actions.specs.Tables.{IsFirst, Keeps, highest, highest_of, list_at, view_in};
ghost use Rattle.control_actions.specs.Remaining.{cons, nil, one, todos};
ghost use Rattle.control_actions.specs.Tables.{IsOrdered};

use crate::cell::Cell;
use crate::item::Item;
use indexmap::IndexSet;
use rlc_base::NoMemory;
use std::alloc::Global;

/// A table of lists of items, in which lists share their tails, and equal lists have one number. 0 is the empty list, and
/// k + 1 the list that begins with cell k.
#[derive(Drop)]
pub struct Lists {
    pub cells: IndexSet<Cell>,
    ghost ordered: { IsOrdered cells.keys },
}

impl Lists {
    /// A table with the empty list alone, which takes no memory yet.
    pub fn new(alloc: Global) -> Lists
        ensures { result.cells.keys ≡ [] }
    {
        Lists {
            cells: IndexSet::new(alloc),
        }
    }

    /// The number of the empty list.
    #[tactic(auto, using(crate::proofs::TableLemmas::list_at_zero))]
    pub fn empty(&self) -> usize
        ensures zero { result ≡ 0 }
        ensures list { list_at self.now.cells.keys result ≡ nil }
    {
        0
    }

    /// The number of the list that begins with `item`, with the list `tail` behind it.
    pub fn push(&mut self, item: Item, tail: usize) -> Result<usize, NoMemory>
        requires { max (highest item) tail ≤ length self.old.cells.keys }
        ensures list { IfOk result (λ id. list_at self.new.cells.keys id ≡ cons (view_in self.old.cells.keys item) (list_at self.old.cells.keys tail)) }
        ensures within { IfOk result (λ id. id ≤ length self.new.cells.keys) }
        ensures kept { Keeps self.old.cells.keys self.new.cells.keys }
    {
        let (index, _) = self.cells.insert_full(Cell { item, tail })?;
        let _count = self.cells.len();
        Ok(index + 1)
    }

    /// The number of the list of one item.
    pub fn single(&mut self, item: Item) -> Result<usize, NoMemory>
        requires { highest item ≤ length self.old.cells.keys }
        ensures list { IfOk result (λ id. list_at self.new.cells.keys id ≡ one (view_in self.old.cells.keys item)) }
        ensures within { IfOk result (λ id. id ≤ length self.new.cells.keys) }
        ensures kept { Keeps self.old.cells.keys self.new.cells.keys }
    {
        let none = self.empty();
        self.push(item, none)
    }

    /// The first item of a list and the number of the list behind it.
    #[tactic(auto, using(crate::proofs::TableLemmas::list_at_zero))]
    pub fn first(&self, id: usize) -> Option<Cell>
        requires { id ≤ length self.now.cells.keys }
        ensures first { IsFirst self.now.cells.keys (list_at self.now.cells.keys id) result }
        ensures earlier { IfSome result (λ c. c.tail < id) }
    {
        if id == 0 {
            None
        } else {
            self.cells.get_index(id - 1).copied()
        }
    }

    /// The number of the list that these items and the list `tail` behind them make.
    pub fn push_all(&mut self, items: &[Item], tail: usize) -> Result<usize, NoMemory>
        requires { max (highest_of items.now) tail ≤ length self.old.cells.keys }
        ensures list { IfOk result (λ id. todos (list_at self.new.cells.keys id) ≡ map (view_in self.old.cells.keys) items.now ++ todos (list_at self.old.cells.keys tail)) }
        ensures within { IfOk result (λ id. id ≤ length self.new.cells.keys) }
        ensures kept { Keeps self.old.cells.keys self.new.cells.keys }
    {
        let mut at = tail;
        let mut left = items.len();
        while left > 0 {
            left -= 1;
            at = self.push(items[left], at)?;
        }
        Ok(at)
    }

    /// The number of the list that one list and another behind it make.
    pub fn append(&mut self, front: usize, tail: usize) -> Result<usize, NoMemory>
        requires { max front tail ≤ length self.old.cells.keys }
        ensures list { IfOk result (λ id. todos (list_at self.new.cells.keys id) ≡ todos (list_at self.old.cells.keys front) ++ todos (list_at self.old.cells.keys tail)) }
        ensures within { IfOk result (λ id. id ≤ length self.new.cells.keys) }
        ensures kept { Keeps self.old.cells.keys self.new.cells.keys }
    {
        match self.first(front) {
            None => Ok(tail),
            Some(cell) => {
                let behind = self.append(cell.tail, tail)?;
                self.push(cell.item, behind)
            }
        }
    }

    /// The number of a list without its first `count` items.
    pub fn skip(&self, id: usize, count: usize) -> usize
        requires { id ≤ length self.now.cells.keys }
        ensures list { todos (list_at self.now.cells.keys result) ≡ drop count (todos (list_at self.now.cells.keys id)) }
        ensures within { result ≤ length self.now.cells.keys }
    {
        if count == 0 {
            return id;
        }
        match self.first(id) {
            None => id,
            Some(cell) => self.skip(cell.tail, count - 1),
        }
    }
}
