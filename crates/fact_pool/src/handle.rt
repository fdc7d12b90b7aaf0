//! The names that a pool gives out: of a region, and of a value of a region.
use std::marker::Model;

/// The place of a value in the list of its region, counted from 0. It stands for that value until the region is
/// released, and says nothing in another region.
#[derive(Clone, Copy, Debug, PartialEq, Eq, Hash)]
pub struct Handle(pub u32);

/// The name of one list of one pool, from the `begin` that added the list to the `release` that gives it up. It can't be
/// copied, so nothing is left to name a list that was released. A region that is dropped leaves its list in the pool.
#[derive(Drop)]
pub struct Region {
    pub(crate) key: usize,
}

impl Model for Region {
    ghost use Rattle.std.specs.Prelude.{ℕ};
    ghost use Rattle.std.specs.Coded.{coded_ℕ};

    ghost Value = { ℕ };

    ghost coded = { coded_ℕ };

    ghost view = { λ r. r.key };
}
