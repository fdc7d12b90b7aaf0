ghost use Rattle.std.specs.Prelude.{◌≡◌, ◌↔◌, ◌<◌, IsTrue};
ghost use Rattle.std.proofs.Common.{ap};
ghost use Rattle.std.specs.Cmp.{decided, partial_equiv_from_equiv};
ghost use Rattle.std.specs.FinSet as set;
ghost use Rattle.std.specs.Hash as fed;
ghost use Rattle.rlc_base.specs.NameSet.{is_same, Decides-is_same, same_sets_hash};

use crate::name_id::NameId;
use std::marker::Model;

/// A set of names, each by its number in the table of names. Numbers are below 128.
/// No call of it takes memory.
#[derive(Clone, Copy, Debug, Hash)]
#[tactic(auto, using(crate::specs::NameSet::bits_laws))]
pub struct NameSet {
    bits: u128,
}

impl Model for NameSet {
    ghost use Rattle.std.specs.Prelude.{◌<◌, ◌^◌};
    ghost use Rattle.std.specs.Ordering.{nat_cmp};
    ghost use Rattle.std.specs.FinSet as set;
    ghost use Rattle.std.specs.Coded.{coded_ℕ};
    ghost use Rattle.rlc_base.specs.NameSet.{names_of, bits_of, bits_of-names_of};

    ghost Value = { set.FinSet nat_cmp };

    ghost coded = { set.code coded_ℕ };

    ghost view = { λ s. names_of s.bits };

    ghost invariant = { λ s. s.bits < 2 ^ 128 };

    ghost inverse = { λ s. record { bits = bits_of s } };

    ghost inverse_ok = { λ s small i. record { bits = bits_of-names_of s.bits small i } };
}

#[tactic(auto, using(crate::specs::NameSet::name_laws))]
impl NameSet {
    /// The set with no name.
    pub fn empty() -> NameSet
        ensures { result ≡ set.empty }
    {
        NameSet { bits: 0 }
    }

    /// Whether the set has no name.
    pub fn is_empty(self) -> bool
        ensures { IsTrue result ↔ (self ≡ set.empty) }
    {
        self.bits == 0
    }

    /// The set with the name `n` as well.
    pub fn insert(self, n: NameId) -> NameSet
        requires { n.0 < 128 }
        ensures { result ≡ set.insert self n.0 }
    {
        NameSet {
            bits: self.bits | 1 << n.0,
        }
    }

    /// Whether the name `n` is in the set. A number from 128 on never is.
    pub fn contains(self, n: NameId) -> bool
        ensures member { result ≡ set.contains self n.0 }
        ensures below { IsTrue result → n.0 < 128 }
    {
        n.0 < 128 && (self.bits >> n.0) & 1 == 1
    }

    /// The names that are in one of the two sets or in both.
    pub fn union(self, o: NameSet) -> NameSet
        ensures { result ≡ set.union self o }
    {
        NameSet {
            bits: self.bits | o.bits,
        }
    }

    /// The names of this set that `o` lacks.
    pub fn minus(self, o: NameSet) -> NameSet
        ensures { result ≡ set.difference self o }
    {
        NameSet {
            bits: self.bits & !o.bits,
        }
    }

    /// Whether `o` has each name of this set.
    pub fn is_subset(self, o: NameSet) -> bool
        ensures { result ≡ set.is_subset self o }
    {
        self.bits & !o.bits == 0
    }
}

/// Two sets are equal where they have the same names.
#[tactic(auto, using(crate::specs::NameSet::name_laws))]
impl PartialEq for NameSet {
    ghost eq = { is_same };

    ghost laws = { partial_equiv_from_equiv (decided is_same Decides-is_same) };

    fn eq(&self, other: &NameSet) -> bool {
        self.bits == other.bits
    }
}

impl Eq for NameSet {
    ghost laws = { decided is_same Decides-is_same };
}

#[derived]
impl Hash for NameSet {
    ghost respects_eq = { λ x y h. ap fed.u128 (same_sets_hash x y h) };
}
