//! The places of a frame, and sets of them.

ghost use Rattle.std.specs.Prelude.{◌≡◌, ◌↔◌, ◌++◌, IsTrue};
ghost use Rattle.std.proofs.Common.{ap};
ghost use Rattle.std.specs.Cmp.{decided, partial_equiv_from_equiv};
ghost use Rattle.std.specs.FinSet as set;
ghost use Rattle.std.specs.Hash as fed;
ghost use Rattle.rlc_base.specs.NameSet.{is_same, Decides-is_same};
ghost use Rattle.control_actions.specs.PlaceNumbers.{IsSmall, number_of};
ghost use Rattle.control_actions.specs.Places.{low_of, high_of};

use std::marker::Model;

/// Where a frame of a body can hold a value.
#[derive(Clone, Copy, PartialEq, Eq)]
pub enum Place {
    /// A variable of the body, by its number in the list of variables.
    Var(u32),
    This,
    /// An owning field of `this`: the k-th that the body's class declares, counted from 0 in textual order.
    Field(u32),
    /// The value that an expression at this depth of the evaluation gives.
    Temp(u32),
    /// The part of `this` that its super class must see finished.
    Super,
}

impl Place {
    /// The number of a place in the order of places: variables from 0, `this` at 160, owning fields from 161, temps from
    /// 177, and the part of the super class at 241.
    pub fn number(self) -> u32
        requires { IsSmall self }
        ensures { result ≡ number_of self }
    {
        match self {
            Place::Var(variable) => variable,
            Place::This => 160,
            Place::Field(field) => 161 + field,
            Place::Temp(depth) => 177 + depth,
            Place::Super => 241,
        }
    }
}

/// A set of places: of variables with a number below 160, `this`, owning fields with a number below 16, temps of a depth
/// below 64, and the part of the super class. Contracts see it as a set of the places' numbers. No call of it takes
/// memory.
#[derive(Clone, Copy, Hash)]
#[tactic(auto, using(crate::specs::Places::halves_laws))]
pub struct Places {
    // The numbers below 128, and those from 128 on.
    low: u128,
    high: u128,
}

impl Model for Places {
    ghost use Rattle.std.specs.Prelude.{◌<◌, ◌^◌};
    ghost use Rattle.std.specs.Ordering.{nat_cmp};
    ghost use Rattle.std.specs.FinSet as set;
    ghost use Rattle.std.specs.Coded.{coded_ℕ};
    ghost use Rattle.control_actions.specs.Places.{places_of, low_of, high_of, low_of-places_of, high_of-places_of};

    ghost Value = { set.FinSet nat_cmp };

    ghost coded = { set.code coded_ℕ };

    ghost view = { λ s. places_of s.low s.high };

    ghost invariant = { λ s. (s.low < 2 ^ 128) × (s.high < 2 ^ 128) };

    ghost inverse = { λ s. record { low = low_of s; high = high_of s } };

    ghost inverse_ok = { λ s small i. record { low = low_of-places_of s.low s.high small.0 small.1 i; high = high_of-places_of s.low s.high small.0 small.1 i } };
}

#[tactic(auto, using(crate::specs::Places::places_laws))]
impl Places {
    /// The set with no place.
    pub fn empty() -> Places
        ensures { result ≡ set.empty }
    {
        Places { low: 0, high: 0 }
    }

    /// The set with the place `x` as well.
    pub fn with(self, x: Place) -> Places
        requires { IsSmall x }
        ensures { result ≡ set.insert self (number_of x) }
    {
        let number = x.number();
        if number < 128 {
            Places {
                low: self.low | 1 << number,
                high: self.high,
            }
        } else {
            Places {
                low: self.low,
                high: self.high | 1 << (number - 128),
            }
        }
    }

    /// The set without the place `x`.
    pub fn without(self, x: Place) -> Places
        requires { IsSmall x }
        ensures { result ≡ set.remove self (number_of x) }
    {
        let number = x.number();
        if number < 128 {
            Places {
                low: self.low & !(1 << number),
                high: self.high,
            }
        } else {
            Places {
                low: self.low,
                high: self.high & !(1 << (number - 128)),
            }
        }
    }

    /// Whether the place `x` is in the set.
    pub fn contains(self, x: Place) -> bool
        requires { IsSmall x }
        ensures { result ≡ set.contains self (number_of x) }
    {
        let number = x.number();
        if number < 128 {
            (self.low >> number) & 1 == 1
        } else {
            (self.high >> (number - 128)) & 1 == 1
        }
    }

    /// Whether the set has no place.
    pub fn is_empty(self) -> bool
        ensures { IsTrue result ↔ (self ≡ set.empty) }
    {
        self.low == 0 && self.high == 0
    }
}

/// Two sets are equal where they have the same places.
#[tactic(auto, using(crate::specs::Places::places_laws))]
impl PartialEq for Places {
    ghost eq = { is_same };

    ghost laws = { partial_equiv_from_equiv (decided is_same Decides-is_same) };

    fn eq(&self, other: &Places) -> bool {
        self.low == other.low && self.high == other.high
    }
}

impl Eq for Places {
    ghost laws = { decided is_same Decides-is_same };
}

#[derived]
impl Hash for Places {
    ghost respects_eq = { λ x y h. ap (λ s. fed.u128 (low_of s) ++ fed.u128 (high_of s)) ((Decides-is_same x y).0 h) };
}
