//! The bits of a byte.
ghost use Rattle.std.specs.Prelude.{◌≡◌, ℕ, IsTrue, ◌↔◌, IsOk, IsOkAnd, OnOk, bit_or, refl};
ghost use Rattle.std.specs.List.{range_with_len};
ghost use Rattle.mapdb_join.specs.Atoms.{Includes, IsUnion, Clashes};
ghost use Rattle.mapdb_join.specs.Bits.{has_bit, IsByte};
ghost use Rattle.mapdb_join.specs.Lawful.Bits.{no_exclusion, joined_bits, finite_bits};

use crate::exact::Representable;
use crate::merge::{Merge, MergeFault};
use std::alloc::AllocError;
use std::marker::Model;

/// A set of the bits of a byte. No bit excludes another, so no two sets clash.
#[derive(Clone, Copy, Debug, PartialEq, Eq, Drop)]
pub struct BitsOr {
    bits: u8,
}

impl Model for BitsOr {
    ghost Value = { ℕ };

    ghost view = { λ a. a.bits };

    ghost inverse = { λ n. record { bits = n } };
}

impl BitsOr {
    /// The bits that are set in the byte.
    pub fn new(bits: u8) -> BitsOr
        ensures { result ≡ bits }
    {
        BitsOr { bits }
    }

    /// The set as a byte.
    pub fn bits(&self) -> u8
        ensures { result ≡ self.now }
    {
        self.bits
    }

    /// Adds the bits that are set in the byte, and answers whether one of them was new.
    pub fn add(&mut self, bits: u8) -> bool
        ensures added { self.new ≡ bit_or self.old bits }
        ensures result { IsTrue result ↔ ¬ (Includes has_bit self.old bits) }
    {
        let old = self.bits;
        self.bits |= bits;
        self.bits != old
    }
}

impl Representable for BitsOr {
    ghost is_value = { IsByte };

    fn prove_value(&self) {
        let _bits = self.bits;
    }
}

impl Merge for BitsOr {
    type Atom = u8;

    type Spot = ();

    ghost has = { has_bit };

    ghost excludes = { λ _ _. ⊥ };

    ghost is_spot = { λ _ _ _. Unit {0} };

    ghost atoms = { range_with_len 0 };

    fn covers(&self, other: &BitsOr) -> bool {
        self.bits | other.bits == self.bits
    }

    fn clash(&self, _other: &BitsOr) -> Option<()> {
        None
    }

    /// Takes no memory and is never refused.
    fn merge(&mut self, other: &BitsOr) -> Result<(), MergeFault<()>>
        ensures ok { OnOk result (IsUnion has_bit self.old other.now self.new
            × (Clashes has_bit (λ _ _. ⊥) self.old other.now → ⊥)) }
        ensures never_refused { IsOk result }
    {
        self.bits |= other.bits;
        Ok(())
    }

    fn is_none(&self) -> bool {
        self.bits == 0
    }

    /// Takes no memory.
    fn copy(&self) -> Result<BitsOr, AllocError>
        ensures { IsOkAnd result (λ c. c ≡ self.now) }
    {
        Ok(BitsOr { bits: self.bits })
    }

    ghost exclusion = { no_exclusion has_bit };

    ghost joined = { joined_bits };

    ghost one_spot = { λ _ _ _ _ _ _. refl };

    ghost finite = { finite_bits };
}
