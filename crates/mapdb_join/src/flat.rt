//! One value.
ghost use Rattle.std.specs.Prelude.{◌≡◌, ◌≢◌, [], ◌∷◌, OnOk, IfErr, IsOkAnd, refl};
ghost use Rattle.mapdb_join.specs.Atoms.{IsUnion, Clashes};
ghost use Rattle.mapdb_join.specs.Faults.{FaultLeaves};
ghost use Rattle.mapdb_join.specs.Lawful.Flat.{flat_exclusion, flat_joined, flat_finite};

use crate::exact::{Exact, Representable};
use crate::merge::{Merge, MergeFault};
use std::alloc::AllocError;
use std::marker::Model;

/// One value, which is its only atom. Two different ones clash.
#[derive(Clone, Copy, Debug, PartialEq, Eq, Drop)]
pub struct Flat<T> {
    value: T,
}

impl<T> Model for Flat<T> {
    ghost Value = { T };

    ghost view = { λ a. a.value };

    ghost inverse = { λ v. record { value = v } };
}

impl<T: Copy> Flat<T> {
    /// Holds the value.
    pub fn new(value: T) -> Flat<T>
        ensures { result ≡ value }
    {
        Flat { value }
    }

    /// The value that it holds.
    pub fn get(&self) -> T
        ensures { result ≡ self.now }
    {
        self.value
    }
}

impl<T: Exact> Representable for Flat<T> {
    ghost is_value = { T.is_value };

    fn prove_value(&self) {
        self.value.prove_value();
    }
}

impl<T: Exact> Merge for Flat<T> {
    type Atom = T;

    type Spot = ();

    ghost has = { T.eq };

    ghost excludes = { λ x y. x ≢ y };

    ghost is_spot = { λ _ _ _. Unit {0} };

    ghost atoms = { λ a. a ∷ [] };

    fn covers(&self, other: &Flat<T>) -> bool {
        self.value == other.value
    }

    fn clash(&self, other: &Flat<T>) -> Option<()> {
        if self.value == other.value {
            None
        } else {
            Some(())
        }
    }

    /// Takes no memory and never changes the value: it is refused where the values differ.
    fn merge(&mut self, other: &Flat<T>) -> Result<(), MergeFault<()>>
        ensures ok { OnOk result (IsUnion T.eq self.old other.now self.new
            × (Clashes T.eq (λ x y. x ≢ y) self.old other.now → ⊥)) }
        ensures err { IfErr result (FaultLeaves T.eq (λ x y. x ≢ y) (λ _ _ _. Unit {0})
            self.old other.now self.new) }
        ensures kept { self.new ≡ self.old }
        ensures never_memory { IfErr result (λ fault. fault ≡ MergeFault.Clash tt) }
    {
        match self.clash(other) {
            None => Ok(()),
            Some(spot) => Err(MergeFault::Clash(spot)),
        }
    }

    fn is_none(&self) -> bool {
        false
    }

    /// Takes no memory.
    fn copy(&self) -> Result<Flat<T>, AllocError>
        ensures { IsOkAnd result (λ c. c ≡ self.now) }
    {
        Ok(Flat { value: self.value })
    }

    ghost exclusion = { flat_exclusion T.Eq.laws T.exact };

    ghost joined = { flat_joined T.Eq.laws T.exact T.is_value };

    ghost one_spot = { λ _ _ _ _ _ _. refl };

    ghost finite = { flat_finite T.Eq.laws T.exact };
}
