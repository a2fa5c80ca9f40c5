//! Two values side by side.
ghost use Rattle.mapdb_join.specs.Both.{has_either, excludes_either, atoms_either, IsPair};
ghost use Rattle.mapdb_join.specs.Both.{IsEitherSpot};
ghost use Rattle.mapdb_join.specs.Lawful.Both.{exclusion_either, finite_either, joined_either};
ghost use Rattle.mapdb_join.specs.Lawful.Both.{one_either_spot};

use crate::exact::Representable;
use crate::merge::{Merge, MergeFault};
use std::alloc::AllocError;

/// A value of one of two types: an atom of [`Both`], or a spot where two of them clash.
#[derive(Clone, Copy, Debug, PartialEq, Eq, Drop)]
pub enum OneOf<X, Y> {
    /// It belongs to the first part.
    First(X),
    /// It belongs to the second part.
    Second(Y),
}

/// Two values side by side, which merge part by part. A clash of the first parts is named before
/// one of the second parts.
#[derive(Clone, Copy, Debug, PartialEq, Eq, Drop)]
pub struct Both<A, B> {
    /// The first part.
    pub first: A,
    /// The second part.
    pub second: B,
}

impl<A: Representable, B: Representable> Representable for Both<A, B> {
    ghost is_value = { IsPair A.is_value B.is_value };

    fn prove_value(&self) {
        self.first.prove_value();
        self.second.prove_value();
    }
}

impl<A: Merge, B: Merge> Merge for Both<A, B> {
    type Atom = OneOf<A::Atom, B::Atom>;

    type Spot = OneOf<A::Spot, B::Spot>;

    ghost has = { has_either A.has B.has };

    ghost excludes = { excludes_either A.excludes B.excludes };

    ghost is_spot = { IsEitherSpot A.has A.excludes B.has B.excludes A.is_spot B.is_spot };

    ghost atoms = { atoms_either A.atoms B.atoms };

    fn covers(&self, other: &Both<A, B>) -> bool {
        self.first.covers(&other.first) && self.second.covers(&other.second)
    }

    fn clash(&self, other: &Both<A, B>) -> Option<OneOf<A::Spot, B::Spot>> {
        if let Some(spot) = self.first.clash(&other.first) {
            return Some(OneOf::First(spot));
        }
        match self.second.clash(&other.second) {
            Some(spot) => Some(OneOf::Second(spot)),
            None => None,
        }
    }

    fn merge(&mut self, other: &Both<A, B>) -> Result<(), MergeFault<OneOf<A::Spot, B::Spot>>> {
        if let Some(spot) = self.clash(other) {
            return Err(MergeFault::Clash(spot));
        }
        if let Err(fault) = self.first.merge(&other.first) {
            return Err(MergeFault::Memory(fault.refusal()));
        }
        if let Err(fault) = self.second.merge(&other.second) {
            return Err(MergeFault::Memory(fault.refusal()));
        }
        Ok(())
    }

    fn is_none(&self) -> bool {
        self.first.is_none() && self.second.is_none()
    }

    fn copy(&self) -> Result<Both<A, B>, AllocError> {
        Ok(Both {
            first: self.first.copy()?,
            second: self.second.copy()?,
        })
    }

    ghost exclusion = { exclusion_either A.exclusion B.exclusion };

    ghost joined = { joined_either A.has B.has A.excludes B.excludes A.is_value B.is_value A.joined
        B.joined };

    ghost one_spot = { one_either_spot A.has B.has A.excludes B.excludes A.is_value B.is_value
        A.is_spot B.is_spot A.one_spot B.one_spot };

    ghost finite = { finite_either A.has B.has A.atoms B.atoms A.finite B.finite };
}
