//! What merges, and what is told when a merge is refused.
ghost use Rattle.std.specs.Prelude.{◌≡◌, true, Bool, List, IsTrue, ◌↔◌, IfOk, IfSome, IfNone};
ghost use Rattle.std.specs.Prelude.{OnOk, IfErr};
ghost use Rattle.std.specs.List.{Contains};
ghost use Rattle.mapdb_join.specs.Atoms.{Includes, IsSame, IsUnion, HasNone, Clashes, IsExclusion};
ghost use Rattle.mapdb_join.specs.Faults.{FaultLeaves, TellsMemory};

use crate::exact::Representable;
use std::alloc::AllocError;

/// Why a merge was refused.
#[derive(Clone, Copy, Debug, PartialEq, Eq, Drop)]
pub enum MergeFault<S> {
    /// The two values clash, first at this spot. Nothing has changed.
    Clash(S),
    /// Memory was refused, and the values do not clash. The value has what it had, and may have
    /// some of the other's atoms already: its atoms lie between the old ones and the union.
    Memory(AllocError),
}

impl<S: Copy> MergeFault<S> {
    /// The refusal of memory that the fault tells, where it tells no clash.
    pub fn refusal(self) -> AllocError
        requires { TellsMemory self }
        ensures { self ≡ MergeFault.Memory result }
    {
        match self {
            MergeFault::Memory(refused) => refused,
            MergeFault::Clash(_) => unreachable!(),
        }
    }
}

impl<S> From<AllocError> for MergeFault<S> {
    ghost use Rattle.mapdb_join.specs.declared.merge.MergeFault.TheVariants.{Memory};

    ghost from_gives = { λ refused fault. fault ≡ Memory refused };

    fn from(refused: AllocError) -> MergeFault<S> {
        MergeFault::Memory(refused)
    }
}

/// A value that is seen as a finite set of atoms, and merges with others of its type.
///
/// One value is below another where its atoms are among the other's. Some atoms exclude each
/// other, and two values clash where one has an atom that excludes an atom of the other. Where
/// two values do not clash, `merge` leaves their union, the least value that covers both; where
/// they clash, no value covers both.
pub trait Merge: Representable + Drop {
    /// What a value is made of.
    type Atom;

    /// Where two values clash, as `clash` names it.
    type Spot: Copy;

    /// Whether a value has an atom.
    ghost has: { Self → Self.Atom → Bool };

    /// The pairs of atoms that no value has together.
    ghost excludes: { Self.Atom → Self.Atom → Type 0 };

    /// Where two values clash first.
    ghost is_spot: { Self → Self → Self.Spot → Type 0 };

    /// A list with each atom that the value has.
    ghost atoms: { Self → List Self.Atom };

    /// Whether this value has each atom of the other.
    fn covers(&self, other: &Self) -> bool
        ensures { IsTrue result ↔ Includes has self.now other.now };

    /// Where the two values clash first, and `None` where they do not clash.
    fn clash(&self, other: &Self) -> Option<Self::Spot>
        ensures none { IfNone result (Clashes has excludes self.now other.now → ⊥) }
        ensures some { IfSome result (λ s. Clashes has excludes self.now other.now
            × is_spot self.now other.now s) };

    /// Adds the other's atoms: leaves exactly the union.
    ///
    /// [`MergeFault::Clash`] comes exactly where the two clash, names the spot that `clash` names
    /// and changes nothing. [`MergeFault::Memory`] comes only where they do not clash.
    fn merge(&mut self, other: &Self) -> Result<(), MergeFault<Self::Spot>>
        ensures ok { OnOk result (IsUnion has self.old other.now self.new
            × (Clashes has excludes self.old other.now → ⊥)) }
        ensures err { IfErr result (FaultLeaves has excludes is_spot self.old other.now self.new) };

    /// Whether this value has no atom.
    fn is_none(&self) -> bool
        ensures { IsTrue result ↔ HasNone has self.now };

    /// A value with the same atoms. The only error is that memory ran out.
    fn copy(&self) -> Result<Self, AllocError>
        ensures { IfOk result (λ c. IsSame has self.now c) };

    /// Exclusion is symmetric, no atom excludes itself, and no value has two atoms that exclude
    /// each other.
    ghost exclusion: { IsExclusion has excludes };

    /// Two values of a program that do not clash have a union that a program can have.
    ghost joined: { (a b : Self) → Self.is_value a → Self.is_value b
        → (Clashes has excludes a b → ⊥) →
        (c : Self) × Self.is_value c × IsUnion has a b c };

    /// Two values clash first at one spot only.
    ghost one_spot: { (a b : Self) (s t : Self.Spot) → is_spot a b s → is_spot a b t → s ≡ t };

    /// Each atom of a value stands in its list, so they are finitely many.
    ghost finite: { (a : Self) (x : Self.Atom) → has a x ≡ true → Contains (atoms a) x };
}
