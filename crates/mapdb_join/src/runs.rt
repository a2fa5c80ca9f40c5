//! Runs of pages with equal bits.
ghost use Rattle.std.specs.Prelude.{◌≡◌, ◌≤◌, ◌<◌, ◌+◌, ◌↔◌, ◌||◌, ℕ, true, [], IsTrue, IfOk};
ghost use Rattle.std.specs.Prelude.{IfSome, IfNone, OnOk, OnErr, refl};
ghost use Rattle.mapdb_join.specs.Bits.{has_bit};
ghost use Rattle.mapdb_join.specs.Lawful.Bits.{no_exclusion};
ghost use Rattle.mapdb_join.specs.Runs.{HasNothingFrom, HasRegion, IsLeastRun, IsRuns, bits_after};
ghost use Rattle.mapdb_join.specs.Runs.{has_at, in_region};
ghost use Rattle.mapdb_join.specs.Lawful.United.{atoms_of, finite_atoms, joined_runs};

mod bounds;
mod part;
mod region;
mod regions;
mod starts;
mod walks;

use crate::exact::Representable;
use crate::merge::{Merge, MergeFault};
pub use bounds::{BITS_LIMIT, RUN_LIMIT};
pub use region::Region;
use regions::{add_region, has_over};
use smallvec::SmallVec;
use starts::{Starts, bits_at, copy_of, least_run};
use std::alloc::{AllocError, Global};
use std::marker::Model;
use walks::{covers_all, merge_all};

/// Bits of pages, kept as disjoint maximal runs of equal bits in ascending order. No bit of a page
/// excludes another, so no two clash.
#[derive(Debug, Drop)]
pub struct Runs {
    alloc: Global,
    starts: Starts,
}

impl Model for Runs {
    ghost use Rattle.std.specs.Prelude.{List};
    ghost use Rattle.mapdb_join.specs.Runs.{IsRuns};
    ghost use Rattle.mapdb_join.specs.declared.runs.starts.Start.{Start};

    ghost Value = { List Start };

    ghost view = { λ a. a.starts.items };

    ghost invariant = { λ a. IsRuns a.starts.items };
}

impl Runs {
    /// No bits. It takes no memory.
    pub fn new(alloc: Global) -> Runs
        ensures { result ≡ [] }
    {
        Runs {
            alloc,
            starts: SmallVec::new(alloc),
        }
    }

    /// The bits of a page.
    pub fn at(&self, page: u64) -> u8
        ensures bits { result ≡ bits_after 0 self.now page }
        ensures atoms { (bit : ℕ) → has_bit result bit ≡ has_at self.now (page, bit) }
    {
        bits_at(self.starts.as_slice(), page)
    }

    /// The least run whose last page is not below a page: its first page, how many pages it has,
    /// and their bits.
    pub fn run_from(&self, page: u64) -> Option<(u64, u64, u8)>
        ensures atoms { (q bit : ℕ) → has_at self.now (q, bit)
            ≡ has_bit (bits_after 0 self.now q) bit }
        ensures small { (q : ℕ) → bits_after 0 self.now q < BITS_LIMIT }
        ensures none { IfNone result (HasNothingFrom page self.now) }
        ensures some { IfSome result (λ run. IsLeastRun self.now page run.0 run.1 run.2) }
    {
        least_run(self.starts.as_slice(), page)
    }

    /// Whether so many pages from a first one on have all of the bits. It takes no memory.
    pub fn has(&self, first: u64, count: u64, bits: u8) -> bool
        requires { first + count ≤ RUN_LIMIT }
        ensures { IsTrue result ↔ HasRegion self.now first count bits }
    {
        if count == 0 {
            return true;
        }
        has_over(self.starts.as_slice(), first, first + count, bits)
    }

    /// Adds bits to so many pages from a first one on, and answers whether a page lacked one of
    /// them. The only error is that memory ran out, and then a page lacks one, and nothing has
    /// changed.
    pub fn add(&mut self, first: u64, count: u64, bits: u8) -> Result<bool, AllocError>
        requires limit { first + count ≤ RUN_LIMIT }
        requires small { bits < BITS_LIMIT }
        ensures atoms { OnOk result ((p : ℕ × ℕ)
            → has_at self.new p ≡ (has_at self.old p || in_region first count bits p)) }
        ensures new { IfOk result (λ new. IsTrue new ↔ ¬ (HasRegion self.old first count bits)) }
        ensures err { OnErr result (self.new ≡ self.old) }
        ensures lacks { OnErr result (¬ (HasRegion self.old first count bits)) }
    {
        if count == 0 {
            return Ok(false);
        }
        let new = add_region(&mut self.starts, self.alloc, first, first + count, bits)?;
        Ok(new)
    }
}

impl Representable for Runs {
    ghost is_value = { IsRuns };

    fn prove_value(&self) {
        let _starts = &self.starts;
    }
}

impl Merge for Runs {
    type Atom = (u64, u8);

    type Spot = ();

    ghost has = { has_at };

    ghost excludes = { λ _ _. ⊥ };

    ghost is_spot = { λ _ _ _. Unit {0} };

    ghost atoms = { atoms_of };

    fn covers(&self, other: &Runs) -> bool {
        covers_all(self.starts.as_slice(), other.starts.as_slice())
    }

    fn clash(&self, _other: &Runs) -> Option<()> {
        None
    }

    fn merge(&mut self, other: &Runs) -> Result<(), MergeFault<()>> {
        if let Err(refused) = merge_all(&mut self.starts, self.alloc, other.starts.as_slice()) {
            return Err(MergeFault::Memory(refused));
        }
        Ok(())
    }

    fn is_none(&self) -> bool {
        self.starts.is_empty()
    }

    fn copy(&self) -> Result<Runs, AllocError> {
        Ok(Runs {
            alloc: self.alloc,
            starts: copy_of(self.alloc, self.starts.as_slice())?,
        })
    }

    ghost exclusion = { no_exclusion has_at };

    ghost joined = { joined_runs };

    ghost one_spot = { λ _ _ _ _ _ _. refl };

    ghost finite = { finite_atoms };
}
