//! Runs that take one region at a time.
ghost use Rattle.mapdb_join.specs.Regions.{starts_of};

use crate::merge::MergeFault;
use crate::part::MergePart;
use crate::runs::Runs;
use crate::runs::region::Region;
use std::alloc::{AllocError, Global};

/// The part is a region.
impl MergePart for Runs {
    type Part = Region;

    ghost alone = { starts_of };

    fn merge_part(&mut self, part: Region) -> Result<(), MergeFault<()>> {
        self.add(part.first(), part.count(), part.bits())?;
        Ok(())
    }

    fn of_part(alloc: Global, part: Region) -> Result<Runs, AllocError> {
        let mut runs = Runs::new(alloc);
        runs.add(part.first(), part.count(), part.bits())?;
        Ok(runs)
    }
}
