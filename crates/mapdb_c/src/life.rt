//! Making and freeing a copy.

ghost use Rattle.std.specs.Prelude.{◌≡◌, ◌≢◌, ◌⊎◌, ◌↔◌, ◌≤◌};
ghost use Rattle.std.specs.declared.option.Option.TheVariants.{None, Some};
ghost use Rattle.mapdb_replica.specs.Replica.{empty};
ghost use Rattle.mapdb_c.specs.StatusNumbers.{status_number};
ghost use Rattle.mapdb_c.specs.declared.statuses.Status.TheVariants as status;

use crate::handles::Handle;
use crate::statuses::Status;
use mapdb_facts::PROCESSOR_LIMIT;
use mapdb_replica::Replica;
use std::alloc::Global;

/// Makes a copy that holds nothing, of this processor. A copy that the handle had is freed, unless
/// this fails.
#[unsafe(no_mangle)]
pub extern "C" fn mapdb_create(alloc: Global, handle: &mut Handle, processor: u32) -> u32
    ensures done { result ≡ status_number status.Done → handle.new.held ≡ Some (empty processor) }
    ensures kept { result ≢ status_number status.Done → handle.new.held ≡ handle.old.held }
    ensures bad { result ≡ status_number status.BadProcessor ↔ PROCESSOR_LIMIT ≤ processor }
    ensures answers { (result ≡ status_number status.Done)
        ⊎ ((result ≡ status_number status.BadProcessor)
        ⊎ (result ≡ status_number status.Memory)) }
{
    if processor >= PROCESSOR_LIMIT as u32 {
        return Status::BadProcessor.number();
    }
    match Box::new(alloc, Replica::new(alloc, processor as u8)) {
        Ok(replica) => {
            handle.put(replica);
            Status::Done.number()
        }
        Err(_) => Status::Memory.number(),
    }
}

/// Frees the copy, if there is one.
#[unsafe(no_mangle)]
pub extern "C" fn mapdb_destroy(alloc: Global, handle: &mut Handle)
    ensures { handle.new.held ≡ None }
{
    let _old = handle.take(alloc);
}
