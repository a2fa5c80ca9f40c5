//! How two copies compare.

ghost use Rattle.std.specs.Prelude.{◌≡◌, ◌↔◌, IsTrue};
ghost use Rattle.std.specs.declared.option.Option.TheVariants.{None, Some};
ghost use Rattle.mapdb_facts.specs.State.{Covers, SameAtoms};
ghost use Rattle.mapdb_replica.specs.Agreement.{LookAlike};
ghost use Rattle.mapdb_replica.specs.Replica.{Log};
ghost use Rattle.mapdb_c.specs.StatusNumbers.{status_number};
ghost use Rattle.mapdb_c.specs.declared.statuses.Status.TheVariants as status;

use crate::handles::Handle;
use crate::statuses::Status;
use mapdb_replica::Replica;
use std::alloc::Global;

/// Whether the copy holds all that the other one holds. The handles are two.
#[unsafe(no_mangle)]
pub extern "C" fn mapdb_covers(
    alloc: Global,
    handle: &mut Handle,
    other: &mut Handle,
    answer: &mut bool,
) -> u32
    ensures kept { handle.new.held ≡ handle.old.held }
    ensures kept_other { other.new.held ≡ other.old.held }
    ensures none { handle.old.held ≡ None
        → (result ≡ status_number status.NoCopy) × (answer.new ≡ answer.old) }
    ensures none_other { other.old.held ≡ None
        → (result ≡ status_number status.NoCopy) × (answer.new ≡ answer.old) }
    ensures done { (log others : Log) → handle.old.held ≡ Some log → other.old.held ≡ Some others
        → result ≡ status_number status.Done }
    ensures covers { (log others : Log) → handle.old.held ≡ Some log → other.old.held ≡ Some others
        → IsTrue answer.new ↔ Covers log.ops others.ops }
{
    let Some(replica) = handle.take(alloc) else {
        return Status::NoCopy.number();
    };
    let Some(second) = other.take(alloc) else {
        handle.put(replica);
        return Status::NoCopy.number();
    };
    *answer = replica.covers(&*second);
    handle.put(replica);
    other.put(second);
    Status::Done.number()
}

/// Whether both copies hold the same. Then what is served and visible at each page is alike at
/// both. The handles are two.
#[unsafe(no_mangle)]
pub extern "C" fn mapdb_same(
    alloc: Global,
    handle: &mut Handle,
    other: &mut Handle,
    answer: &mut bool,
) -> u32
    ensures kept { handle.new.held ≡ handle.old.held }
    ensures kept_other { other.new.held ≡ other.old.held }
    ensures none { handle.old.held ≡ None
        → (result ≡ status_number status.NoCopy) × (answer.new ≡ answer.old) }
    ensures none_other { other.old.held ≡ None
        → (result ≡ status_number status.NoCopy) × (answer.new ≡ answer.old) }
    ensures done { (log others : Log) → handle.old.held ≡ Some log → other.old.held ≡ Some others
        → result ≡ status_number status.Done }
    ensures same { (log others : Log) → handle.old.held ≡ Some log → other.old.held ≡ Some others
        → IsTrue answer.new ↔ SameAtoms log.ops others.ops }
    ensures alike { (log others : Log) → handle.old.held ≡ Some log → other.old.held ≡ Some others
        → SameAtoms log.ops others.ops → LookAlike log.ops others.ops }
{
    let Some(replica) = handle.take(alloc) else {
        return Status::NoCopy.number();
    };
    let Some(second) = other.take(alloc) else {
        handle.put(replica);
        return Status::NoCopy.number();
    };
    *answer = replica.same(&*second);
    handle.put(replica);
    other.put(second);
    Status::Done.number()
}
