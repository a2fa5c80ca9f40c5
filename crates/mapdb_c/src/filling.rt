//! Lists that go into the caller's array.

ghost use Rattle.std.specs.Prelude.{◌≡◌, ◌≤◌, ◌++◌, drop, length, map};
ghost use Rattle.mapdb_c.specs.Filling.{FitsArray};

use crate::statuses::Status;

/// What C has in a form of its own.
pub trait ToRaw {
    /// The form that C has.
    type Raw: Copy;

    /// The value in that form.
    ghost raw: { Self → Self.Raw };

    /// The value as C has it.
    fn to_raw(&self) -> Self::Raw
        ensures { result ≡ raw self.now };
}

/// Writes a list into an array that has room for it.
fn write<T: ToRaw>(list: &[T], room: &mut [T::Raw])
    requires { length list.now ≤ length room.old }
    ensures { room.new ≡ map T.raw list.now ++ drop (length list.now) room.old }
{
    for (place, value) in list.iter().enumerate() {
        room[place] = value.to_raw();
    }
}

/// Writes a list into the caller's array where it has room for all of it, and tells how long it is.
#[tactic(auto, using(crate::proofs::Fitting::fits, crate::proofs::Fitting::does_not_fit))]
pub fn fill<T: ToRaw>(list: &[T], room: &mut [T::Raw], count: &mut u64) -> Status
    ensures { FitsArray (map T.raw list.now) result room.old room.new count.new }
{
    *count = list.len() as u64;
    if list.len() > room.len() {
        return Status::NoRoom;
    }
    write(list, room);
    Status::Done
}
