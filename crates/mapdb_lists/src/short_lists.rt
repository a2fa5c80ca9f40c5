//! Lists of one operation, which mostly have one item and room for it in place.

ghost use Rattle.std.specs.Prelude.{◌≡◌, ◌++◌, ◌∷◌, [], OnOk};

use smallvec::SmallVec;
use std::alloc::AllocError;

/// For how many items more a full list gets room at least: one with a second item mostly gets some
/// more.
const ROOM_FOR_MORE: usize = 7;

/// Adds an item at the end. An error where memory ran out.
#[inline(always)]
pub fn add_item<T: Copy + Default>(list: &mut SmallVec<T, 1>, item: T) -> Result<(), AllocError>
    ensures { OnOk result (list.new.items ≡ list.old.items ++ item ∷ []) }
{
    if list.len() == list.capacity() {
        list.reserve(ROOM_FOR_MORE)?;
    }
    list.push_reserved(item);
    Ok(())
}
