//! Spaces and fpages as C has them.

ghost use Rattle.std.specs.Prelude.{◌≡◌, ◌<◌};
ghost use Rattle.mapdb_c.specs.RawPlaces.{fpage_of, number_within, optional_place, place_given};
ghost use Rattle.mapdb_c.specs.RawPlaces.{raw_space, rights_of, space_given, window_of};

use crate::faults::place_status;
use crate::limits::{RIGHTS_LIMIT, SPACE_LIMIT};
use crate::statuses::Status;
use mapdb_facts::Space;
use mapdb_fpage::{Fpage, Rights, TOP_ORDER};

/// A space, 8 bytes.
#[repr(C)]
#[derive(Clone, Copy)]
pub struct RawSpace {
    /// Its number, below `2^16`.
    pub number: u32,
    /// Its version.
    pub version: u32,
}

/// An fpage with rights, 16 bytes.
#[repr(C)]
#[derive(Clone, Copy)]
pub struct RawFpage {
    /// The byte address of the place.
    pub address: u64,
    /// The order of the place, which has `2^order` bytes: 0 for nil, whatever the address.
    pub order: u32,
    /// The rights: 4 to read, 2 to write, 1 to execute, added up.
    pub rights: u32,
}

/// The number of a space, unless it is too great.
pub fn number_within(number: u32) -> Result<u16, Status>
    ensures { result ≡ number_within number }
{
    if number >= SPACE_LIMIT {
        return Err(Status::BadSpace);
    }
    Ok(number as u16)
}

/// The space, unless its number is too great.
pub fn space_of(raw: RawSpace) -> Result<Space, Status>
    ensures { result ≡ space_given raw }
{
    let number = number_within(raw.number)?;
    Ok(Space {
        number,
        version: raw.version,
    })
}

/// The space as C has it.
pub fn raw_space(space: Space) -> RawSpace
    ensures raw { result ≡ raw_space space }
    ensures limit { space.number < SPACE_LIMIT }
{
    RawSpace {
        number: space.number as u32,
        version: space.version,
    }
}

/// The rights of a value, unless it is too great.
pub fn rights_of(value: u32) -> Result<Rights, Status>
    ensures { result ≡ rights_of value }
{
    if value >= RIGHTS_LIMIT {
        return Err(Status::BadRights);
    }
    Rights::from_bits(value as u8).ok_or(Status::BadRights)
}

/// The place of `2^order` bytes from the address on, or why there is none.
pub fn place_of(address: u64, order: u32) -> Result<Fpage, Status>
    ensures { result ≡ place_given address order }
{
    if order > TOP_ORDER as u32 {
        return Err(Status::TooLarge);
    }
    Fpage::new(address, order as u8).map_err(place_status)
}

/// The place, or none where the order is that of nil.
fn optional_place(address: u64, order: u32) -> Result<Option<Fpage>, Status>
    ensures { result ≡ optional_place address order }
{
    if order == 0 {
        return Ok(None);
    }
    let place = place_of(address, order)?;
    Ok(Some(place))
}

/// The receive window, whose rights are not looked at: none for nil.
pub fn window_of(raw: &RawFpage) -> Result<Option<Fpage>, Status>
    ensures { result ≡ window_of raw.now }
{
    optional_place(raw.address, raw.order)
}

/// The fpage with its rights: no place for nil. A place that is none is told before rights that are
/// none.
pub fn fpage_of(raw: &RawFpage) -> Result<(Option<Fpage>, Rights), Status>
    ensures { result ≡ fpage_of raw.now }
{
    let place = optional_place(raw.address, raw.order)?;
    let rights = rights_of(raw.rights)?;
    Ok((place, rights))
}
