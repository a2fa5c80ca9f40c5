//! What a call answers.

ghost use Rattle.std.specs.Prelude.{◌≡◌};
ghost use Rattle.mapdb_c.specs.StatusNumbers.{status_number, status_at};

/// What a call answers. C has it as its number, from 0 on in this order.
#[derive(Clone, Copy, Debug, PartialEq, Eq)]
pub enum Status {
    /// The call did what it says.
    Done,
    /// The handle has no copy, or one of two has none.
    NoCopy,
    /// Memory ran out. What stands is told where something does.
    Memory,
    /// A processor of 64 or more.
    BadProcessor,
    /// The number of a space is `2^16` or more.
    BadSpace,
    /// The page is served from no frame.
    NotServed,
    /// A space that a command names has ended.
    SpaceEnded,
    /// The receiver of a Map, the space of a record or the space that is to end has the first
    /// space's number.
    RootSpace,
    /// A record would need a number of `2^40` or more.
    NumbersSpent,
    /// The copy would hold more than 65,536 operations.
    Full,
    /// The item's first word is that of a grant item.
    Grant,
    /// The item's first word is that of another item.
    NotMapItem,
    /// Bits of the item's first word that are to be zero are set.
    ReservedBits,
    /// The reserved bit of an fpage word is set.
    ReservedBit,
    /// The order is below that of a page.
    TooSmall,
    /// The order is above that of the complete address space.
    TooLarge,
    /// The address lies beyond the address space.
    OutOfSpace,
    /// The address is no multiple of the place's size.
    Unaligned,
    /// The operation is of no kind.
    BadKind,
    /// A number of no record: `2^40` or more, or 0 but for the root's.
    BadNumber,
    /// A record's number is not greater than its parent's.
    ParentNotBefore,
    /// A record's source is no multiple of its place's page count.
    SourceUnaligned,
    /// A record's source begins beyond the space, or the page from which a run is asked lies there.
    PageOutOfSpace,
    /// Rights of 8 or more.
    BadRights,
    /// Two different records have one name.
    Clash,
    /// The first mark lies behind the end mark, or the end mark behind the end of the list.
    BadMark,
    /// The caller's array is too short. How long it is to be is told.
    NoRoom,
    /// The text is no JSON, or is nested deeper than 127.
    NotJson,
    /// The JSON has not the shape of a snapshot.
    SnapshotShape,
    /// The snapshot has another version than 1, 2 and 3.
    SnapshotVersion,
}

impl Status {
    /// The number that C has for the status.
    #[tactic(auto, unfolding(crate::specs::StatusNumbers::status_at))]
    pub fn number(self) -> u32
        ensures number { result ≡ status_number self }
        ensures status { status_at result ≡ self }
    {
        match self {
            Status::Done => 0,
            Status::NoCopy => 1,
            Status::Memory => 2,
            Status::BadProcessor => 3,
            Status::BadSpace => 4,
            Status::NotServed => 5,
            Status::SpaceEnded => 6,
            Status::RootSpace => 7,
            Status::NumbersSpent => 8,
            Status::Full => 9,
            Status::Grant => 10,
            Status::NotMapItem => 11,
            Status::ReservedBits => 12,
            Status::ReservedBit => 13,
            Status::TooSmall => 14,
            Status::TooLarge => 15,
            Status::OutOfSpace => 16,
            Status::Unaligned => 17,
            Status::BadKind => 18,
            Status::BadNumber => 19,
            Status::ParentNotBefore => 20,
            Status::SourceUnaligned => 21,
            Status::PageOutOfSpace => 22,
            Status::BadRights => 23,
            Status::Clash => 24,
            Status::BadMark => 25,
            Status::NoRoom => 26,
            Status::NotJson => 27,
            Status::SnapshotShape => 28,
            Status::SnapshotVersion => 29,
        }
    }
}
