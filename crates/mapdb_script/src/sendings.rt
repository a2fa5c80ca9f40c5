//! What messages have: parts of the lists of the copies that sent them. Lists only grow, so a part
//! stays what it is, and no operation is kept twice for a message.

ghost use Rattle.std.specs.Prelude.{◌≡◌, ◌≤◌, ◌<◌, ◌-◌, List, Some, length, slice_get, true};
ghost use Rattle.mapdb_facts.specs.WellFormed.{all_formed};
ghost use Rattle.mapdb_replica.specs.Replica.{Log};
ghost use Rattle.mapdb_script.specs.Marks.{HoldsFirst};
ghost use Rattle.mapdb_script.specs.Sendings.{IsSent, TakesPart, TakesSent, after_taking};
ghost use Rattle.mapdb_script.specs.Sendings.{known_among};
ghost use Rattle.mapdb_script.specs.Sendings.{ops_between};

use mapdb_facts::Op;
use mapdb_replica::{Replica, TakeFault};

/// A part of the list of the copy that sent it, from the mark `first` on and up to before the mark
/// `end`.
#[derive(Clone, Copy, Debug)]
pub(crate) struct Sending {
    /// The place of the copy.
    pub(crate) sender: usize,
    /// The first mark.
    pub(crate) first: usize,
    /// The end mark.
    pub(crate) end: usize,
}

/// A copy takes a batch behind so many first operations, which it holds: that comes to what taking
/// all of them does.
fn take_part(copy: &mut Replica, batch: &[Op], known: usize) -> Result<u32, TakeFault>
    requires known { HoldsFirst copy.old.ops known batch.now }
    requires formed { all_formed batch.now ≡ true }
    ensures { TakesPart known batch.now result copy.old copy.new }
{
    // The proof needs that what the copy holds is sound, which is known where its list is.
    let _held = copy.ops();
    let (_known, part) = batch.split_at(known);
    copy.take(part)
}

/// A copy takes what another one sent, of whose list it holds so many first operations.
fn take_between(
    copy: &mut Replica,
    other: &Replica,
    sending: Sending,
    mark: usize,
) -> Result<u32, TakeFault>
    requires known { HoldsFirst copy.old.ops mark other.now.ops }
    requires ordered { sending.first ≤ sending.end }
    requires within { sending.end ≤ length other.now.ops }
    ensures { TakesPart (known_among sending mark)
        (ops_between sending.first sending.end other.now.ops) result copy.old copy.new }
{
    let known = mark.min(sending.end).saturating_sub(sending.first);
    take_part(copy, &other.ops()[sending.first..sending.end], known)
}

/// A copy takes a part of its own list, all of which it holds.
fn take_own(copy: &mut Replica, sending: Sending) -> Result<u32, TakeFault>
    requires ordered { sending.first ≤ sending.end }
    requires within { sending.end ≤ length copy.old.ops }
    ensures { TakesPart (sending.end - sending.first)
        (ops_between sending.first sending.end copy.old.ops) result copy.old copy.new }
{
    // The proof needs that what the copy holds is sound, as above.
    let _held = copy.ops();
    copy.take(&[])
}

/// How many first operations of a sender's list a copy is known to hold once it took a part of it,
/// or did not take it.
pub(crate) fn known_after(mark: usize, sending: Sending, is_taken: bool) -> usize
    ensures { result ≡ after_taking mark sending is_taken }
{
    if is_taken && sending.first <= mark {
        mark.max(sending.end)
    } else {
        mark
    }
}

/// One of the copies takes what one of them sent, of whose list it holds so many first operations.
/// The others stay.
pub(crate) fn take_sending(
    copies: &mut [Replica],
    into: usize,
    sending: Sending,
    mark: usize,
) -> Result<u32, TakeFault>
    requires into { into < length copies.old }
    requires sent { IsSent copies.old sending }
    requires held { (one other : Log) → slice_get copies.old into ≡ Some one
        → slice_get copies.old sending.sender ≡ Some other → HoldsFirst one.ops mark other.ops }
    ensures { TakesSent copies.old into sending result copies.new }
{
    if sending.sender == into {
        return take_own(&mut copies[into], sending);
    }
    if into < sending.sender {
        let (front, back) = copies.split_at_mut(sending.sender);
        take_between(&mut front[into], &back[0], sending, mark)
    } else {
        let (front, back) = copies.split_at_mut(into);
        take_between(&mut back[0], &front[sending.sender], sending, mark)
    }
}
