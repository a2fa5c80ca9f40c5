//! Bits that are added over a region of pages.
ghost use Rattle.std.specs.Prelude.{◌≡◌, ◌∷◌, [], ◌++◌, ◌+◌, ◌≤◌, ◌<◌, List, length};
ghost use Rattle.std.specs.Prelude.{map, bit_or, IsTrue, ◌↔◌, OnOk, OnErr, IfOk, slice_range};
ghost use Rattle.std.specs.List.{All, remove_range, splice};
ghost use Rattle.mapdb_join.specs.Runs.{Ascends, HasOver, IsOver, IsRuns, count_below, last_bits};
ghost use Rattle.mapdb_join.specs.Tidy.{front, one_run, region, tidy, with_bits};
ghost use Rattle.mapdb_join.specs.declared.runs.starts.Start.{Start};

use crate::runs::bounds::{BITS_LIMIT, RUN_LIMIT};
use crate::runs::starts::{Start, Starts, bits_before, starts_below};
use smallvec::SmallVec;
use std::alloc::{AllocError, Global};

/// Appends a start, where it changes the bits.
fn put(list: &mut Starts, before: u8, start: Start) -> Result<(), AllocError>
    ensures { OnOk result ((xs : List Start) → list.old.items ≡ tidy before xs
        → list.new.items ≡ tidy before (xs ++ start ∷ [])) }
{
    if bits_before(before, list.as_slice(), list.len()) != start.bits {
        list.push(start)?;
    }
    Ok(())
}

/// Appends starts, each with the bits added, where they change the bits.
fn put_all(list: &mut Starts, before: u8, starts: &[Start], bits: u8) -> Result<(), AllocError>
    ensures { OnOk result ((xs : List Start) → list.old.items ≡ tidy before xs
        → list.new.items ≡ tidy before (xs ++ map (with_bits bits) starts.now)) }
{
    for start in starts {
        put(
            list,
            before,
            Start {
                page: start.page,
                bits: start.bits | bits,
            },
        )?;
    }
    Ok(())
}

/// Takes out the starts from one index up to another. It takes no memory.
fn take_away(starts: &mut Starts, low: usize, high: usize)
    requires { (low ≤ high) × (high ≤ length starts.old.items) }
    ensures { starts.new.items ≡ remove_range starts.old.items low high }
{
    let left = starts.len() - (high - low);
    starts.as_mut_slice()[low..].rotate_left(high - low);
    starts.truncate(left);
}

/// Puts a list in the place of the starts from one index up to another. A list that is as long as
/// they are is written over them, and takes no memory.
fn replace(starts: &mut Starts, low: usize, high: usize, list: &[Start]) -> Result<(), AllocError>
    requires { (low ≤ high) × (high ≤ length starts.old.items) }
    ensures ok { OnOk result (starts.new.items ≡ splice starts.old.items low high list.now) }
    ensures err { OnErr result (starts.new.items ≡ starts.old.items) }
{
    if list.len() == high - low {
        starts.as_mut_slice()[low..high].copy_from_slice(list);
        return Ok(());
    }
    let behind = starts.len() - high;
    starts.insert_from_slice(low, list)?;
    let end = starts.len() - behind;
    take_away(starts, end - (high - low), end);
    Ok(())
}

/// Appends the starts from one index up to another, each with the bits added, where they change the
/// bits.
fn put_between(
    list: &mut Starts,
    before: u8,
    starts: &[Start],
    low: usize,
    high: usize,
    bits: u8,
) -> Result<(), AllocError>
    requires { (low ≤ high) × (high ≤ length starts.now) }
    ensures { OnOk result ((xs : List Start) → list.old.items ≡ tidy before xs
        → list.new.items ≡ tidy before (xs
        ++ map (with_bits bits) (slice_range starts.now low high))) }
{
    put_all(list, before, &starts[low..high], bits)
}

/// What a change of bits over a region puts in the place of which starts.
struct Change {
    /// How many starts stay in front.
    low: usize,
    /// Where the starts that stay behind begin.
    high: usize,
    /// What comes between them.
    list: Starts,
}

/// The change that adds bits over a region: its starts with the bits added, and one behind it,
/// where they change the bits.
fn change_over(
    alloc: Global,
    starts: &[Start],
    first: u64,
    end: u64,
    bits: u8,
) -> Result<Change, AllocError>
    requires ascends { Ascends 0 starts.now }
    requires some { (first < end) × (end ≤ RUN_LIMIT) }
    ensures low { IfOk result (λ made. made.low ≡ count_below starts.now first) }
    ensures high { IfOk result (λ made. made.high ≡ count_below starts.now (end + 1)) }
    ensures bounds { IfOk result (λ made. (made.low ≤ made.high)
        × (made.high ≤ length starts.now)) }
    ensures list { IfOk result (λ made. made.list.items
        ≡ tidy (last_bits 0 (front starts.now first end bits)) (region starts.now first end bits)) }
{
    let low = starts_below(starts, first);
    let inner = starts_below(starts, first + 1);
    let outer = starts_below(starts, end);
    let high = starts_below(starts, end + 1);
    let before = bits_before(0, starts, low);
    let at_first = bits_before(0, starts, inner) | bits;
    let at_end = bits_before(0, starts, high);
    let mut list = SmallVec::new(alloc);
    put(
        &mut list,
        before,
        Start {
            page: first,
            bits: at_first,
        },
    )?;
    put_between(&mut list, before, starts, inner, outer, bits)?;
    put(
        &mut list,
        before,
        Start {
            page: end,
            bits: at_end,
        },
    )?;
    Ok(Change { low, high, list })
}

/// Makes one run of an empty list. The only error is that memory ran out.
fn begin_with(starts: &mut Starts, first: u64, end: u64, bits: u8) -> Result<(), AllocError>
    requires { starts.old.items ≡ [] }
    ensures ok { OnOk result (starts.new.items ≡ one_run first end bits) }
    ensures err { OnErr result (starts.new.items ≡ starts.old.items) }
{
    starts.reserve_exact(2)?;
    starts.push_reserved(Start { page: first, bits });
    starts.push_reserved(Start { page: end, bits: 0 });
    Ok(())
}

/// Adds bits to each page of a region that is not empty. The only error is that memory ran out, and
/// then nothing has changed.
pub(crate) fn add_over(
    starts: &mut Starts,
    alloc: Global,
    first: u64,
    end: u64,
    bits: u8,
) -> Result<(), AllocError>
    requires runs { IsRuns starts.old.items }
    requires some { (first < end) × (end ≤ RUN_LIMIT) }
    requires small { bits < BITS_LIMIT }
    ensures runs { OnOk result (IsRuns starts.new.items) }
    ensures over { OnOk result (IsOver first end bits starts.old.items starts.new.items) }
    ensures err { OnErr result (starts.new.items ≡ starts.old.items) }
{
    if bits != 0 && starts.is_empty() {
        return begin_with(starts, first, end, bits);
    }
    let Change { low, high, list } = change_over(alloc, starts.as_slice(), first, end, bits)?;
    replace(starts, low, high, list.as_slice())?;
    Ok(())
}

/// Whether each start has all of the bits.
fn all_have(starts: &[Start], bits: u8) -> bool
    ensures { IsTrue result ↔ All (λ start. bit_or start.bits bits ≡ start.bits) starts.now }
{
    starts.iter().all(|start| start.bits | bits == start.bits)
}

/// Whether each start from one index up to another has all of the bits.
fn have_between(starts: &[Start], low: usize, high: usize, bits: u8) -> bool
    requires { (low ≤ high) × (high ≤ length starts.now) }
    ensures { IsTrue result ↔ All (λ start. bit_or start.bits bits
        ≡ start.bits) (slice_range starts.now low high) }
{
    all_have(&starts[low..high], bits)
}

/// Whether each page of a region that is not empty has all of the bits.
pub(crate) fn has_over(starts: &[Start], first: u64, end: u64, bits: u8) -> bool
    requires ascends { Ascends 0 starts.now }
    requires some { (first < end) × (end ≤ RUN_LIMIT) }
    ensures { IsTrue result ↔ HasOver first end bits starts.now }
{
    let inner = starts_below(starts, first + 1);
    let outer = starts_below(starts, end);
    let at_first = bits_before(0, starts, inner);
    if at_first | bits != at_first {
        return false;
    }
    have_between(starts, inner, outer, bits)
}

/// Adds bits to each page of a region that is not empty, and answers whether a page lacked one of
/// them. The only error is that memory ran out, and then nothing has changed.
pub(crate) fn add_region(
    starts: &mut Starts,
    alloc: Global,
    first: u64,
    end: u64,
    bits: u8,
) -> Result<bool, AllocError>
    requires runs { IsRuns starts.old.items }
    requires some { (first < end) × (end ≤ RUN_LIMIT) }
    requires small { bits < BITS_LIMIT }
    ensures runs { IsRuns starts.new.items }
    ensures over { OnOk result (IsOver first end bits starts.old.items starts.new.items) }
    ensures new { IfOk result (λ new. IsTrue new ↔ ¬ (HasOver first end bits starts.old.items)) }
    ensures err { OnErr result (starts.new.items ≡ starts.old.items) }
    ensures lacks { OnErr result (¬ (HasOver first end bits starts.old.items)) }
{
    if has_over(starts.as_slice(), first, end, bits) {
        return Ok(false);
    }
    add_over(starts, alloc, first, end, bits)?;
    Ok(true)
}
