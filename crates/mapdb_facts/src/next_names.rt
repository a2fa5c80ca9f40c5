//! Which name comes next: near names are met number by number, far ones stand in their order.

ghost use Rattle.std.specs.Prelude.{◌≡◌, ◌≢◌, ◌⊎◌, ◌≤◌, ◌<◌, ℕ, None, Some, IfSome, IsSome};
ghost use Rattle.std.specs.Prelude.{MatchOption, length, slice_get};
ghost use Rattle.std.specs.BTreeMap.{is_at};
ghost use Rattle.std.specs.BTreeMap.Range.{IsLeBy};
ghost use Rattle.std.specs.Map.{lookup};
ghost use Rattle.mapdb_join.specs.Keys.{IsAbove};
ghost use Rattle.mapdb_facts.specs.Kept.{id_cmp};
ghost use Rattle.mapdb_facts.specs.Names.{processor_limit};
ghost use Rattle.mapdb_facts.specs.NamePlaces.{AreShort, HaveFewLists, IsFrom, near_word, place_in};
ghost use Rattle.mapdb_facts.specs.NamePlaces.{words_in};
ghost use Rattle.mapdb_facts.specs.declared.names.RecordId.{RecordId};
ghost use Rattle.std.specs.declared.cmp.Ordering.TheVariants.{Less};

use crate::limits::{NAME_NUMBERS, NUMBER_LIMIT};
use crate::name_places::{NamePlaces, near_word};
use crate::names::RecordId;
use std::collections::BTreeMap;
use std::ops::Bound;

/// The near name of a number with the least processor, from one on.
fn near_with(near: &[Vec<u32>], number: u64, first: usize) -> Option<RecordId>
    requires few { length near.now ≤ processor_limit }
    requires number { number < NAME_NUMBERS }
    ensures none { MatchOption result ((p : ℕ) → first ≤ p
        → near_word near.now (record { number = number; processor = p }) ≡ 0) (λ _. Unit {0}) }
    ensures found { IfSome result (λ id. (id.number ≡ number) × (first ≤ id.processor)
        × (near_word near.now id ≢ 0)) }
    ensures least { IfSome result (λ id. (p : ℕ) → first ≤ p → p < id.processor
        → near_word near.now (record { number = number; processor = p }) ≡ 0) }
{
    let mut at = first;
    while at < near.len() {
        let processor = at as u8;
        let id = RecordId::new(number, processor);
        if near_word(near, id) != 0 {
            return Some(id);
        }
        at += 1;
    }
    None
}

/// How many words the longest of the lists has.
fn longest(near: &[Vec<u32>]) -> usize
    ensures { (p : ℕ) → length (words_in (slice_get near.now p)) ≤ result }
{
    let mut longest = 0;
    for words in near {
        longest = longest.max(words.len());
    }
    longest
}

/// Where a walk over near names ends: behind the longest list, or behind the number of the far name
/// that comes next. Otherwise a gap between near names would be gone through once for each far name
/// in it.
fn walk_end(near: &[Vec<u32>], far: &Option<RecordId>) -> u64
    requires { AreShort near.now }
    ensures limit { result ≤ NUMBER_LIMIT }
    ensures behind { (q : RecordId) → result ≤ q.number → (near_word near.now q ≡ 0)
        ⊎ (IsSome far.now × IfSome far.now (λ id. IsLeBy id_cmp id q)) }
{
    let end = NUMBER_LIMIT.min(longest(near) as u64);
    match far {
        Some(id) if id.number() < end => id.number() + 1,
        _ => end,
    }
}

/// The least near name from a number and one of its processors on, below an end of the numbers.
fn near_from(near: &[Vec<u32>], number: u64, first: usize, end: u64) -> Option<RecordId>
    requires few { length near.now ≤ processor_limit }
    requires end { end ≤ NUMBER_LIMIT }
    ensures none { MatchOption result ((q : RecordId) → IsFrom number first q → q.number < end
        → near_word near.now q ≡ 0) (λ _. Unit {0}) }
    ensures found { IfSome result (λ id. IsFrom number first id × (near_word near.now id ≢ 0)) }
    ensures least { IfSome result (λ id. (q : RecordId) → IsFrom number first q
        → near_word near.now q ≢ 0 → IsLeBy id_cmp id q) }
{
    let mut at = number;
    let mut processor = first;
    while at < end {
        if let Some(id) = near_with(near, at, processor) {
            return Some(id);
        }
        at += 1;
        processor = 0;
    }
    None
}

/// The least near name above another, or of all, below an end of the numbers.
fn near_above(near: &[Vec<u32>], after: Option<RecordId>, end: u64) -> Option<RecordId>
    requires few { length near.now ≤ processor_limit }
    requires end { end ≤ NUMBER_LIMIT }
    ensures none { MatchOption result ((q : RecordId) → IsAbove id_cmp after q → q.number < end
        → near_word near.now q ≡ 0) (λ _. Unit {0}) }
    ensures found { IfSome result (λ id. IsAbove id_cmp after id × (near_word near.now id ≢ 0)) }
    ensures least { IfSome result (λ id. (q : RecordId) → IsAbove id_cmp after q
        → near_word near.now q ≢ 0 → IsLeBy id_cmp id q) }
{
    match after {
        Some(id) => near_from(near, id.number(), id.processor() as usize + 1, end),
        None => near_from(near, 0, 0, end),
    }
}

/// The least far name.
fn first_far(far: &BTreeMap<RecordId, usize>) -> Option<RecordId>
    ensures none { MatchOption result
        ((q : RecordId) → lookup (is_at (id_cmp q)) far.now.entries ≡ None) (λ _. Unit {0}) }
    ensures found { IfSome result (λ id. IsSome (lookup (is_at (id_cmp id)) far.now.entries)) }
    ensures least { IfSome result (λ id. (q : RecordId)
        → IsSome (lookup (is_at (id_cmp q)) far.now.entries) → IsLeBy id_cmp id q) }
{
    match far.first_key_value() {
        Some((id, _)) => Some(*id),
        None => None,
    }
}

/// The least far name above another.
fn far_after(far: &BTreeMap<RecordId, usize>, after: RecordId) -> Option<RecordId>
    ensures none { MatchOption result ((q : RecordId) → id_cmp after q ≡ Less
        → lookup (is_at (id_cmp q)) far.now.entries ≡ None) (λ _. Unit {0}) }
    ensures found { IfSome result (λ id. (id_cmp after id ≡ Less)
        × IsSome (lookup (is_at (id_cmp id)) far.now.entries)) }
    ensures least { IfSome result (λ id. (q : RecordId) → id_cmp after q ≡ Less
        → IsSome (lookup (is_at (id_cmp q)) far.now.entries) → IsLeBy id_cmp id q) }
{
    let above = (Bound::Excluded(after), Bound::Unbounded);
    match far.range(above).next() {
        Some((id, _)) => Some(*id),
        None => None,
    }
}

/// The least far name above another, or of all.
fn far_above(far: &BTreeMap<RecordId, usize>, after: &Option<RecordId>) -> Option<RecordId>
    ensures none { MatchOption result ((q : RecordId) → IsAbove id_cmp after.now q
        → lookup (is_at (id_cmp q)) far.now.entries ≡ None) (λ _. Unit {0}) }
    ensures found { IfSome result (λ id. IsAbove id_cmp after.now id
        × IsSome (lookup (is_at (id_cmp id)) far.now.entries)) }
    ensures least { IfSome result (λ id. (q : RecordId) → IsAbove id_cmp after.now q
        → IsSome (lookup (is_at (id_cmp q)) far.now.entries) → IsLeBy id_cmp id q) }
{
    match after {
        Some(id) => far_after(far, *id),
        None => first_far(far),
    }
}

/// The lesser of two names, or the one that there is.
pub(crate) fn lesser(one: Option<RecordId>, other: Option<RecordId>) -> Option<RecordId>
    ensures none { MatchOption result ((one ≡ None) × (other ≡ None)) (λ _. Unit {0}) }
    ensures either { IfSome result (λ id. (one ≡ Some id) ⊎ (other ≡ Some id)) }
    ensures least { IfSome result (λ id. IfSome one (IsLeBy id_cmp id)
        × IfSome other (IsLeBy id_cmp id)) }
{
    match (one, other) {
        (Some(id), Some(next)) if next.is_before(id) => other,
        (Some(_), _) => one,
        (None, _) => other,
    }
}

impl NamePlaces {
    /// The least name above another, or of all, that has a place. A far name may lie between near
    /// ones: more numbers are near now than when it came.
    pub(crate) fn next(&self, after: Option<RecordId>) -> Option<RecordId>
        requires few { HaveFewLists self.now.near.items }
        ensures none { MatchOption result
            ((q : RecordId) → IsAbove id_cmp after q → place_in self.now q ≡ None)
            (λ _. Unit {0}) }
        ensures found { IfSome result (λ id. IsAbove id_cmp after id
            × IsSome (place_in self.now id)) }
        ensures least { IfSome result (λ id. (q : RecordId) → IsAbove id_cmp after q
            → IsSome (place_in self.now q) → IsLeBy id_cmp id q) }
    {
        let lists = self.near.as_slice();
        let far = far_above(&self.far, &after);
        let end = walk_end(lists, &far);
        lesser(near_above(lists, after, end), far)
    }
}
