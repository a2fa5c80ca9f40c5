//! Walks over the entries of maps.
ghost use Rattle.std.specs.Prelude.{[], ◌∷◌, IfSome, OnOk, OnErr, IsTrue, ◌↔◌};
ghost use Rattle.std.specs.Prelude.{MatchOption};
ghost use Rattle.std.specs.Map.{lookup};
ghost use Rattle.std.specs.BTreeMap.{is_at};
ghost use Rattle.mapdb_join.specs.Atoms.{IsSame, IsUnion, IsBetween, Includes, HasNone, Clashes};
ghost use Rattle.mapdb_join.specs.Entries.{has_under, holds_key, excludes_under, IsFirstClash};
ghost use Rattle.mapdb_join.specs.Entries.{IsMap, IsPartMerged};
ghost use Rattle.mapdb_join.specs.Clashing.{NoneApart, IsClashUnder};
ghost use Rattle.mapdb_join.specs.Held.{entries_of};

use crate::entries::Entries;
use crate::exact::{Exact, Representable};
use crate::merge::Merge;
use std::alloc::{AllocError, Global};
use std::collections::BTreeMap;

// Whether the map covers one entry.
fn covers_one<K: Ord + Exact, V: Merge>(map: &Entries<K, V>, key: &K, theirs: &V) -> bool
    ensures { IsTrue result
        ↔ Includes (has_under K.cmp V.has) (entries_of map.now) ((key.now, theirs.now) ∷ []) }
{
    match map.get(key) {
        Some(mine) => mine.covers(theirs),
        None => theirs.is_none(),
    }
}

// Whether the map covers each entry of the tree.
fn covers_tree<K: Ord + Exact, V: Merge>(map: &Entries<K, V>, other: &BTreeMap<K, V>) -> bool
    ensures { IsTrue result
        ↔ Includes (has_under K.cmp V.has) (entries_of map.now) other.now.entries }
{
    for (key, theirs) in other {
        if !covers_one(map, key, theirs) {
            return false;
        }
    }
    true
}

/// Whether the map covers each entry of the other.
pub(crate) fn covers_all<K: Ord + Exact, V: Merge>(
    map: &Entries<K, V>,
    other: &Entries<K, V>,
) -> bool
    ensures { IsTrue result
        ↔ Includes (has_under K.cmp V.has) (entries_of map.now) (entries_of other.now) }
{
    match other {
        Entries::One(entry) => covers_one(map, &entry.key, &entry.value),
        Entries::Tree(tree) => covers_tree(map, tree),
    }
}

// Whether no value of the tree has an atom.
fn none_in_tree<K: Ord + Exact, V: Merge>(map: &BTreeMap<K, V>) -> bool
    ensures { IsTrue result ↔ HasNone (has_under K.cmp V.has) map.now.entries }
{
    for (_, value) in map {
        if !value.is_none() {
            return false;
        }
    }
    true
}

/// Whether no value of the map has an atom.
pub(crate) fn all_none<K: Ord + Exact, V: Merge>(map: &Entries<K, V>) -> bool
    ensures { IsTrue result ↔ HasNone (has_under K.cmp V.has) (entries_of map.now) }
{
    match map {
        Entries::One(entry) => entry.value.is_none(),
        Entries::Tree(tree) => none_in_tree(tree),
    }
}

// Where the value under the key clashes with another.
fn clash_under<K: Ord + Exact, V: Merge>(
    map: &Entries<K, V>,
    key: &K,
    theirs: &V,
) -> Option<V::Spot>
    ensures none { MatchOption result
        (NoneApart K.cmp V.has V.excludes (entries_of map.now) key.now theirs.now)
        (λ _. Unit {0}) }
    ensures some { IfSome result
        (IsClashUnder K.cmp V.has V.excludes V.is_spot (entries_of map.now) key.now theirs.now) }
{
    match map.get(key) {
        Some(mine) => mine.clash(theirs),
        None => None,
    }
}

// Where the map clashes first with the tree.
fn first_in_tree<K: Ord + Exact, V: Merge>(
    map: &Entries<K, V>,
    other: &BTreeMap<K, V>,
) -> Option<(K, V::Spot)>
    ensures none { MatchOption result
        (Clashes (has_under K.cmp V.has) (excludes_under V.excludes)
        (entries_of map.now) other.now.entries → ⊥)
        (λ _. Unit {0}) }
    ensures some { IfSome result (λ s.
        Clashes (has_under K.cmp V.has) (excludes_under V.excludes)
        (entries_of map.now) other.now.entries
        × IsFirstClash K.cmp V.has V.excludes V.is_spot
        (entries_of map.now) other.now.entries s) }
{
    for (key, theirs) in other {
        if let Some(spot) = clash_under(map, key, theirs) {
            return Some((*key, spot));
        }
    }
    None
}

/// Where the two maps clash first, in the order of the keys.
pub(crate) fn first_clash<K: Ord + Exact, V: Merge>(
    map: &Entries<K, V>,
    other: &Entries<K, V>,
) -> Option<(K, V::Spot)>
    ensures none { MatchOption result
        (Clashes (has_under K.cmp V.has) (excludes_under V.excludes)
        (entries_of map.now) (entries_of other.now) → ⊥)
        (λ _. Unit {0}) }
    ensures some { IfSome result (λ s.
        Clashes (has_under K.cmp V.has) (excludes_under V.excludes)
        (entries_of map.now) (entries_of other.now)
        × IsFirstClash K.cmp V.has V.excludes V.is_spot
        (entries_of map.now) (entries_of other.now) s) }
{
    match other {
        Entries::One(entry) => match clash_under(map, &entry.key, &entry.value) {
            Some(spot) => Some((entry.key, spot)),
            None => None,
        },
        Entries::Tree(tree) => first_in_tree(map, tree),
    }
}

// Merges one entry into the map.
fn merge_one<K: Ord + Exact, V: Merge>(
    map: &mut Entries<K, V>,
    alloc: Global,
    key: K,
    value: &V,
) -> Result<(), AllocError>
    requires { IfSome (lookup (is_at (K.cmp key)) (entries_of map.old))
        (λ mine. Clashes V.has V.excludes mine value.now → ⊥) }
    ensures ok { OnOk result (IsUnion (has_under K.cmp V.has)
        (entries_of map.old) ((key, value.now) ∷ []) (entries_of map.new)) }
    ensures keys { OnOk result (IsUnion (holds_key K.cmp)
        (entries_of map.old) ((key, value.now) ∷ []) (entries_of map.new)) }
    ensures err { OnErr result (IsBetween (has_under K.cmp V.has)
        (entries_of map.old) ((key, value.now) ∷ []) (entries_of map.new)) }
    ensures keys_stay { OnErr result (IsSame (holds_key K.cmp)
        (entries_of map.old) (entries_of map.new)) }
{
    if let Some(mine) = map.get_mut(&key) {
        return match mine.merge(value) {
            Ok(()) => Ok(()),
            Err(fault) => Err(fault.refusal()),
        };
    }
    let copy = value.copy()?;
    map.insert(alloc, key, copy)?;
    Ok(())
}

// Merges each entry of the tree into the map.
fn merge_tree<K: Ord + Exact, V: Merge>(
    map: &mut Entries<K, V>,
    alloc: Global,
    other: &BTreeMap<K, V>,
) -> Result<(), AllocError>
    requires { Clashes (has_under K.cmp V.has) (excludes_under V.excludes)
        (entries_of map.old) other.now.entries → ⊥ }
    ensures ok { OnOk result (IsUnion (has_under K.cmp V.has)
        (entries_of map.old) other.now.entries (entries_of map.new)) }
    ensures keys { OnOk result (IsUnion (holds_key K.cmp)
        (entries_of map.old) other.now.entries (entries_of map.new)) }
    ensures err { OnErr result (IsBetween (has_under K.cmp V.has)
        (entries_of map.old) other.now.entries (entries_of map.new)) }
    ensures part { OnErr result (IsPartMerged K.cmp V.has
        (entries_of map.old) other.now.entries (entries_of map.new)) }
{
    for (key, value) in other {
        merge_one(map, alloc, *key, value)?;
    }
    Ok(())
}

/// Merges each entry of the other into the map.
pub(crate) fn merge_all<K: Ord + Exact, V: Merge>(
    map: &mut Entries<K, V>,
    alloc: Global,
    other: &Entries<K, V>,
) -> Result<(), AllocError>
    requires { Clashes (has_under K.cmp V.has) (excludes_under V.excludes)
        (entries_of map.old) (entries_of other.now) → ⊥ }
    ensures ok { OnOk result (IsUnion (has_under K.cmp V.has)
        (entries_of map.old) (entries_of other.now) (entries_of map.new)) }
    ensures keys { OnOk result (IsUnion (holds_key K.cmp)
        (entries_of map.old) (entries_of other.now) (entries_of map.new)) }
    ensures err { OnErr result (IsBetween (has_under K.cmp V.has)
        (entries_of map.old) (entries_of other.now) (entries_of map.new)) }
    ensures part { OnErr result (IsPartMerged K.cmp V.has
        (entries_of map.old) (entries_of other.now) (entries_of map.new)) }
{
    match other {
        Entries::One(entry) => merge_one(map, alloc, entry.key, &entry.value),
        Entries::Tree(tree) => merge_tree(map, alloc, tree),
    }
}

// Shows that the entries of the tree are those of a map that a program can have.
fn prove_tree<K: Ord + Exact, V: Representable>(map: &BTreeMap<K, V>)
    ensures { IsMap K.cmp K.is_value V.is_value map.now.entries }
{
    for (key, value) in map {
        key.prove_value();
        value.prove_value();
    }
}

/// Shows that the entries are those of a map that a program can have.
pub(crate) fn prove_entries<K: Ord + Exact, V: Representable>(map: &Entries<K, V>)
    ensures { IsMap K.cmp K.is_value V.is_value (entries_of map.now) }
{
    match map {
        Entries::One(entry) => {
            entry.key.prove_value();
            entry.value.prove_value();
        }
        Entries::Tree(tree) => prove_tree(tree),
    }
}
