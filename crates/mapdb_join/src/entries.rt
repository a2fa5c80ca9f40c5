//! The entries of a map: one of them lies in the map itself, and more in a tree.
ghost use Rattle.std.specs.Prelude.{◌≡◌, [], ◌∷◌, false, None, Some, IsSome, IfSome, OnOk, OnErr};
ghost use Rattle.std.specs.Prelude.{◌≢◌, IfOk, IfErr, IsErr, MatchOption, length};
ghost use Rattle.std.specs.Borrow.{sem};
ghost use Rattle.std.specs.Option.{option_copied, option_copied_mut};
ghost use Rattle.std.specs.Map.{lookup};
ghost use Rattle.std.specs.Ordering.{is_lt};
ghost use Rattle.std.specs.BTreeMap.{insert_entry, is_at};
ghost use Rattle.std.specs.BTreeMap.Range.{IsLeBy};
ghost use Rattle.mapdb_join.specs.Keys.{IsAbove};
ghost use Rattle.mapdb_join.specs.Entries.{IsChangedAt};
ghost use Rattle.mapdb_join.specs.Held.{entries_of};

use crate::exact::Exact;
use std::alloc::{AllocError, AllocFailed, Global};
use std::collections::BTreeMap;
use std::mem;
use std::ops::Bound;

/// A key with its value.
#[derive(Clone, Debug, Drop)]
pub(crate) struct Entry<K, V> {
    pub(crate) key: K,
    pub(crate) value: V,
}

impl<K: Ord + Exact, V> Entry<K, V> {
    ghost use Rattle.mapdb_join.specs.Held.{entry_of};
    ghost use Rattle.mapdb_join.specs.HeldLends.{lends_own};

    // The value, where the key is this one.
    fn get(&self, key: &K) -> Option<&V>
        ensures { option_copied result ≡ lookup (is_at (K.cmp key.now)) (entry_of self.now) }
    {
        if key.cmp(&self.key).is_eq() {
            Some(&self.value)
        } else {
            None
        }
    }

    // The value, where the key is this one, to change it.
    fn get_mut(&mut self, key: &K) -> Option<&mut V>
        ensures* writes_back { sem 𝓛 (lends_own K.row V.row K.Ord self.entry key.now result) }
        ensures value { option_copied_mut result
            ≡ lookup (is_at (K.cmp key.now)) (entry_of self.old) }
    {
        if key.cmp(&self.key).is_eq() {
            Some(&mut self.value)
        } else {
            None
        }
    }

    // The entry, where its key is above the other.
    fn next(&self, after: Option<K>) -> Option<(K, &V)>
        ensures none { MatchOption result
            ((q : K) → IsAbove K.cmp after q
            → lookup (is_at (K.cmp q)) (entry_of self.now) ≡ None)
            (λ _. Unit {0}) }
        ensures found { IfSome result (λ p. IsAbove K.cmp after p.0
            × (lookup (is_at (K.cmp p.0)) (entry_of self.now) ≡ Some p.1.now)) }
        ensures least { IfSome result (λ p. (q : K) → IsAbove K.cmp after q →
            IsSome (lookup (is_at (K.cmp q)) (entry_of self.now)) → IsLeBy K.cmp p.0 q) }
    {
        let is_above = match &after {
            Some(key) => key.cmp(&self.key).is_lt(),
            None => true,
        };
        if is_above {
            Some((self.key, &self.value))
        } else {
            None
        }
    }
}

// The first entry of the tree whose key is above the other.
fn next_in<K: Ord + Exact, V>(tree: &BTreeMap<K, V>, after: Option<K>) -> Option<(K, &V)>
    ensures none { MatchOption result
        ((q : K) → IsAbove K.cmp after q → lookup (is_at (K.cmp q)) tree.now.entries ≡ None)
        (λ _. Unit {0}) }
    ensures found { IfSome result (λ p. IsAbove K.cmp after p.0
        × (lookup (is_at (K.cmp p.0)) tree.now.entries ≡ Some p.1.now)) }
    ensures least { IfSome result (λ p. (q : K) → IsAbove K.cmp after q →
        IsSome (lookup (is_at (K.cmp q)) tree.now.entries) → IsLeBy K.cmp p.0 q) }
{
    let start = match &after {
        Some(key) => Bound::Excluded(key),
        None => Bound::Unbounded,
    };
    let end: Bound<&K> = Bound::Unbounded;
    match tree.range((start, end)).next() {
        Some((key, value)) => Some((*key, value)),
        None => None,
    }
}

// The tree of one entry. A refusal of memory hands the entry back.
fn tree_of<K: Ord + Exact, V: Drop>(
    alloc: Global,
    entry: Entry<K, V>,
) -> Result<BTreeMap<K, V>, AllocFailed<(K, V)>>
    ensures ok { IfOk result (λ tree. tree.entries ≡ (entry.key, entry.value) ∷ []) }
    ensures err { IfErr result (λ refused. refused.value ≡ (entry.key, entry.value)) }
{
    let mut tree = BTreeMap::new(alloc);
    tree.insert(entry.key, entry.value)?;
    Ok(tree)
}

/// The entries of a map, in the order of their keys. A tree is made for the second one, so one
/// entry alone takes no memory beside the map.
#[derive(Clone, Debug, Drop)]
pub(crate) enum Entries<K: Ord, V> {
    /// One entry.
    One(Entry<K, V>),
    /// Any number of entries, and mostly not one.
    Tree(BTreeMap<K, V>),
}

impl<K: Ord + Exact, V> Entries<K, V> {
    ghost use Rattle.mapdb_join.specs.Held.{entries_of};
    ghost use Rattle.mapdb_join.specs.HeldLends.{lends_held};

    /// No entries.
    pub(crate) fn new(alloc: Global) -> Entries<K, V>
        ensures { entries_of result ≡ [] }
    {
        Entries::Tree(BTreeMap::new(alloc))
    }

    /// How many entries there are.
    pub(crate) fn len(&self) -> usize
        ensures { result ≡ length (entries_of self.now) }
    {
        match self {
            Entries::One(_) => 1,
            Entries::Tree(tree) => tree.len(),
        }
    }

    /// The value under a key.
    pub(crate) fn get(&self, key: &K) -> Option<&V>
        ensures { option_copied result ≡ lookup (is_at (K.cmp key.now)) (entries_of self.now) }
    {
        match self {
            Entries::One(entry) => entry.get(key),
            Entries::Tree(tree) => tree.get(key),
        }
    }

    /// The value under a key, to change it. What is written there changes no other entry.
    pub(crate) fn get_mut(&mut self, key: &K) -> Option<&mut V>
        ensures* writes_back { sem 𝓛 (lends_held K.row V.row K.Ord self.entry key.now result) }
        ensures value { option_copied_mut result
            ≡ lookup (is_at (K.cmp key.now)) (entries_of self.old) }
    {
        match self {
            Entries::One(entry) => entry.get_mut(key),
            Entries::Tree(tree) => tree.get_mut(key),
        }
    }

    /// The least key above another, or of all at `None`, with its value. `None` where there is no
    /// such key.
    pub(crate) fn next(&self, after: Option<K>) -> Option<(K, &V)>
        ensures none { MatchOption result
            ((q : K) → IsAbove K.cmp after q
            → lookup (is_at (K.cmp q)) (entries_of self.now) ≡ None)
            (λ _. Unit {0}) }
        ensures found { IfSome result (λ p. IsAbove K.cmp after p.0
            × (lookup (is_at (K.cmp p.0)) (entries_of self.now) ≡ Some p.1.now)) }
        ensures least { IfSome result (λ p. (q : K) → IsAbove K.cmp after q →
            IsSome (lookup (is_at (K.cmp q)) (entries_of self.now)) → IsLeBy K.cmp p.0 q) }
    {
        match self {
            Entries::One(entry) => entry.next(after),
            Entries::Tree(tree) => next_in(tree, after),
        }
    }

    /// The greatest key, and `None` where there are no entries.
    pub(crate) fn last(&self) -> Option<K>
        ensures none { MatchOption result (entries_of self.now ≡ []) (λ _. Unit {0}) }
        ensures found { IfSome result
            (λ k. IsSome (lookup (is_at (K.cmp k)) (entries_of self.now))) }
        ensures greatest { IfSome result (λ k. (q : K) →
            IsSome (lookup (is_at (K.cmp q)) (entries_of self.now))
            → is_lt (K.cmp k q) ≡ false) }
    {
        match self {
            Entries::One(entry) => Some(entry.key),
            Entries::Tree(tree) => match tree.last_key_value() {
                Some((key, _)) => Some(*key),
                None => None,
            },
        }
    }
}

// A refusal that hands back a key with its value, as one of an entry.
fn with_one<K: Ord + Exact, V>(refused: AllocFailed<(K, V)>) -> AllocFailed<Entries<K, V>>
    ensures { entries_of result.value ≡ refused.value ∷ [] }
{
    let AllocFailed {
        value: (key, value),
    } = refused;
    AllocFailed {
        value: Entries::One(Entry { key, value }),
    }
}

impl<K: Ord + Exact, V: Drop> Entries<K, V> {
    ghost use Rattle.mapdb_join.specs.Held.{entries_of};

    // The entries with one more, under a key that is absent. A refusal of memory hands back those
    // that there were.
    fn with(
        self,
        alloc: Global,
        key: K,
        value: V,
    ) -> Result<Entries<K, V>, AllocFailed<Entries<K, V>>>
        requires { lookup (is_at (K.cmp key)) (entries_of self) ≡ None }
        ensures ok { IfOk result
            (λ more. entries_of more ≡ insert_entry K.cmp (entries_of self) key value) }
        ensures alone { IfOk result
            (λ more. IsChangedAt K.cmp (entries_of self) (entries_of more) key value) }
        ensures err { IfErr result (λ refused. entries_of refused.value ≡ entries_of self) }
        ensures first { IsErr result → entries_of self ≢ [] }
    {
        let mut tree = match self {
            Entries::One(entry) => match tree_of(alloc, entry) {
                Ok(tree) => tree,
                Err(refused) => return Err(with_one(refused)),
            },
            Entries::Tree(tree) => tree,
        };
        if tree.is_empty() {
            return Ok(Entries::One(Entry { key, value }));
        }
        match tree.insert(key, value) {
            Ok(_) => Ok(Entries::Tree(tree)),
            Err(AllocFailed { value: _ }) => Err(AllocFailed {
                value: Entries::Tree(tree),
            }),
        }
    }

    /// Puts a value under a key that is absent.
    ///
    /// The only error is that memory ran out, and then the entries are the same. The first entry
    /// takes no memory.
    pub(crate) fn insert(&mut self, alloc: Global, key: K, value: V) -> Result<(), AllocError>
        requires { lookup (is_at (K.cmp key)) (entries_of self.old) ≡ None }
        ensures ok { OnOk result
            (entries_of self.new ≡ insert_entry K.cmp (entries_of self.old) key value) }
        ensures alone { OnOk result
            (IsChangedAt K.cmp (entries_of self.old) (entries_of self.new) key value) }
        ensures err { OnErr result (entries_of self.new ≡ entries_of self.old) }
        ensures first { OnErr result (entries_of self.old ≢ []) }
    {
        match self {
            Entries::Tree(tree) if !tree.is_empty() => {
                tree.insert(key, value)?;
                Ok(())
            }
            _ => self.insert_early(alloc, key, value),
        }
    }

    // The same where there is one entry at most. Any entries are moved out and back.
    fn insert_early(&mut self, alloc: Global, key: K, value: V) -> Result<(), AllocError>
        requires { lookup (is_at (K.cmp key)) (entries_of self.old) ≡ None }
        ensures ok { OnOk result
            (entries_of self.new ≡ insert_entry K.cmp (entries_of self.old) key value) }
        ensures alone { OnOk result
            (IsChangedAt K.cmp (entries_of self.old) (entries_of self.new) key value) }
        ensures err { OnErr result (entries_of self.new ≡ entries_of self.old) }
        ensures first { OnErr result (entries_of self.old ≢ []) }
    {
        match mem::replace(self, Entries::new(alloc)).with(alloc, key, value) {
            Ok(more) => {
                *self = more;
                Ok(())
            }
            Err(mut refused) => {
                mem::swap(self, &mut refused.value);
                Err(AllocError::from(refused))
            }
        }
    }
}
