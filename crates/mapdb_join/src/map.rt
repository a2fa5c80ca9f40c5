//! A map of values that merge.
ghost use Rattle.std.specs.Prelude.{◌≡◌, [], ◌∷◌, false, None, Some, IsSome, IfSome, OnOk, IfOk};
ghost use Rattle.std.specs.Prelude.{◌≢◌, IfErr, OnErr, MatchOption, length};
ghost use Rattle.std.specs.Borrow.{sem};
ghost use Rattle.std.specs.Option.{option_copied, option_copied_mut};
ghost use Rattle.std.specs.Map.{lookup};
ghost use Rattle.std.specs.Ordering.{is_lt};
ghost use Rattle.std.specs.BTreeMap.{insert_entry, is_at};
ghost use Rattle.std.specs.BTreeMap.Range.{IsLeBy};
ghost use Rattle.mapdb_join.specs.Keys.{IsAbove};
ghost use Rattle.mapdb_join.specs.Atoms.{IsSame, IsUnion, Clashes};
ghost use Rattle.mapdb_join.specs.Faults.{FaultLeaves, TellsMemory};
ghost use Rattle.mapdb_join.specs.Entries.{has_under, holds_key, excludes_under, atoms_under};
ghost use Rattle.mapdb_join.specs.Entries.{IsMap, IsFirstClash, IsChangedAt, IsPartMerged};
ghost use Rattle.mapdb_join.specs.Lawful.Exact.{exact_cmp};
ghost use Rattle.mapdb_join.specs.Lawful.Entries.{exclusion_under, finite_under, joined_under};
ghost use Rattle.mapdb_join.specs.Lawful.Entries.{one_first_spot};

use crate::entries::Entries;
use crate::exact::{Exact, Representable};
use crate::merge::{Merge, MergeFault};
use crate::walks::{all_none, covers_all, first_clash, merge_all, prove_entries};
use std::alloc::{AllocError, Global};
use std::marker::Model;

/// A map whose values merge key by key, nested at will. Two maps clash where the values under one
/// key clash, and the clash that is named has the least such key.
///
/// A key may have a value without atoms: it counts for `get`, `next` and `last`, and has no part in
/// `covers`, `clash` and `is_none`.
#[derive(Clone, Debug, Drop)]
pub struct JoinMap<K: Ord, V> {
    pub(crate) alloc: Global,
    pub(crate) entries: Entries<K, V>,
}

impl<K: Ord, V> Model for JoinMap<K, V> {
    ghost use Rattle.std.specs.Prelude.{List};

    ghost Value = { List (K × V) };

    ghost use Rattle.mapdb_join.specs.Held.{entries_of};

    ghost view = { λ a. entries_of a.entries };
}

impl<K: Ord + Exact, V: Merge> JoinMap<K, V> {
    ghost use Rattle.mapdb_join.specs.Lends.{lends_value};

    /// The empty map, which takes what memory it will need from the allocator. It takes none
    /// itself.
    pub fn new(alloc: Global) -> JoinMap<K, V>
        ensures { result ≡ [] }
    {
        JoinMap {
            alloc,
            entries: Entries::new(alloc),
        }
    }

    /// How many entries the map has.
    pub fn len(&self) -> usize
        ensures { result ≡ length self.now }
    {
        self.entries.len()
    }

    /// The value under a key.
    pub fn get(&self, key: &K) -> Option<&V>
        ensures { option_copied result ≡ lookup (is_at (K.cmp key.now)) self.now }
    {
        self.entries.get(key)
    }

    /// The value under a key, to change it. What is written there changes no other entry.
    pub fn get_mut(&mut self, key: &K) -> Option<&mut V>
        ensures* writes_back { sem 𝓛 (lends_value K.row V.row K.Ord self.entry key.now result) }
        ensures value { option_copied_mut result ≡ lookup (is_at (K.cmp key.now)) self.old }
    {
        self.entries.get_mut(key)
    }

    /// The least key above another, or of all at `None`, with its value. `None` where there is no
    /// such key.
    pub fn next(&self, after: Option<K>) -> Option<(K, &V)>
        ensures none { MatchOption result
            ((q : K) → IsAbove K.cmp after q → lookup (is_at (K.cmp q)) self.now ≡ None)
            (λ _. Unit {0}) }
        ensures found { IfSome result (λ p. IsAbove K.cmp after p.0
            × (lookup (is_at (K.cmp p.0)) self.now ≡ Some p.1.now)) }
        ensures least { IfSome result (λ p. (q : K) → IsAbove K.cmp after q →
            IsSome (lookup (is_at (K.cmp q)) self.now) → IsLeBy K.cmp p.0 q) }
    {
        self.entries.next(after)
    }

    /// The greatest key, and `None` where the map is empty.
    pub fn last(&self) -> Option<K>
        ensures none { MatchOption result (self.now ≡ []) (λ _. Unit {0}) }
        ensures found { IfSome result (λ k. IsSome (lookup (is_at (K.cmp k)) self.now)) }
        ensures greatest { IfSome result (λ k. (q : K) →
            IsSome (lookup (is_at (K.cmp q)) self.now) → is_lt (K.cmp k q) ≡ false) }
    {
        self.entries.last()
    }

    /// Puts a value under a key that is absent.
    ///
    /// The only error is that memory ran out, and then nothing has changed. An empty map takes its
    /// one entry without memory.
    pub fn insert(&mut self, key: K, value: V) -> Result<(), AllocError>
        requires { lookup (is_at (K.cmp key)) self.old ≡ None }
        ensures ok { OnOk result (self.new ≡ insert_entry K.cmp self.old key value) }
        ensures alone { OnOk result (IsChangedAt K.cmp self.old self.new key value) }
        ensures atoms { OnOk result (IsUnion (has_under K.cmp V.has) self.old ((key, value) ∷ [])
            self.new) }
        ensures err { OnErr result (self.new ≡ self.old) }
        ensures first { OnErr result (self.old ≢ []) }
    {
        self.entries.insert(self.alloc, key, value)
    }
}

impl<K: Ord + Exact, V: Representable> Representable for JoinMap<K, V> {
    ghost is_value = { IsMap K.cmp K.is_value V.is_value };

    fn prove_value(&self) {
        prove_entries(&self.entries);
    }
}

impl<K: Ord + Exact, V: Merge> Merge for JoinMap<K, V> {
    type Atom = (K, V::Atom);

    type Spot = (K, V::Spot);

    ghost has = { has_under K.cmp V.has };

    ghost excludes = { excludes_under V.excludes };

    ghost is_spot = { IsFirstClash K.cmp V.has V.excludes V.is_spot };

    ghost atoms = { atoms_under V.atoms };

    fn covers(&self, other: &JoinMap<K, V>) -> bool {
        covers_all(&self.entries, &other.entries)
    }

    fn clash(&self, other: &JoinMap<K, V>) -> Option<(K, V::Spot)> {
        first_clash(&self.entries, &other.entries)
    }

    /// Leaves the keys of both, also those without atoms. Where memory ran out, the keys lie
    /// between the old ones and those of both, and the value under a new key is whole.
    fn merge(&mut self, other: &JoinMap<K, V>) -> Result<(), MergeFault<(K, V::Spot)>>
        ensures ok { OnOk result (IsUnion (has_under K.cmp V.has) self.old other.now self.new
            × (Clashes (has_under K.cmp V.has) (excludes_under V.excludes) self.old other.now
            → ⊥)) }
        ensures err { IfErr result (FaultLeaves (has_under K.cmp V.has) (excludes_under V.excludes)
            (IsFirstClash K.cmp V.has V.excludes V.is_spot) self.old other.now self.new) }
        ensures keys { OnOk result (IsUnion (holds_key K.cmp) self.old other.now self.new) }
        ensures part { IfErr result (λ fault. TellsMemory fault →
            IsPartMerged K.cmp V.has self.old other.now self.new) }
    {
        if let Some(spot) = first_clash(&self.entries, &other.entries) {
            return Err(MergeFault::Clash(spot));
        }
        match merge_all(&mut self.entries, self.alloc, &other.entries) {
            Ok(()) => Ok(()),
            Err(refused) => Err(MergeFault::Memory(refused)),
        }
    }

    fn is_none(&self) -> bool {
        all_none(&self.entries)
    }

    /// The copy has the same keys too.
    fn copy(&self) -> Result<JoinMap<K, V>, AllocError>
        ensures same { IfOk result (λ c. IsSame (has_under K.cmp V.has) self.now c) }
        ensures keys { IfOk result (λ c. IsSame (holds_key K.cmp) self.now c) }
    {
        let mut entries = Entries::new(self.alloc);
        merge_all(&mut entries, self.alloc, &self.entries)?;
        Ok(JoinMap {
            alloc: self.alloc,
            entries,
        })
    }

    ghost exclusion = { exclusion_under K.cmp V.has V.excludes V.exclusion };

    ghost joined = { joined_under K.total (exact_cmp K.cmp K.matches_eq K.exact) V.has V.excludes
        K.is_value V.is_value V.joined };

    ghost one_spot = { one_first_spot K.total (exact_cmp K.cmp K.matches_eq K.exact) V.has
        V.excludes V.is_spot V.one_spot };

    ghost finite = { finite_under K.cmp (exact_cmp K.cmp K.matches_eq K.exact) V.has V.atoms
        V.finite };
}
