//! Values that take one part at a time.
ghost use Rattle.std.specs.Prelude.{◌≡◌, [], ◌∷◌, false, true, OnOk, OnErr, IfOk, IfErr, IsOk};
ghost use Rattle.std.specs.Prelude.{IsOkAnd, None};
ghost use Rattle.std.specs.Map.{lookup};
ghost use Rattle.std.specs.BTreeMap.{is_at};
ghost use Rattle.mapdb_join.specs.Atoms.{IsSame, IsUnion, Clashes};
ghost use Rattle.mapdb_join.specs.Bits.{has_bit};
ghost use Rattle.mapdb_join.specs.Entries.{has_under, holds_key, excludes_under};
ghost use Rattle.mapdb_join.specs.Grow.{has_key};
ghost use Rattle.mapdb_join.specs.Faults.{FaultKeeps};
ghost use Rattle.mapdb_join.specs.Held.{entries_of};

use crate::bits::BitsOr;
use crate::entries::{Entries, Entry};
use crate::exact::Exact;
use crate::flat::Flat;
use crate::grow::Grow;
use crate::map::JoinMap;
use crate::merge::{Merge, MergeFault};
use std::alloc::{AllocError, Global};

/// A value that takes one part as a whole or not at all.
///
/// The part of a map is a key with a part of its values, so the part of nested maps is the path to
/// the innermost value and what to merge there, as `(5, (2, value))`. `merge_part` makes the maps
/// on the path that are not there yet.
pub trait MergePart: Merge {
    /// What is merged at a time.
    type Part: Copy;

    /// The value that has this part and nothing else.
    ghost alone: { Self.Part → Self };

    /// Merges the part: leaves exactly the union with the value that has this part alone.
    ///
    /// [`MergeFault::Clash`] comes exactly where the two clash; the part itself says where.
    /// [`MergeFault::Memory`] comes only where they do not. Neither changes anything.
    fn merge_part(&mut self, part: Self::Part) -> Result<(), MergeFault<()>>
        ensures ok { OnOk result (IsUnion Self.has self.old (alone part) self.new
            × (Clashes Self.has Self.excludes self.old (alone part) → ⊥)) }
        ensures err { IfErr result (FaultKeeps Self.has Self.excludes self.old (alone part)
            self.new) };

    /// A value with the atoms of this part alone. The only error is that memory ran out.
    fn of_part(alloc: Global, part: Self::Part) -> Result<Self, AllocError>
        ensures { IfOk result (λ v. IsSame Self.has (alone part) v) };
}

/// The part is a value.
impl<T: Exact> MergePart for Flat<T> {
    type Part = T;

    ghost alone = { λ x. x };

    fn merge_part(&mut self, part: T) -> Result<(), MergeFault<()>> {
        self.merge(&Flat::new(part))
    }

    fn of_part(_alloc: Global, part: T) -> Result<Flat<T>, AllocError>
        ensures { IsOkAnd result (λ v. v ≡ part) }
    {
        Ok(Flat::new(part))
    }
}

/// The part is the bits of a byte. It is never refused.
impl MergePart for BitsOr {
    type Part = u8;

    ghost alone = { λ n. n };

    fn merge_part(&mut self, part: u8) -> Result<(), MergeFault<()>>
        ensures ok { OnOk result (IsUnion has_bit self.old part self.new
            × (Clashes has_bit (λ _ _. ⊥) self.old part → ⊥)) }
        ensures never_refused { IsOk result }
    {
        self.add(part);
        Ok(())
    }

    fn of_part(_alloc: Global, part: u8) -> Result<BitsOr, AllocError>
        ensures { IsOkAnd result (λ v. v ≡ part) }
    {
        Ok(BitsOr::new(part))
    }
}

/// The part is a key.
impl<K: Ord + Exact> MergePart for Grow<K> {
    type Part = K;

    ghost alone = { λ k. k ∷ [] };

    /// Wants memory only where the key is new, and has no other fault.
    fn merge_part(&mut self, part: K) -> Result<(), MergeFault<()>>
        ensures ok { OnOk result (IsUnion (has_key K.cmp) self.old (part ∷ []) self.new
            × (Clashes (has_key K.cmp) (λ _ _. ⊥) self.old (part ∷ []) → ⊥)) }
        ensures err { IfErr result (FaultKeeps (has_key K.cmp) (λ _ _. ⊥) self.old (part ∷ [])
            self.new) }
        ensures absent { OnErr result (has_key K.cmp self.old part ≡ false) }
    {
        self.add(part)?;
        Ok(())
    }

    fn of_part(alloc: Global, part: K) -> Result<Grow<K>, AllocError> {
        let mut keys = Grow::new(alloc);
        keys.add(part)?;
        Ok(keys)
    }
}

// Whether the key lies above all keys that there are. In a map that grows at its end this saves the
// search for what is not there.
fn is_behind<K: Ord + Exact, V>(map: &Entries<K, V>, key: &K) -> bool
    ensures { result ≡ true → lookup (is_at (K.cmp key.now)) (entries_of map.now) ≡ None }
{
    match map.last() {
        Some(last) => last.cmp(key).is_lt(),
        None => false,
    }
}

// Makes the value of the part under a key that is absent.
fn put_part<K: Ord + Exact, V: MergePart>(
    map: &mut Entries<K, V>,
    alloc: Global,
    key: K,
    part: V::Part,
) -> Result<(), MergeFault<()>>
    requires { lookup (is_at (K.cmp key)) (entries_of map.old) ≡ None }
    ensures ok { OnOk result (IsUnion (has_under K.cmp V.has)
        (entries_of map.old) ((key, V.alone part) ∷ []) (entries_of map.new)
        × (Clashes (has_under K.cmp V.has) (excludes_under V.excludes)
        (entries_of map.old) ((key, V.alone part) ∷ []) → ⊥)) }
    ensures err { IfErr result (FaultKeeps (has_under K.cmp V.has) (excludes_under V.excludes)
        (entries_of map.old) ((key, V.alone part) ∷ []) (entries_of map.new)) }
    ensures keys { OnOk result (IsUnion (holds_key K.cmp) (entries_of map.old)
        ((key, V.alone part) ∷ []) (entries_of map.new)) }
    ensures others { (q : K) → is_at (K.cmp key) q ≡ false
        → lookup (is_at (K.cmp q)) (entries_of map.new)
        ≡ lookup (is_at (K.cmp q)) (entries_of map.old) }
{
    let value = V::of_part(alloc, part)?;
    map.insert(alloc, key, value)?;
    Ok(())
}

// Merges the part into the value under the key, and makes that value where it is absent.
fn merge_at<K: Ord + Exact, V: MergePart>(
    map: &mut Entries<K, V>,
    alloc: Global,
    key: K,
    part: V::Part,
) -> Result<(), MergeFault<()>>
    ensures ok { OnOk result (IsUnion (has_under K.cmp V.has)
        (entries_of map.old) ((key, V.alone part) ∷ []) (entries_of map.new)
        × (Clashes (has_under K.cmp V.has) (excludes_under V.excludes)
        (entries_of map.old) ((key, V.alone part) ∷ []) → ⊥)) }
    ensures err { IfErr result (FaultKeeps (has_under K.cmp V.has) (excludes_under V.excludes)
        (entries_of map.old) ((key, V.alone part) ∷ []) (entries_of map.new)) }
    ensures keys { OnOk result (IsUnion (holds_key K.cmp) (entries_of map.old)
        ((key, V.alone part) ∷ []) (entries_of map.new)) }
    ensures others { (q : K) → is_at (K.cmp key) q ≡ false
        → lookup (is_at (K.cmp q)) (entries_of map.new)
        ≡ lookup (is_at (K.cmp q)) (entries_of map.old) }
{
    if is_behind(map, &key) {
        return put_part(map, alloc, key, part);
    }
    if let Some(mine) = map.get_mut(&key) {
        return mine.merge_part(part);
    }
    put_part(map, alloc, key, part)
}

/// The part is a key with a part of its value.
impl<K: Ord + Exact, V: MergePart> MergePart for JoinMap<K, V> {
    type Part = (K, V::Part);

    ghost alone = { λ p. (p.0, V.alone p.1) ∷ [] };

    /// The map then holds the part's key, and each other entry stays.
    fn merge_part(&mut self, part: (K, V::Part)) -> Result<(), MergeFault<()>>
        ensures ok { OnOk result (IsUnion (has_under K.cmp V.has)
            self.old ((part.0, V.alone part.1) ∷ []) self.new
            × (Clashes (has_under K.cmp V.has) (excludes_under V.excludes)
            self.old ((part.0, V.alone part.1) ∷ []) → ⊥)) }
        ensures err { IfErr result (FaultKeeps (has_under K.cmp V.has) (excludes_under V.excludes)
            self.old ((part.0, V.alone part.1) ∷ []) self.new) }
        ensures keys { OnOk result (IsUnion (holds_key K.cmp)
            self.old ((part.0, V.alone part.1) ∷ []) self.new) }
        ensures others { (q : K) → is_at (K.cmp part.0) q ≡ false →
            lookup (is_at (K.cmp q)) self.new ≡ lookup (is_at (K.cmp q)) self.old }
    {
        merge_at(&mut self.entries, self.alloc, part.0, part.1)
    }

    /// The map holds the part's key and no other, also where the part has no atoms.
    fn of_part(alloc: Global, part: (K, V::Part)) -> Result<JoinMap<K, V>, AllocError>
        ensures same { IfOk result (λ v. IsSame (has_under K.cmp V.has)
            ((part.0, V.alone part.1) ∷ []) v) }
        ensures keys { IfOk result (λ v. IsSame (holds_key K.cmp) ((part.0, V.alone part.1) ∷ [])
            v) }
    {
        let value = V::of_part(alloc, part.1)?;
        Ok(JoinMap {
            alloc,
            entries: Entries::One(Entry { key: part.0, value }),
        })
    }
}
