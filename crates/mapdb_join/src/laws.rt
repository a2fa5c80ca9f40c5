//! What holds of the order, the union and a clash, for every type that merges. Each function does
//! nothing when it runs: its contract is the law.
ghost use Rattle.std.specs.Prelude.{◌≡◌, ◌^◌, true, List, [], ◌∷◌, Some};
ghost use Rattle.std.specs.List.{Contains};
ghost use Rattle.std.specs.Map.{lookup};
ghost use Rattle.std.specs.BTreeMap.{is_at};
ghost use Rattle.mapdb_join.specs.Atoms.{Includes, IsSame, IsUnion, IsLeastUpperBound, Clashes};
ghost use Rattle.mapdb_join.specs.Entries.{has_under, IsChangedAt, ChangesAlone};

use crate::exact::Exact;
use crate::merge::Merge;
use crate::runs::{BITS_LIMIT, RUN_LIMIT};

/// A value covers itself, what is covered by what is covered is covered, and two values that cover
/// each other have the same atoms.
pub fn partial_order<T: Merge>()
    ensures reflexive { (a : T) → Includes T.has a a }
    ensures transitive { (a b c : T) → Includes T.has a b → Includes T.has b c
        → Includes T.has a c }
    ensures antisymmetric { (a b : T) → Includes T.has a b → Includes T.has b a → IsSame T.has a b }
{}

/// A value has finitely many atoms.
pub fn finitely_many<T: Merge>()
    ensures { (a : T) → (xs : List T.Atom) × ((x : T.Atom) → T.has a x ≡ true → Contains xs x) }
{}

/// The union of b and a is that of a and b.
pub fn commutative<T: Merge>()
    ensures { (a b c : T) → IsUnion T.has a b c → IsUnion T.has b a c }
{}

/// Three values have one union, whichever two are united first.
pub fn associative<T: Merge>()
    ensures { (a b c ab bc d : T) → IsUnion T.has a b ab → IsUnion T.has b c bc →
        IsUnion T.has ab c d → IsUnion T.has a bc d }
{}

/// The union of a value with itself is itself.
pub fn idempotent<T: Merge>()
    ensures { (a : T) → IsUnion T.has a a a }
{}

/// The union is the least value that covers both.
pub fn least_upper_bound<T: Merge>()
    ensures { (a b c : T) → IsUnion T.has a b c → IsLeastUpperBound T.has a b c }
{}

/// Where two values clash, no value covers both, not even one that no program can have.
pub fn clash_has_no_upper_bound<T: Merge>()
    ensures { (a b c : T) → Clashes T.has T.excludes a b →
        Includes T.has c a → Includes T.has c b → ⊥ }
{}

/// Where two values of a program do not clash, a program can have their least upper bound.
pub fn bound_where_no_clash<T: Merge>()
    ensures { (a b : T) → T.is_value a → T.is_value b → (Clashes T.has T.excludes a b → ⊥) →
        (c : T) × T.is_value c × IsLeastUpperBound T.has a b c }
{}

/// Two values clash first at one spot only, so `clash` has one answer.
pub fn one_spot<T: Merge>()
    ensures { (a b : T) (s t : T.Spot) → T.is_spot a b s → T.is_spot a b t → s ≡ t }
{}

/// An entry that changes under a key of a map changes the atoms under that key alone. `get_mut` and
/// `insert` of `JoinMap` change one entry.
pub fn changed_entry<K: Ord + Exact, V: Merge>()
    ensures { (old new : List (K × V)) (k : K) (v : V) →
        IsChangedAt K.cmp old new k v → ChangesAlone K.cmp V.has old new k v }
{}

/// Where the value under a key becomes its union with a part, the map becomes its union with the
/// map that has this part alone under this key. So a union deep in nested maps is one of the whole.
pub fn union_under_key<K: Ord + Exact, V: Merge>()
    ensures { (old new : List (K × V)) (k : K) (v part w : V) →
        lookup (is_at (K.cmp k)) old ≡ Some v → IsChangedAt K.cmp old new k w →
        IsUnion V.has v part w → IsUnion (has_under K.cmp V.has) old ((k, part) ∷ []) new }
{}

/// The numbers that the bounds of runs are: pages of 48-bit addresses, and sets of three bits.
pub fn run_bounds()
    ensures { (RUN_LIMIT ≡ 2 ^ 36) × (BITS_LIMIT ≡ 2 ^ 3) }
{}
