//! Values by the name of a record.

ghost use Rattle.std.specs.Prelude.{◌≡◌, [], None, OnErr, OnOk};
ghost use Rattle.std.specs.Map.{lookup};
ghost use Rattle.std.specs.Option.{option_copied};
ghost use Rattle.mapdb_facts.specs.ByName.{HasSameValues};
ghost use Rattle.mapdb_facts.specs.Names.{same_id};
ghost use Rattle.mapdb_facts.specs.NamedValues.{IsInserted};

use crate::name_places::NamePlaces;
use crate::names::RecordId;
use std::alloc::{AllocError, Global};
use std::marker::Model;

/// Values by the name of a record. The names are not listed beside them: a name is known by where
/// its value stands.
#[derive(Drop)]
pub struct ByName<V> {
    /// Where the value of each name stands.
    pub places: NamePlaces,
    /// The values, in the order in which their names came.
    pub values: Vec<V>,
}

impl<V> Model for ByName<V> {
    ghost use Rattle.std.specs.Prelude.{length};
    ghost use Rattle.mapdb_facts.specs.ByName.{ArePlacesBelow, by_places};
    ghost use Rattle.mapdb_facts.specs.NamedValues.{NamedValues};

    ghost Value = { NamedValues V };

    ghost view = { λ a. by_places a.places a.values.items };

    ghost invariant = { λ a. ArePlacesBelow a.places (length a.values.items) };
}

impl<V: Drop> ByName<V> {
    /// No values. It takes no memory.
    pub fn new(alloc: Global) -> ByName<V>
        ensures { result.entries ≡ [] }
    {
        ByName {
            places: NamePlaces::new(alloc),
            values: Vec::new(alloc),
        }
    }

    /// The value of a name, where it has one.
    #[inline(always)]
    pub fn get(&self, id: RecordId) -> Option<&V>
        ensures { option_copied result ≡ lookup (same_id id) self.now.entries }
    {
        match self.places.get(id) {
            Some(at) => Some(&self.values[at]),
            None => None,
        }
    }

    /// Expects so many names: the value of one with a great number is found as fast then.
    pub fn expect(&mut self, names: usize)
        ensures { self.new ≡ self.old }
    {
        self.places.expect(names);
    }

    /// Gives a value to a name that has none. An error where memory ran out, and then each name has
    /// the value that it had.
    #[inline(always)]
    pub fn insert(&mut self, id: RecordId, value: V) -> Result<(), AllocError>
        requires { lookup (same_id id) self.old.entries ≡ None }
        ensures ok { OnOk result (IsInserted self.old id value self.new) }
        ensures err { OnErr result (HasSameValues self.old self.new) }
    {
        self.values.reserve(1)?;
        self.places.put(id, self.values.len())?;
        self.values.push_reserved(value);
        Ok(())
    }
}
