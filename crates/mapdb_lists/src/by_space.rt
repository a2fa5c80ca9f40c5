//! Values by space.

ghost use Rattle.std.specs.Prelude.{◌≡◌, [], None, OnOk, Some, if◌then◌else◌};
ghost use Rattle.std.specs.Map.{lookup};
ghost use Rattle.std.specs.Option.{option_copied};
ghost use Rattle.mapdb_facts.specs.Names.{same_space};
ghost use Rattle.mapdb_facts.specs.declared.names.Space as names;

use crate::space_places::SpacePlaces;
use mapdb_facts::Space;
use std::alloc::{AllocError, Global};
use std::marker::Model;

/// Values by space.
#[derive(Drop)]
pub struct BySpace<V> {
    /// Where the value of each space stands.
    pub(crate) places: SpacePlaces,
    /// The values, in the order in which their spaces came.
    pub(crate) values: Vec<V>,
}

impl<V> Model for BySpace<V> {
    ghost use Rattle.std.specs.Prelude.{length};
    ghost use Rattle.mapdb_lists.specs.BySpace.{AreByPlace, ValuesBySpace, at_places};

    ghost Value = { ValuesBySpace V };

    ghost view = { λ a. at_places a.places a.values.items };

    ghost invariant = { λ a. AreByPlace a.places (length a.values.items) };
}

impl<V: Drop> BySpace<V> {
    /// No values. It takes no memory.
    pub(crate) fn new(alloc: Global) -> BySpace<V>
        ensures { result.entries ≡ [] }
    {
        BySpace {
            places: SpacePlaces::new(alloc),
            values: Vec::new(alloc),
        }
    }

    /// The value of a space, where it has one.
    #[inline(always)]
    pub(crate) fn get(&self, space: Space) -> Option<&V>
        ensures { option_copied result ≡ lookup (same_space space) self.now.entries }
    {
        match self.places.get(space) {
            Some(at) => Some(&self.values[at]),
            None => None,
        }
    }

    /// Gives a value to a space that has none. An error where memory ran out.
    pub(crate) fn insert(&mut self, space: Space, value: V) -> Result<(), AllocError>
        requires { lookup (same_space space) self.old.entries ≡ None }
        ensures { OnOk result ((q : names.Space) → lookup (same_space q) self.new.entries
            ≡ (if same_space space q then Some value
            else lookup (same_space q) self.old.entries)) }
    {
        self.values.reserve(1)?;
        self.places.put(space)?;
        self.values.push_reserved(value);
        Ok(())
    }
}
