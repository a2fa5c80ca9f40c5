//! Names of records in the order in which they came.

ghost use Rattle.std.specs.Prelude.{◌≡◌, ◌++◌, ◌∷◌, [], None, OnErr, OnOk};
ghost use Rattle.mapdb_facts.specs.NamedValues.{place_of};

use crate::name_places::NamePlaces;
use crate::names::RecordId;
use std::alloc::{AllocError, Global};
use std::marker::Model;

/// Names of records in the order in which they came, each once, and where each stands.
#[derive(Drop)]
pub(crate) struct NameList {
    names: Vec<RecordId>,
    places: NamePlaces,
}

impl Model for NameList {
    ghost use Rattle.std.specs.Prelude.{List};
    ghost use Rattle.mapdb_facts.specs.declared.names.RecordId.{RecordId};
    ghost use Rattle.mapdb_facts.specs.NamePlaces.{ArePlacesOf};

    ghost Value = { List RecordId };

    ghost view = { λ a. a.names.items };

    ghost invariant = { λ a. ArePlacesOf a.places a.names.items };
}

impl NameList {
    /// No names. It takes no memory.
    pub(crate) fn new(alloc: Global) -> NameList
        ensures { result ≡ [] }
    {
        NameList {
            names: Vec::new(alloc),
            places: NamePlaces::new(alloc),
        }
    }

    /// The names, in the order in which they came.
    pub(crate) fn as_slice(&self) -> &[RecordId]
        ensures { result.now ≡ self.now }
    {
        self.names.as_slice()
    }

    /// The place of a name, where it is one of these.
    #[inline(always)]
    pub(crate) fn place(&self, id: RecordId) -> Option<usize>
        ensures { result ≡ place_of id self.now }
    {
        self.places.get(id)
    }

    /// Expects so many names: one with a great number is found as fast then.
    pub(crate) fn expect(&mut self, names: usize)
        ensures { self.new ≡ self.old }
    {
        self.places.expect(names);
    }

    /// Adds a name at the end. An error where memory ran out, and then nothing has changed.
    #[inline(always)]
    pub(crate) fn add(&mut self, id: RecordId) -> Result<(), AllocError>
        requires { place_of id self.old ≡ None }
        ensures ok { OnOk result (self.new ≡ self.old ++ id ∷ []) }
        ensures err { OnErr result (self.new ≡ self.old) }
    {
        self.names.reserve(1)?;
        self.places.put(id, self.names.len())?;
        self.names.push_reserved(id);
        Ok(())
    }
}
