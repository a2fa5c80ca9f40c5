//! Records in the order in which they came.

ghost use Rattle.std.specs.Prelude.{◌≡◌, [], None, IfSome, IsSome, MatchOption, OnErr, OnOk};
ghost use Rattle.std.specs.Prelude.{length};
ghost use Rattle.std.specs.BTreeMap.Range.{IsLeBy};
ghost use Rattle.std.specs.Map.{lookup};
ghost use Rattle.std.specs.Option.{option_copied};
ghost use Rattle.mapdb_join.specs.Keys.{IsAbove};
ghost use Rattle.mapdb_facts.specs.Kept.{id_cmp};
ghost use Rattle.mapdb_facts.specs.Names.{same_id};
ghost use Rattle.mapdb_facts.specs.declared.names.RecordId.{RecordId};
ghost use Rattle.mapdb_facts.specs.NamedValues.{AreFoundByName, IsInserted, by_own_name};

use crate::name_places::NamePlaces;
use crate::names::RecordId;
use crate::operations::Record;
use std::alloc::{AllocError, Global};
use std::marker::Model;

/// Records in the order in which they came, each once and under its own name, and where each
/// stands. The names are not listed beside them.
#[derive(Drop)]
pub struct RecordList {
    records: Vec<Record>,
    places: NamePlaces,
}

impl Model for RecordList {
    ghost use Rattle.std.specs.Prelude.{map};
    ghost use Rattle.mapdb_facts.specs.NamePlaces.{ArePlacesOf};
    ghost use Rattle.mapdb_facts.specs.NamedValues.{AreFoundByName, NamedValues, by_own_name};
    ghost use Rattle.mapdb_facts.specs.declared.operations.Record.{Record};

    ghost Value = { NamedValues Record };

    ghost view = { λ a. by_own_name a.records.items };

    ghost invariant = { λ a. ArePlacesOf a.places (map (λ r. r.id) a.records.items)
        × AreFoundByName a.records.items };
}

impl RecordList {
    /// No records. It takes no memory.
    pub(crate) fn new(alloc: Global) -> RecordList
        ensures { result.entries ≡ [] }
    {
        RecordList {
            records: Vec::new(alloc),
            places: NamePlaces::new(alloc),
        }
    }

    /// The records. Each is found by its name.
    pub(crate) fn as_slice(&self) -> &[Record]
        ensures all { by_own_name result.now ≡ self.now }
        ensures found { AreFoundByName result.now }
    {
        self.records.as_slice()
    }

    /// The record of a name, where there is one.
    #[inline(always)]
    pub(crate) fn get(&self, id: RecordId) -> Option<&Record>
        ensures { option_copied result ≡ lookup (same_id id) self.now.entries }
    {
        match self.places.get(id) {
            Some(at) => Some(&self.records[at]),
            None => None,
        }
    }

    /// How many records there are.
    pub(crate) fn len(&self) -> usize
        ensures { result ≡ length self.now.entries }
    {
        self.records.len()
    }

    /// The least name above another, or of all, that a record has.
    pub(crate) fn next_name(&self, after: Option<RecordId>) -> Option<RecordId>
        ensures none { MatchOption result
            ((q : RecordId) → IsAbove id_cmp after q
            → lookup (same_id q) self.now.entries ≡ None)
            (λ _. Unit {0}) }
        ensures found { IfSome result (λ id. IsAbove id_cmp after id
            × IsSome (lookup (same_id id) self.now.entries)) }
        ensures least { IfSome result (λ id. (q : RecordId) → IsAbove id_cmp after q
            → IsSome (lookup (same_id q) self.now.entries) → IsLeBy id_cmp id q) }
    {
        self.places.next(after)
    }

    /// Expects so many records: one with a great number is found as fast then.
    pub(crate) fn expect(&mut self, records: usize)
        ensures { self.new ≡ self.old }
    {
        self.places.expect(records);
    }

    /// Adds a record of a name that has none, behind the others. An error where memory ran out, and
    /// then nothing has changed.
    #[inline(always)]
    pub(crate) fn add(&mut self, mapping: Record) -> Result<(), AllocError>
        requires { lookup (same_id mapping.id) self.old.entries ≡ None }
        ensures ok { OnOk result (IsInserted self.old mapping.id mapping self.new) }
        ensures err { OnErr result (self.new.entries ≡ self.old.entries) }
    {
        self.records.reserve(1)?;
        self.places.put(mapping.id, self.records.len())?;
        self.records.push_reserved(mapping);
        Ok(())
    }
}
