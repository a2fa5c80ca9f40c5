//! Values by the name of a record, in the order in which the names came.

ghost use Rattle.std.specs.Prelude.{◌≡◌, [], None, OnErr, OnOk};
ghost use Rattle.std.specs.Map.{lookup};
ghost use Rattle.std.specs.Option.{option_copied};
ghost use Rattle.mapdb_facts.specs.Names.{same_id};
ghost use Rattle.mapdb_facts.specs.NamedValues.{IsInserted, names_of, with_name};

use crate::name_list::NameList;
use crate::names::RecordId;
use std::alloc::{AllocError, Global};
use std::marker::Model;

/// Values by the name of a record, in the order in which the names came: they are listed, for what
/// goes over all of them.
#[derive(Drop)]
pub(crate) struct ListedByName<V> {
    /// The names, each once.
    pub(crate) names: NameList,
    /// Their values, in the same order.
    pub(crate) values: Vec<V>,
}

impl<V> Model for ListedByName<V> {
    ghost use Rattle.std.specs.Prelude.{◌≡◌, length};
    ghost use Rattle.mapdb_facts.specs.NamedValues.{NamedValues, named};

    ghost Value = { NamedValues V };

    ghost view = { λ a. named a.names a.values.items };

    ghost invariant = { λ a. length a.names ≡ length a.values.items };
}

impl<V: Drop> ListedByName<V> {
    /// No values. It takes no memory.
    pub(crate) fn new(alloc: Global) -> ListedByName<V>
        ensures { result.entries ≡ [] }
    {
        ListedByName {
            names: NameList::new(alloc),
            values: Vec::new(alloc),
        }
    }

    /// The value of a name, where it has one.
    #[inline(always)]
    pub(crate) fn get(&self, id: RecordId) -> Option<&V>
        ensures { option_copied result ≡ lookup (same_id id) self.now.entries }
    {
        match self.names.place(id) {
            Some(at) => Some(&self.values[at]),
            None => None,
        }
    }

    /// Expects so many names, as of records, of which few may have a value here: one with a great
    /// number is found as fast then.
    pub(crate) fn expect(&mut self, names: usize)
        ensures { self.new ≡ self.old }
    {
        self.names.expect(names);
    }

    /// Gives a value to a name that has none, behind the others. An error where memory ran out, and
    /// then nothing has changed.
    #[inline(always)]
    pub(crate) fn insert(&mut self, id: RecordId, value: V) -> Result<(), AllocError>
        requires { lookup (same_id id) self.old.entries ≡ None }
        ensures ok { OnOk result (IsInserted self.old id value self.new) }
        ensures names { OnOk result (names_of self.new ≡ with_name (names_of self.old) id) }
        ensures err { OnErr result (self.new.entries ≡ self.old.entries) }
    {
        self.values.reserve(1)?;
        self.names.add(id)?;
        self.values.push_reserved(value);
        Ok(())
    }
}
