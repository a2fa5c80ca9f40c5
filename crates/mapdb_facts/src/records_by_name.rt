//! The records that are held, by name: each is found by its name, and the next name and the
//! greatest one are known.

ghost use Rattle.std.specs.Prelude.{◌≡◌, ◌↔◌, [], IfNone, IfOk, IfSome, IsSome, IsTrue};
ghost use Rattle.std.specs.Prelude.{◌⊎◌, MatchOption, None, OnErr, OnOk, Some, false, length};
ghost use Rattle.std.specs.BTreeMap.Range.{IsLeBy};
ghost use Rattle.std.specs.Ordering.{is_lt};
ghost use Rattle.mapdb_join.specs.Atoms.{Clashes, HasNone, Includes, IsBetween, IsSame, IsUnion};
ghost use Rattle.mapdb_join.specs.Keys.{IsAbove};
ghost use Rattle.mapdb_facts.specs.HeldRecords.{HoldsAnother, IsClashAt, IsGreatestName};
ghost use Rattle.mapdb_facts.specs.HeldRecords.{excludes_record, one_record};
ghost use Rattle.mapdb_facts.specs.Kept.{has_record, id_cmp, record_in};
ghost use Rattle.mapdb_facts.specs.declared.names.RecordId.{RecordId};

use crate::names::RecordId;
use crate::next_names::lesser;
use crate::operations::Record;
use crate::record_list::RecordList;
use std::alloc::{AllocError, Global};
use std::marker::Model;

/// Records by name.
#[derive(Drop)]
pub struct RecordsByName {
    list: RecordList,
    /// The greatest name under which a record is held.
    greatest: Option<RecordId>,
    alloc: Global,
}

impl Model for RecordsByName {
    ghost use Rattle.mapdb_facts.specs.HeldRecords.{IsGreatestName};
    ghost use Rattle.mapdb_facts.specs.Kept.{Records};

    ghost Value = { Records };

    ghost view = { λ a. a.list.entries };

    ghost invariant = { λ a. IsGreatestName a.list.entries a.greatest };
}

/// The greater of a name and another, where there is one.
fn greater(name: Option<RecordId>, id: RecordId) -> RecordId
    ensures one { IfSome name (λ other. is_lt (id_cmp result other) ≡ false) }
    ensures other { is_lt (id_cmp result id) ≡ false }
    ensures either { (result ≡ id) ⊎ (name ≡ Some result) }
{
    match name {
        Some(other) if id.is_before(other) => other,
        _ => id,
    }
}

/// Holds a record of a name that has none. An error where memory ran out, and then the same records
/// are kept.
fn add_new(
    list: &mut RecordList,
    greatest: &mut Option<RecordId>,
    mapping: Record,
) -> Result<(), AllocError>
    requires absent { record_in list.old.entries mapping.id ≡ None }
    requires greatest { IsGreatestName list.old.entries greatest.old }
    ensures greatest { IsGreatestName list.new.entries greatest.new }
    ensures ok { OnOk result (IsUnion has_record list.old.entries (one_record mapping)
        list.new.entries) }
    ensures err { OnErr result (list.new.entries ≡ list.old.entries) }
{
    let id = mapping.id;
    list.add(mapping)?;
    *greatest = Some(greater(*greatest, id));
    Ok(())
}

impl RecordsByName {
    /// No records. It takes no memory.
    pub(crate) fn new(alloc: Global) -> RecordsByName
        ensures { result ≡ [] }
    {
        RecordsByName {
            list: RecordList::new(alloc),
            greatest: None,
            alloc,
        }
    }

    /// The record of a name, where one is held.
    #[inline(always)]
    pub(crate) fn get(&self, id: RecordId) -> Option<Record>
        ensures { result ≡ record_in self.now id }
    {
        self.list.get(id).copied()
    }

    /// How many records are held.
    pub(crate) fn len(&self) -> usize
        ensures { result ≡ length self.now }
    {
        self.list.len()
    }

    /// The least name above another, or of all, under which a record is held.
    pub(crate) fn next(&self, after: Option<RecordId>) -> Option<RecordId>
        ensures none { MatchOption result
            ((q : RecordId) → IsAbove id_cmp after q → record_in self.now q ≡ None)
            (λ _. Unit {0}) }
        ensures found { IfSome result (λ id. IsAbove id_cmp after id
            × IsSome (record_in self.now id)) }
        ensures least { IfSome result (λ id. (q : RecordId) → IsAbove id_cmp after q
            → IsSome (record_in self.now q) → IsLeBy id_cmp id q) }
    {
        self.list.next_name(after)
    }

    /// The greatest name under which a record is held.
    pub(crate) fn last(&self) -> Option<RecordId>
        ensures none { MatchOption result ((id : RecordId) → record_in self.now id ≡ None)
            (λ _. Unit {0}) }
        ensures found { IfSome result (λ id. IsSome (record_in self.now id)) }
        ensures greatest { IfSome result (λ id. (q : RecordId) → IsSome (record_in self.now q)
            → is_lt (id_cmp id q) ≡ false) }
    {
        self.greatest
    }

    /// Expects so many records: one with a great number is found as fast then.
    pub(crate) fn expect(&mut self, records: usize)
        ensures { self.new ≡ self.old }
    {
        self.list.expect(records);
    }

    /// Holds a record of a name that has none, or this very record. An error where memory ran out,
    /// and then nothing has changed.
    pub(crate) fn add(&mut self, mapping: Record) -> Result<(), AllocError>
        requires { IfSome (record_in self.old mapping.id) (λ held. held ≡ mapping) }
        ensures ok { OnOk result (IsUnion has_record self.old (one_record mapping) self.new) }
        ensures err { OnErr result (self.new ≡ self.old) }
    {
        if self.list.get(mapping.id).is_some() {
            return Ok(());
        }
        add_new(&mut self.list, &mut self.greatest, mapping)
    }

    /// Whether a different record is held under the record's name.
    fn holds_another(&self, theirs: &Record) -> bool
        ensures { IsTrue result ↔ HoldsAnother self.now theirs.now }
    {
        match self.get(theirs.id) {
            Some(mine) => mine != *theirs,
            None => false,
        }
    }

    /// The least name under which both hold different records.
    pub(crate) fn clash(&self, other: &RecordsByName) -> Option<RecordId>
        ensures none { IfNone result (Clashes has_record excludes_record self.now other.now → ⊥) }
        ensures some { IfSome result (λ id. Clashes has_record excludes_record self.now other.now
            × IsClashAt self.now other.now id) }
    {
        let mut least = None;
        for theirs in other.list.as_slice() {
            if self.holds_another(theirs) {
                least = lesser(least, Some(theirs.id));
            }
        }
        least
    }

    /// Whether this very record is held.
    fn holds(&self, theirs: &Record) -> bool
        ensures { IsTrue result ↔ (record_in self.now theirs.now.id ≡ Some theirs.now) }
    {
        self.get(theirs.id) == Some(*theirs)
    }

    /// Whether these hold each record that the other holds.
    pub(crate) fn covers(&self, other: &RecordsByName) -> bool
        ensures { IsTrue result ↔ Includes has_record self.now other.now }
    {
        for theirs in other.list.as_slice() {
            if !self.holds(theirs) {
                return false;
            }
        }
        true
    }

    /// Whether no record is held.
    pub(crate) fn is_none(&self) -> bool
        ensures { IsTrue result ↔ HasNone has_record self.now }
    {
        self.greatest.is_none()
    }

    /// Holds each record that the other holds too. An error where memory ran out, and then some of
    /// them are held.
    pub(crate) fn merge(&mut self, other: &RecordsByName) -> Result<(), AllocError>
        requires { Clashes has_record excludes_record self.old other.now → ⊥ }
        ensures ok { OnOk result (IsUnion has_record self.old other.now self.new) }
        ensures err { OnErr result (IsBetween has_record self.old other.now self.new) }
    {
        for theirs in other.list.as_slice() {
            self.add(*theirs)?;
        }
        Ok(())
    }

    /// The same records. An error where memory ran out.
    pub(crate) fn copy(&self) -> Result<RecordsByName, AllocError>
        ensures { IfOk result (λ c. IsSame has_record self.now c) }
    {
        let mut copy = RecordsByName::new(self.alloc);
        copy.merge(self)?;
        Ok(copy)
    }
}
