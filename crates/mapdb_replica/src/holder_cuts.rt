//! The revocations that an Unmap may issue, found with the index, holder by holder. The index may
//! leave out records from which everything is taken: what they lose is known already.

ghost use Rattle.std.specs.Prelude.{◌≡◌, ◌++◌, [], All, IfOk, IfSome, OnOk, Some, false, map};
ghost use Rattle.std.specs.List.{cons_option, filter_map, flat_map};
ghost use Rattle.mapdb_facts.specs.Facts.{records_of_facts, state_of_facts};
ghost use Rattle.mapdb_facts.specs.WellFormed.{IsFormedRecord};
ghost use Rattle.mapdb_facts.specs.declared.operations.Record.{Record};
ghost use Rattle.mapdb_rights.specs.AllBut.{IsAllBut};
ghost use Rattle.mapdb_rights.specs.Index.{KeepsUp};
ghost use Rattle.mapdb_replica.specs.Issue.{first_holders, holder_of, holders};
ghost use Rattle.mapdb_replica.specs.LeftOut.{Adds, IsOld};
ghost use Rattle.mapdb_replica.specs.Revoking.{cut_within};
ghost use Rattle.mapdb_replica.specs.Unmap.{cuts_within, holder_cuts, own_cut};

use crate::losses::{child_cut, cut_from, first_holder, prove_place};
use crate::pieces::Holder;
use mapdb_facts::{Facts, Op, Record, RecordId, Space};
use mapdb_fpage::{Fpage, Rights};
use mapdb_rights::RightsIndex;
use std::alloc::{AllocError, Global};

/// Adds a revocation, where there is one.
fn add_cut(found: &mut Vec<Op>, cut: Option<Op>) -> Result<(), AllocError>
    ensures { OnOk result (found.new.items ≡ found.old.items ++ cons_option cut []) }
{
    if let Some(op) = cut {
        found.push(op)?;
    }
    Ok(())
}

/// Adds what these children lose, of whose parent this part is unmapped.
fn add_child_cuts(
    found: &mut Vec<Op>,
    rights: Rights,
    part: &Fpage,
    children: &[Record],
) -> Result<(), AllocError>
    requires { All IsFormedRecord children.now }
    ensures { OnOk result (found.new.items ≡ found.old.items
        ++ filter_map (λ (child : Record). cut_within rights child (Some part.now)) children.now) }
{
    for child in children {
        add_cut(found, child_cut(rights, child, part))?;
    }
    Ok(())
}

/// Adds what a holder loses itself, of which this part is unmapped: nothing, unless the Unmap is a
/// flush.
fn add_own_cut(
    found: &mut Vec<Op>,
    rights: Rights,
    flush: bool,
    id: RecordId,
    part: &Fpage,
) -> Result<(), AllocError>
    ensures { OnOk result (found.new.items ≡ found.old.items ++ own_cut id part.now rights flush) }
{
    if flush {
        found.push(cut_from(id, *part, rights))?;
    }
    Ok(())
}

/// Adds what is lost by a holder, of which this part is unmapped: by its children, and with a flush
/// by itself. A child from which everything is taken may be left out.
fn add_part_cuts(
    found: &mut Vec<Op>,
    facts: &Facts,
    index: &RightsIndex,
    rights: Rights,
    flush: bool,
    id: RecordId,
    part: &Fpage,
) -> Result<(), AllocError>
    requires kept { KeepsUp index.now (state_of_facts facts.now) }
    requires there { index.now.absent ≡ false }
    ensures { OnOk result (Adds (state_of_facts facts.now)
        (cuts_within (records_of_facts facts.now) rights flush id (Some part.now))
        found.old.items found.new.items) }
{
    prove_place(part);
    let children = index.children(facts, id, part)?.unwrap();
    add_child_cuts(found, rights, part, children.as_slice())?;
    add_own_cut(found, rights, flush, id, part)
}

/// Adds what is lost by a holder, and by its children, but for some of what is known.
fn add_holder_cuts(
    found: &mut Vec<Op>,
    facts: &Facts,
    index: &RightsIndex,
    page: &Fpage,
    rights: Rights,
    flush: bool,
    holder: &Holder,
) -> Result<(), AllocError>
    requires kept { KeepsUp index.now (state_of_facts facts.now) }
    requires there { index.now.absent ≡ false }
    ensures { OnOk result (Adds (state_of_facts facts.now)
        (holder_cuts (records_of_facts facts.now) page.now rights flush holder.now)
        found.old.items found.new.items) }
{
    match holder.place.meet(page) {
        Some(part) => add_part_cuts(found, facts, index, rights, flush, holder.id, &part),
        None => Ok(()),
    }
}

/// Adds what is lost by the root, where the space is the first, and by its children, but for some
/// of what is known.
fn add_first_cuts(
    found: &mut Vec<Op>,
    facts: &Facts,
    index: &RightsIndex,
    space: Space,
    page: &Fpage,
    rights: Rights,
    flush: bool,
) -> Result<(), AllocError>
    requires kept { KeepsUp index.now (state_of_facts facts.now) }
    requires there { index.now.absent ≡ false }
    ensures { OnOk result (Adds (state_of_facts facts.now)
        (flat_map (holder_cuts (records_of_facts facts.now) page.now rights flush)
        (first_holders space)) found.old.items found.new.items) }
{
    match first_holder(space) {
        Some(holder) => add_holder_cuts(found, facts, index, page, rights, flush, &holder),
        None => Ok(()),
    }
}

/// Adds what is lost by records, one after the other, and by their children, but for some of what
/// is known.
fn add_record_cuts(
    found: &mut Vec<Op>,
    facts: &Facts,
    index: &RightsIndex,
    page: &Fpage,
    rights: Rights,
    flush: bool,
    held: &[Record],
) -> Result<(), AllocError>
    requires kept { KeepsUp index.now (state_of_facts facts.now) }
    requires there { index.now.absent ≡ false }
    ensures { OnOk result (Adds (state_of_facts facts.now)
        (flat_map (holder_cuts (records_of_facts facts.now) page.now rights flush)
        (map holder_of held.now)) found.old.items found.new.items) }
{
    for mapping in held {
        let holder = Holder {
            id: mapping.id,
            place: mapping.place,
        };
        add_holder_cuts(found, facts, index, page, rights, flush, &holder)?;
    }
    Ok(())
}

/// The revocations that an Unmap may issue, in their order, but for some that are known. The index
/// tells which records of the space share pages with the fpage, and which children take pages from
/// the part of a holder: it may leave out children from which everything is taken, and holders from
/// which it is, and from each child of theirs too. None where it is absent.
pub(crate) fn cuts_by_holder(
    alloc: Global,
    facts: &Facts,
    index: &RightsIndex,
    space: Space,
    page: &Fpage,
    rights: Rights,
    flush: bool,
) -> Result<Option<Vec<Op>>, AllocError>
    requires { KeepsUp index.now (state_of_facts facts.now) }
    ensures { IfOk result (λ found. IfSome found (λ cuts.
        IsAllBut (IsOld (state_of_facts facts.now))
        (flat_map (holder_cuts (records_of_facts facts.now) page.now rights flush)
        (holders (records_of_facts facts.now) space)) cuts.items)) }
{
    prove_place(page);
    let Some(held) = index.holders(facts, space, page)? else {
        return Ok(None);
    };
    let mut found = Vec::new(alloc);
    add_first_cuts(&mut found, facts, index, space, page, rights, flush)?;
    add_record_cuts(
        &mut found,
        facts,
        index,
        page,
        rights,
        flush,
        held.as_slice(),
    )?;
    Ok(Some(found))
}
