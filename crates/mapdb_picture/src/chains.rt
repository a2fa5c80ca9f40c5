//! The texts of chains: what each record of a chain names, and what is revoked of it.

ghost use Rattle.std.specs.Prelude.{◌≡◌, IfOk, string_bytes, Some, true};
ghost use Rattle.mapdb_facts.specs.Facts.{state_of_facts};
ghost use Rattle.mapdb_facts.specs.WellFormed.{IsFormedRecord};
ghost use Rattle.mapdb_fpage.specs.Place.{holds};
ghost use Rattle.mapdb_picture.specs.Explanation.{allowed_text, chain_text, inside_text};
ghost use Rattle.mapdb_picture.specs.Explanation.{outside_text, record_step, root_step};
ghost use Rattle.mapdb_picture.specs.Explanation.{space_state, spot_text, step_line, step_text};

use crate::labels::{place_text, source_text};
use crate::steps::{Spot, step_up};
use mapdb_facts::{Facts, Record, RecordId, Space};
use mapdb_fpage::Rights;
use mapdb_lines::{frame_text, letters, name_text, space_text};
use mapdb_rights::source_of;
use std::alloc::{AllocError, Global};

/// A space, and whether it has ended.
fn space_state(alloc: Global, facts: &Facts, space: Space) -> Result<String, AllocError>
    ensures { IfOk result (λ text. string_bytes text
        ≡ space_state (state_of_facts facts.now) space) }
{
    let name = space_text(alloc, space)?;
    let ended = if facts.ended(space) { " ended" } else { "" };
    format!(in alloc; "space {name}{ended}")
}

/// A record, its space, and the page.
fn spot_text(
    alloc: Global,
    facts: &Facts,
    id: RecordId,
    space: Space,
    page: u64,
) -> Result<String, AllocError>
    ensures { IfOk result (λ text. string_bytes text
        ≡ spot_text (state_of_facts facts.now) id space page) }
{
    let name = name_text(alloc, id)?;
    let space = space_state(alloc, facts, space)?;
    let page = frame_text(alloc, page)?;
    format!(in alloc; "{name} {space} page {page}")
}

/// The rights that are named, and what is revoked of them at a page.
fn allowed_text(alloc: Global, named: Rights, revoked: Rights) -> Result<String, AllocError>
    ensures { IfOk result (λ text. string_bytes text ≡ allowed_text named revoked) }
{
    let named = letters(alloc, named)?;
    let revoked = letters(alloc, revoked)?;
    format!(in alloc; " names {named} revoked {revoked}")
}

/// The page of a record that has it.
fn inside_text(
    alloc: Global,
    facts: &Facts,
    id: RecordId,
    mapping: &Record,
    page: u64,
) -> Result<String, AllocError>
    requires formed { IsFormedRecord mapping.now }
    requires in_place { holds mapping.now.place page ≡ true }
    ensures { IfOk result (λ text. string_bytes text
        ≡ inside_text (state_of_facts facts.now) id mapping.now page) }
{
    let spot = spot_text(alloc, facts, id, mapping.space, page)?;
    let allowed = allowed_text(alloc, mapping.rights, facts.revoked(id, page))?;
    let source = source_text(alloc, mapping.parent, source_of(mapping, page))?;
    format!(in alloc; "{spot}{allowed} {source}")
}

/// A page that lies outside of the record's place.
fn outside_text(
    alloc: Global,
    facts: &Facts,
    id: RecordId,
    mapping: &Record,
    page: u64,
) -> Result<String, AllocError>
    ensures { IfOk result (λ text. string_bytes text
        ≡ outside_text (state_of_facts facts.now) id mapping.now page) }
{
    let spot = spot_text(alloc, facts, id, mapping.space, page)?;
    let place = place_text(alloc, &mapping.place)?;
    format!(in alloc; "{spot} outside {place}")
}

/// A page of this name, where a record of the name may be held.
fn record_step(alloc: Global, facts: &Facts, id: RecordId, page: u64) -> Result<String, AllocError>
    ensures { IfOk result (λ text. string_bytes text
        ≡ record_step (state_of_facts facts.now) id
        ((state_of_facts facts.now).record_at id) page) }
{
    let Some(mapping) = facts.record(id) else {
        let name = name_text(alloc, id)?;
        let page = frame_text(alloc, page)?;
        return format!(in alloc; "{name} page {page} not held");
    };
    if mapping.place.holds(page) {
        inside_text(alloc, facts, id, &mapping, page)
    } else {
        outside_text(alloc, facts, id, &mapping, page)
    }
}

/// The frame, as a page of the first space.
fn root_step(alloc: Global, facts: &Facts, id: RecordId, page: u64) -> Result<String, AllocError>
    ensures { IfOk result (λ text. string_bytes text
        ≡ root_step (state_of_facts facts.now) id page) }
{
    let spot = spot_text(alloc, facts, id, Space::FIRST, page)?;
    let revoked = letters(alloc, facts.revoked(id, page))?;
    format!(in alloc; "{spot} revoked {revoked}")
}

/// What a step of a chain tells.
fn step_text(alloc: Global, facts: &Facts, spot: Spot) -> Result<String, AllocError>
    ensures { IfOk result (λ text. string_bytes text ≡ step_text (state_of_facts facts.now) spot) }
{
    if spot.id.is_root() {
        root_step(alloc, facts, spot.id, spot.page)
    } else {
        record_step(alloc, facts, spot.id, spot.page)
    }
}

/// A step as a line.
fn step_line(alloc: Global, facts: &Facts, spot: Spot) -> Result<String, AllocError>
    ensures { IfOk result (λ text. string_bytes text ≡ step_line (state_of_facts facts.now) spot) }
{
    let step = step_text(alloc, facts, spot)?;
    format!(in alloc; "  {step}\n")
}

/// The lines of the chain from a page of a record on.
pub fn chain_text(alloc: Global, facts: &Facts, from: Spot) -> Result<String, AllocError>
    ensures { IfOk result (λ text. string_bytes text ≡ chain_text (state_of_facts facts.now) from) }
{
    let mut text = String::new(alloc);
    let mut spot = Some(from);
    'up: while let Some(at) = spot {
        text.push_str(step_line(alloc, facts, at)?.as_str())?;
        spot = step_up(facts, at);
    }
    Ok(text)
}
