//! Why a page of a space has the rights and frames that it has.

ghost use Rattle.std.specs.Prelude.{◌≡◌, ◌&&◌, IfOk, flat_map, string_bytes};
ghost use Rattle.mapdb_facts.specs.Facts.{records_of_facts, state_of_facts};
ghost use Rattle.mapdb_picture.specs.Explanation.{block, block_of, explanation_text, or_nothing};
ghost use Rattle.mapdb_picture.specs.Explanation.{root_block};

use crate::chains::chain_text;
use crate::labels::held_text;
use crate::steps::Spot;
use mapdb_facts::{Facts, Record, RecordId, Space};
use mapdb_fpage::PAGE_LIMIT;
use mapdb_lines::name_text;
use mapdb_replica::Replica;
use std::alloc::{AllocError, Global};

/// A record, its chain, and what comes of it.
fn block(alloc: Global, facts: &Facts, id: RecordId, page: u64) -> Result<String, AllocError>
    ensures { IfOk result (λ text. string_bytes text ≡ block (state_of_facts facts.now) id page) }
{
    let name = name_text(alloc, id)?;
    let chain = chain_text(alloc, facts, Spot { id, page })?;
    let held = held_text(alloc, facts, id, page)?;
    format!(in alloc; "record {name}\n{chain}{held}\n")
}

/// Of a record of the space that holds the page, its block.
fn block_of(
    alloc: Global,
    facts: &Facts,
    space: Space,
    page: u64,
    mapping: &Record,
) -> Result<String, AllocError>
    ensures { IfOk result (λ text. string_bytes text
        ≡ block_of (state_of_facts facts.now) space page mapping.now) }
{
    if mapping.space.is(space) && mapping.place.holds(page) {
        block(alloc, facts, mapping.id, page)
    } else {
        Ok(String::new(alloc))
    }
}

/// The root's block, at a page of the first space.
fn root_block(alloc: Global, facts: &Facts, space: Space, page: u64) -> Result<String, AllocError>
    ensures { IfOk result (λ text. string_bytes text
        ≡ root_block (state_of_facts facts.now) space page) }
{
    if space.is_first() && page < PAGE_LIMIT {
        block(alloc, facts, RecordId::ROOT, page)
    } else {
        Ok(String::new(alloc))
    }
}

/// The blocks of all records of the space that hold the page, in ascending order of name.
fn record_blocks(
    alloc: Global,
    facts: &Facts,
    space: Space,
    page: u64,
) -> Result<String, AllocError>
    ensures { IfOk result (λ text. string_bytes text
        ≡ flat_map (block_of (state_of_facts facts.now) space page) (records_of_facts facts.now)) }
{
    let mut text = String::new(alloc);
    for mapping in facts.records() {
        text.push_str(block_of(alloc, facts, space, page, &mapping)?.as_str())?;
    }
    Ok(text)
}

/// The text, or that nothing holds the page.
#[tactic(auto, using(crate::proofs::Telling::told_nothing, crate::proofs::Telling::told_something))]
fn or_nothing(alloc: Global, text: String) -> Result<String, AllocError>
    ensures { IfOk result (λ whole. string_bytes whole ≡ or_nothing (string_bytes text)) }
{
    if text.as_bytes().is_empty() {
        return String::from_str(alloc, "nothing\n");
    }
    Ok(text)
}

/// Why a page of a space, named by its number (its byte address divided by 4,096), has the rights
/// and frames that it has in the copy: for each record of the space that holds the page, the chain
/// from it to the frame, or to where the chain ends, with what each of its records names and what
/// is revoked of it at its page, and then what the record has there. The first space's root is one
/// of these. The one error is that memory ran out.
pub fn explanation(
    alloc: Global,
    copy: &Replica,
    space: Space,
    page: u64,
) -> Result<String, AllocError>
    ensures { IfOk result (λ text. string_bytes text ≡ explanation_text copy.now.ops space page) }
{
    let facts = copy.facts();
    let mut text = root_block(alloc, facts, space, page)?;
    text.push_str(record_blocks(alloc, facts, space, page)?.as_str())?;
    or_nothing(alloc, text)
}
