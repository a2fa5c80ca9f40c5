//! What is told of a record: its place and rights, where its pages come from, what it has, and what
//! is revoked of it.

ghost use Rattle.std.specs.Prelude.{◌≡◌, ◌<◌, ◌≤◌, ◌+◌, IfOk, string_bytes};
ghost use Rattle.mapdb_facts.specs.Facts.{state_of_facts};
ghost use Rattle.mapdb_picture.specs.Labels.{absent_label, held_lines, held_text, named_text};
ghost use Rattle.mapdb_picture.specs.Labels.{place_text, reached_text, record_label, revoked_line};
ghost use Rattle.mapdb_picture.specs.Labels.{revoked_lines, root_label, run_text, said_lines};
ghost use Rattle.mapdb_picture.specs.Labels.{source_text};

use mapdb_facts::{CutRun, Facts, Record, RecordId};
use mapdb_fpage::{Fpage, PAGE_BYTES, PAGE_LIMIT, Rights};
use mapdb_lines::{frame_text, letters, name_text};
use mapdb_rights::{frame_of, rights_of};
use std::alloc::{AllocError, Global};

/// A place as the script has it: its byte address, a slash, and its order.
pub fn place_text(alloc: Global, place: &Fpage) -> Result<String, AllocError>
    ensures { IfOk result (λ text. string_bytes text ≡ place_text place.now) }
{
    let address = frame_text(alloc, place.first_page() * PAGE_BYTES)?;
    let order = place.order();
    format!(in alloc; "{address}/{order}")
}

/// A place, and the rights that are named for it.
fn named_text(alloc: Global, place: &Fpage, rights: Rights) -> Result<String, AllocError>
    ensures { IfOk result (λ text. string_bytes text ≡ named_text place.now rights) }
{
    let place = place_text(alloc, place)?;
    let rights = letters(alloc, rights)?;
    format!(in alloc; "{place}:{rights}")
}

/// The page of a parent that a page comes from.
pub fn source_text(alloc: Global, parent: RecordId, page: u64) -> Result<String, AllocError>
    ensures { IfOk result (λ text. string_bytes text ≡ source_text parent page) }
{
    let parent = name_text(alloc, parent)?;
    let page = frame_text(alloc, page)?;
    format!(in alloc; "from {parent} page {page}")
}

/// A frame, where one is reached.
fn reached_text(alloc: Global, frame: Option<u64>) -> Result<String, AllocError>
    ensures { IfOk result (λ text. string_bytes text ≡ reached_text frame) }
{
    match frame {
        Some(frame) => frame_text(alloc, frame),
        None => String::from_str(alloc, "none"),
    }
}

/// The rights that a record has at a page, and the frame that it reaches there.
pub fn held_text(
    alloc: Global,
    facts: &Facts,
    id: RecordId,
    page: u64,
) -> Result<String, AllocError>
    ensures { IfOk result (λ text. string_bytes text
        ≡ held_text (state_of_facts facts.now) id page) }
{
    let rights = letters(alloc, rights_of(facts, id, page))?;
    let frame = reached_text(alloc, frame_of(facts, id, page))?;
    format!(in alloc; "rights {rights} frame {frame}")
}

/// The pages of a run, the first and the last, and the rights that are revoked there.
fn run_text(alloc: Global, run: &CutRun) -> Result<String, AllocError>
    requires some { 0 < run.now.page_count }
    requires limit { run.now.first_page + run.now.page_count ≤ PAGE_LIMIT }
    ensures { IfOk result (λ text. string_bytes text ≡ run_text run.now) }
{
    let first = frame_text(alloc, run.first_page)?;
    let last = frame_text(alloc, run.first_page + run.page_count - 1)?;
    let rights = letters(alloc, run.rights)?;
    format!(in alloc; "revoked {first}-{last} {rights}")
}

/// What is revoked over the pages of a run, as a further line of a label.
fn revoked_line(alloc: Global, run: &CutRun) -> Result<String, AllocError>
    requires some { 0 < run.now.page_count }
    requires limit { run.now.first_page + run.now.page_count ≤ PAGE_LIMIT }
    ensures { IfOk result (λ text. string_bytes text ≡ revoked_line run.now) }
{
    let text = run_text(alloc, run)?;
    format!(in alloc; "\\n{text}")
}

/// What is revoked of a record, each run as a further line of a label.
fn revoked_lines(alloc: Global, facts: &Facts, id: RecordId) -> Result<String, AllocError>
    ensures { IfOk result (λ text. string_bytes text
        ≡ revoked_lines (state_of_facts facts.now) id) }
{
    let mut text = String::new(alloc);
    let mut page = 0;
    'runs: while let Some(run) = facts.cut_run(id, page) {
        text.push_str(revoked_line(alloc, &run)?.as_str())?;
        page = run.first_page + run.page_count;
    }
    Ok(text)
}

/// What a record has at a page, and what is revoked of it.
fn held_lines(alloc: Global, facts: &Facts, id: RecordId, page: u64) -> Result<String, AllocError>
    ensures { IfOk result (λ text. string_bytes text
        ≡ held_lines (state_of_facts facts.now) id page) }
{
    let held = held_text(alloc, facts, id, page)?;
    let revoked = revoked_lines(alloc, facts, id)?;
    format!(in alloc; "\\n{held}{revoked}")
}

/// The label of the root: it names all pages, and has what it has at the first of them.
pub fn root_label(alloc: Global, facts: &Facts) -> Result<String, AllocError>
    ensures { IfOk result (λ text. string_bytes text ≡ root_label (state_of_facts facts.now)) }
{
    let name = name_text(alloc, RecordId::ROOT)?;
    let held = held_lines(alloc, facts, RecordId::ROOT, 0)?;
    format!(in alloc; "{name}\\nall{held}")
}

/// What a record says: its name, its place with the rights that it names, and the page of its
/// parent that its first page comes from.
fn said_lines(alloc: Global, mapping: &Record) -> Result<String, AllocError>
    ensures { IfOk result (λ text. string_bytes text ≡ said_lines mapping.now) }
{
    let name = name_text(alloc, mapping.id)?;
    let named = named_text(alloc, &mapping.place, mapping.rights)?;
    let source = source_text(alloc, mapping.parent, mapping.source)?;
    format!(in alloc; "{name}\\n{named}\\n{source}")
}

/// The label of a record: what it says, what it has at its first page, and what is revoked of it.
pub fn record_label(alloc: Global, facts: &Facts, mapping: &Record) -> Result<String, AllocError>
    ensures { IfOk result (λ text. string_bytes text
        ≡ record_label (state_of_facts facts.now) mapping.now) }
{
    let mut text = said_lines(alloc, mapping)?;
    let held = held_lines(alloc, facts, mapping.id, mapping.place.first_page())?;
    text.push_str(held.as_str())?;
    Ok(text)
}

/// The label of a record that is not held.
pub fn absent_label(alloc: Global, facts: &Facts, id: RecordId) -> Result<String, AllocError>
    ensures { IfOk result (λ text. string_bytes text ≡ absent_label (state_of_facts facts.now) id) }
{
    let name = name_text(alloc, id)?;
    let revoked = revoked_lines(alloc, facts, id)?;
    format!(in alloc; "{name}\\nnot held{revoked}")
}
