//! The Graphviz text of what a copy holds.

ghost use Rattle.std.specs.Prelude.{◌≡◌, ◌||◌, is_some, IfOk, flat_map, string_bytes};
ghost use Rattle.mapdb_facts.specs.Facts.{records_of_facts, state_of_facts};
ghost use Rattle.mapdb_snapshot.specs.Cutting.{cut_names};
ghost use Rattle.mapdb_snapshot.specs.Snapshot.{ended_of};
ghost use Rattle.mapdb_picture.specs.Picture.{absent_line, boxed, edge_text, ended_line};
ghost use Rattle.mapdb_picture.specs.Picture.{ended_mark, graph_of, if_absent, is_known};
ghost use Rattle.mapdb_picture.specs.Picture.{node_text, picture_text, record_lines};
ghost use Rattle.mapdb_picture.specs.Picture.{referred_names, root_line, style_text, style_under};

use crate::labels::{absent_label, record_label, root_label};
use mapdb_facts::{Facts, Op, Record, RecordId, Space};
use mapdb_lines::{name_text, space_text};
use mapdb_replica::Replica;
use mapdb_snapshot::{cut_names, ended_spaces};
use std::alloc::{AllocError, Global};
use std::collections::BTreeSet;

/// How a line is drawn.
#[derive(Clone, Copy, Debug, PartialEq, Eq)]
enum Style {
    /// The root, and a record whose parent is held.
    Solid,
    /// A record whose parent is not held, or one that is not held itself.
    Dashed,
}

/// The name of a style.
fn style_text(style: Style) -> &'static str
    ensures { result.now ≡ style_text style }
{
    match style {
        Style::Solid => "solid",
        Style::Dashed => "dashed",
    }
}

/// A record, as a node.
fn node_text(alloc: Global, id: RecordId, label: &str, style: Style) -> Result<String, AllocError>
    ensures { IfOk result (λ text. string_bytes text ≡ node_text id label.now style) }
{
    let name = name_text(alloc, id)?;
    let style = style_text(style);
    format!(in alloc; "\"{name}\" [label=\"{label}\", style={style}];")
}

/// The line from a record to one whose pages come from it.
fn edge_text(
    alloc: Global,
    parent: RecordId,
    id: RecordId,
    style: Style,
) -> Result<String, AllocError>
    ensures { IfOk result (λ text. string_bytes text ≡ edge_text parent id style) }
{
    let parent = name_text(alloc, parent)?;
    let name = name_text(alloc, id)?;
    let style = style_text(style);
    format!(in alloc; "\"{parent}\" -> \"{name}\" [style={style}];\n")
}

/// What stands in the box of a space.
fn boxed(alloc: Global, space: Space, inside: &str) -> Result<String, AllocError>
    ensures { IfOk result (λ text. string_bytes text ≡ boxed space inside.now) }
{
    let number = space.number;
    let version = space.version;
    let name = space_text(alloc, space)?;
    format!(in alloc;
        "subgraph cluster_{number}_{version} {{ label=\"space {name}\"; {inside} }}\n"
    )
}

/// Whether the root, or a record that is held, has this name.
fn is_known(facts: &Facts, id: RecordId) -> bool
    ensures { result ≡ is_known (state_of_facts facts.now) id }
{
    id.is_root() || facts.record(id).is_some()
}

/// How a record of this parent is drawn.
fn style_under(facts: &Facts, parent: RecordId) -> Style
    ensures { result ≡ style_under (state_of_facts facts.now) parent }
{
    if is_known(facts, parent) {
        Style::Solid
    } else {
        Style::Dashed
    }
}

/// A record that is not held.
fn absent_line(alloc: Global, facts: &Facts, id: RecordId) -> Result<String, AllocError>
    ensures { IfOk result (λ text. string_bytes text ≡ absent_line (state_of_facts facts.now) id) }
{
    let label = absent_label(alloc, facts, id)?;
    let mut text = node_text(alloc, id, label.as_str(), Style::Dashed)?;
    text.push_str("\n")?;
    Ok(text)
}

/// A record, where it is not held.
fn if_absent(alloc: Global, facts: &Facts, id: RecordId) -> Result<String, AllocError>
    ensures { IfOk result (λ text. string_bytes text ≡ if_absent (state_of_facts facts.now) id) }
{
    if is_known(facts, id) {
        return Ok(String::new(alloc));
    }
    absent_line(alloc, facts, id)
}

/// A record in the box of its space, and the line that leads to it: dashed where its parent is not
/// held.
fn record_lines(alloc: Global, facts: &Facts, mapping: &Record) -> Result<String, AllocError>
    ensures { IfOk result (λ text. string_bytes text
        ≡ record_lines (state_of_facts facts.now) mapping.now) }
{
    let style = style_under(facts, mapping.parent);
    let label = record_label(alloc, facts, mapping)?;
    let node = node_text(alloc, mapping.id, label.as_str(), style)?;
    let space = boxed(alloc, mapping.space, node.as_str())?;
    let edge = edge_text(alloc, mapping.parent, mapping.id, style)?;
    format!(in alloc; "{space}{edge}")
}

/// What makes a box grey, and says why.
fn ended_mark(alloc: Global, space: Space) -> Result<String, AllocError>
    ensures { IfOk result (λ text. string_bytes text ≡ ended_mark space) }
{
    let name = space_text(alloc, space)?;
    format!(in alloc; "style=filled; color=grey; \"end {name}\" [label=\"ended\", shape=plain];")
}

/// The box of a space that has ended.
fn ended_line(alloc: Global, space: Space) -> Result<String, AllocError>
    ensures { IfOk result (λ text. string_bytes text ≡ ended_line space) }
{
    let mark = ended_mark(alloc, space)?;
    boxed(alloc, space, mark.as_str())
}

/// The root, in the box of the first space.
fn root_line(alloc: Global, facts: &Facts) -> Result<String, AllocError>
    ensures { IfOk result (λ text. string_bytes text ≡ root_line (state_of_facts facts.now)) }
{
    let label = root_label(alloc, facts)?;
    let node = node_text(alloc, RecordId::ROOT, label.as_str(), Style::Solid)?;
    boxed(alloc, Space::FIRST, node.as_str())
}

/// The lines of all records that are held, in ascending order of name.
fn all_records(alloc: Global, facts: &Facts) -> Result<String, AllocError>
    ensures { IfOk result (λ text. string_bytes text
        ≡ flat_map (record_lines (state_of_facts facts.now)) (records_of_facts facts.now)) }
{
    let mut text = String::new(alloc);
    for mapping in facts.records() {
        text.push_str(record_lines(alloc, facts, &mapping)?.as_str())?;
    }
    Ok(text)
}

/// The names of which rights are revoked and those of the parents of records, whether such records
/// are held or not.
fn referred_names(
    alloc: Global,
    facts: &Facts,
    ops: &[Op],
) -> Result<BTreeSet<RecordId>, AllocError>
    ensures { IfOk result (λ names. names.keys
        ≡ referred_names (records_of_facts facts.now) (cut_names ops.now)) }
{
    let mut names = cut_names(alloc, ops)?;
    for mapping in facts.records() {
        names.insert(mapping.parent)?;
    }
    Ok(names)
}

/// The lines of the records that are not held, but are parents of some that are, or have rights
/// revoked, in ascending order of name.
fn all_absent(alloc: Global, facts: &Facts, ops: &[Op]) -> Result<String, AllocError>
    ensures { IfOk result (λ text. string_bytes text
        ≡ flat_map (if_absent (state_of_facts facts.now))
        (referred_names (records_of_facts facts.now) (cut_names ops.now))) }
{
    let names = referred_names(alloc, facts, ops)?;
    let mut text = String::new(alloc);
    for id in &names {
        text.push_str(if_absent(alloc, facts, *id)?.as_str())?;
    }
    Ok(text)
}

/// The boxes of the spaces that have ended.
fn all_ended(alloc: Global, ops: &[Op]) -> Result<String, AllocError>
    ensures { IfOk result (λ text. string_bytes text ≡ flat_map ended_line (ended_of ops.now)) }
{
    let spaces = ended_spaces(alloc, ops)?;
    let mut text = String::new(alloc);
    for space in &spaces {
        text.push_str(ended_line(alloc, *space)?.as_str())?;
    }
    Ok(text)
}

/// A graph of the root, of records, of names of which none is held, and of spaces that have ended.
fn graph_of(
    alloc: Global,
    first: &str,
    records: &str,
    absent: &str,
    ended: &str,
) -> Result<String, AllocError>
    ensures { IfOk result (λ text. string_bytes text
        ≡ graph_of first.now records.now absent.now ended.now) }
{
    format!(in alloc;
        "digraph mapdb {{\nrankdir=LR;\nnode [shape=box];\n{first}{records}{absent}{ended}}}\n"
    )
}

/// What the copy holds as Graphviz text: spaces as boxes, and in them the records, in ascending
/// order of name, with their place and named rights, the page of their parent that they come from,
/// the rights and the frame that they have at their first page, and what is revoked of them. A
/// record is dashed whose parent is not held, and so is that parent; the box of a space that has
/// ended is grey. Each name has one node. It depends on what the operations say together alone. The
/// one error is that memory ran out.
pub fn picture(alloc: Global, copy: &Replica) -> Result<String, AllocError>
    ensures { IfOk result (λ text. string_bytes text ≡ picture_text copy.now.ops) }
{
    let ops = copy.ops();
    let facts = copy.facts();
    let first = root_line(alloc, facts)?;
    let records = all_records(alloc, facts)?;
    let absent = all_absent(alloc, facts, ops)?;
    let ended = all_ended(alloc, ops)?;
    graph_of(
        alloc,
        first.as_str(),
        records.as_str(),
        absent.as_str(),
        ended.as_str(),
    )
}
