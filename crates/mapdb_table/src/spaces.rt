//! The spaces that there are.

ghost use Rattle.std.specs.Prelude.{◌≡◌, IfOk, OnOk};
ghost use Rattle.mapdb_facts.specs.Spaces.{placed_space};
ghost use Rattle.mapdb_facts.specs.State.{IsSound};
ghost use Rattle.mapdb_table.specs.Table.{spaces_of, with_space_of};

use mapdb_facts::{Op, Space};
use std::alloc::{AllocError, Global};
use std::collections::BTreeSet;

/// Adds a space at its place.
fn add_space(spaces: &mut BTreeSet<Space>, space: Space) -> Result<(), AllocError>
    ensures { OnOk result (spaces.new.keys ≡ placed_space space spaces.old.keys) }
{
    spaces.insert(space)?;
    Ok(())
}

/// Adds the space of the record, where the operation is one.
fn add_space_of(spaces: &mut BTreeSet<Space>, op: &Op) -> Result<(), AllocError>
    ensures { OnOk result (spaces.new.keys ≡ with_space_of op.now spaces.old.keys) }
{
    if let Op::Born(record) = op {
        add_space(spaces, record.space)?;
    }
    Ok(())
}

/// The first space and those of the records among the operations, each once.
fn gathered(alloc: Global, ops: &[Op]) -> Result<BTreeSet<Space>, AllocError>
    requires { IsSound ops.now }
    ensures { IfOk result (λ spaces. spaces.keys ≡ spaces_of ops.now) }
{
    let mut spaces = BTreeSet::new(alloc);
    add_space(&mut spaces, Space::FIRST)?;
    for op in ops {
        add_space_of(&mut spaces, op)?;
    }
    Ok(spaces)
}

/// The spaces that there are, the first and those of the records among the operations, in ascending
/// order. The only error is that memory ran out.
pub fn spaces(alloc: Global, ops: &[Op]) -> Result<Vec<Space>, AllocError>
    requires { IsSound ops.now }
    ensures { IfOk result (λ spaces. spaces.items ≡ spaces_of ops.now) }
{
    let spaces = gathered(alloc, ops)?;
    spaces.iter().copied().collect(alloc)
}
