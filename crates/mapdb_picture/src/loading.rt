//! A copy that takes what a snapshot says, and what is told of it.

ghost use Rattle.std.specs.Prelude.{◌≡◌, ◌⊎◌, [], Ok, Err, IfOk, IfErr, string_bytes};
ghost use Rattle.mapdb_picture.specs.Loading.{explained, loaded_of, pictured};

use crate::explanations::explanation;
use crate::faults::LoadFault;
use crate::pictures::picture;
use mapdb_facts::Space;
use mapdb_replica::Replica;
use mapdb_snapshot::snapshot_read;
use std::alloc::Global;

/// A copy of processor 0 that held nothing and has taken what a snapshot says, or why it takes
/// nothing. It has issued nothing itself. Running out of memory may be told in place of any other
/// fault.
pub fn snapshot_copy(alloc: Global, bytes: &[u8]) -> Result<Replica, LoadFault>
    ensures held { IfOk result (λ copy. loaded_of bytes.now ≡ Ok copy.ops) }
    ensures processor { IfOk result (λ copy. copy.processor ≡ 0) }
    ensures own { IfOk result (λ copy. copy.own ≡ []) }
    ensures err { IfErr result (λ fault. (fault ≡ LoadFault.Memory)
        ⊎ (loaded_of bytes.now ≡ Err fault)) }
{
    let ops = snapshot_read(alloc, bytes)?;
    let mut copy = Replica::new(alloc, 0);
    copy.take(ops.as_slice())?;
    Ok(copy)
}

/// The Graphviz text of what a snapshot says, as [`picture`] writes it, or why a copy takes nothing
/// of it. Running out of memory may be told in place of any other fault.
pub fn snapshot_picture(alloc: Global, bytes: &[u8]) -> Result<String, LoadFault>
    ensures text { IfOk result (λ text. pictured bytes.now ≡ Ok (string_bytes text)) }
    ensures err { IfErr result (λ fault. (fault ≡ LoadFault.Memory)
        ⊎ (pictured bytes.now ≡ Err fault)) }
{
    let copy = snapshot_copy(alloc, bytes)?;
    Ok(picture(alloc, &copy)?)
}

/// Why a page of a space has what it has in a snapshot, as [`explanation`] tells it, or why a copy
/// takes nothing of the snapshot. Running out of memory may be told in place of any other fault.
pub fn snapshot_explanation(
    alloc: Global,
    bytes: &[u8],
    space: Space,
    page: u64,
) -> Result<String, LoadFault>
    ensures text { IfOk result (λ text. explained bytes.now space page ≡ Ok (string_bytes text)) }
    ensures err { IfErr result (λ fault. (fault ≡ LoadFault.Memory)
        ⊎ (explained bytes.now space page ≡ Err fault)) }
{
    let copy = snapshot_copy(alloc, bytes)?;
    Ok(explanation(alloc, &copy, space, page)?)
}
