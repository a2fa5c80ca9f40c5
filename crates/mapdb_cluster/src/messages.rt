//! What processors send each other.

use mapdb_facts::Op;
use std::marker::Model;

/// A message: operations of the copy that sent it, in their order of arrival there.
#[derive(Drop)]
pub struct Message {
    ops: Vec<Op>,
}

impl Model for Message {
    ghost use Rattle.std.specs.Prelude.{List};
    ghost use Rattle.mapdb_facts.specs.declared.operations.Op.{Op};

    ghost Value = { List Op };

    ghost view = { λ m. m.ops.items };
}

impl Message {
    ghost use Rattle.std.specs.Prelude.{◌≡◌};

    /// A message of these operations.
    pub(crate) fn new(ops: Vec<Op>) -> Message
        ensures { result ≡ ops.items }
    {
        Message { ops }
    }

    /// The operations.
    pub fn ops(&self) -> &[Op]
        ensures { result.now ≡ self.now }
    {
        self.ops.as_slice()
    }
}
