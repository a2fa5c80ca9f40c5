//! What goes over a link.

ghost use Rattle.std.specs.Prelude.{◌≡◌};
ghost use Rattle.mapdb_exchange.specs.Links.{is_fin};

use mapdb_facts::Op;
use std::marker::Model;

/// Operations, in order. Contracts see them as their list.
#[derive(Drop)]
pub struct Ops {
    items: Vec<Op>,
}

impl Model for Ops {
    ghost use Rattle.std.specs.Prelude.{List};
    ghost use Rattle.mapdb_facts.specs.declared.operations.Op.{Op};

    ghost Value = { List Op };

    ghost view = { λ o. o.items.items };
}

impl Ops {
    /// The operations of a vector.
    pub fn from_vec(items: Vec<Op>) -> Ops
        ensures { result ≡ items.items }
    {
        Ops { items }
    }

    /// The operations as a slice.
    pub fn as_slice(&self) -> &[Op]
        ensures { result.now ≡ self.now }
    {
        self.items.as_slice()
    }
}

/// What one command of a processor issued, for another processor.
#[derive(Drop)]
pub struct Batch {
    /// The processor that issued the operations.
    pub from: u8,
    /// The processor that is to take them.
    pub to: u8,
    /// How many batches its link carried before.
    pub index: u32,
    /// The operations that the command issued, in order.
    pub ops: Ops,
}

/// What a link carries.
#[derive(Drop)]
pub enum Message {
    /// What one command issued.
    Batch(Batch),
    /// Nothing more comes over the link.
    Fin,
}

impl Message {
    /// Whether nothing more comes.
    pub fn is_fin(&self) -> bool
        ensures { result ≡ is_fin self.now }
    {
        matches!(self, Message::Fin)
    }
}
