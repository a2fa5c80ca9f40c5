//! A command at a copy, of whatever kind.

use crate::commands::{Applied, Command};
use crate::faults::IssueFault;
use crate::replicas::Replica;

impl Replica {
    ghost use Rattle.std.specs.Prelude.{◌≡◌, IfOk, OnOk, true};
    ghost use Rattle.mapdb_facts.specs.WellFormed.{all_formed};
    ghost use Rattle.mapdb_replica.specs.Commands.{Applies, AreFew, UnmapReaches, command_outcome};

    /// Does a command, whose kind is looked at.
    fn apply_by_kind(&mut self, command: &Command) -> Result<Applied, IssueFault>
        ensures applies { Applies command.now (command_outcome self.old command.now)
            result self.old self.new }
        ensures reached { OnOk result (UnmapReaches command.now self.old.ops self.new.ops) }
    {
        match *command {
            Command::Map {
                sender,
                item,
                receiver,
                window,
            } => {
                let names = self.map(sender, &item, receiver, window)?;
                Ok(Applied::Mapped(names))
            }
            Command::Unmap {
                space,
                page,
                rights,
                flush,
            } => {
                let count = self.unmap(space, page, rights, flush)?;
                Ok(Applied::Revoked(count))
            }
            Command::End { space } => {
                self.end(space)?;
                Ok(Applied::Ended(space))
            }
        }
    }

    /// Does a command, as [`Replica::map`], [`Replica::unmap`] or [`Replica::end`] does, with their
    /// faults.
    pub fn apply(&mut self, command: &Command) -> Result<Applied, IssueFault>
        ensures applies { Applies command.now (command_outcome self.old command.now)
            result self.old self.new }
        ensures few { IfOk result AreFew }
        ensures reached { OnOk result (UnmapReaches command.now self.old.ops self.new.ops) }
        ensures formed { all_formed self.new.ops ≡ true }
    {
        let applied = self.apply_by_kind(command);
        self.prove_formed();
        applied
    }
}
