//! What a command at one copy is replied.

ghost use Rattle.std.specs.Prelude.{◌≡◌, IfOk, true};
ghost use Rattle.mapdb_facts.specs.WellFormed.{all_formed};
ghost use Rattle.mapdb_replica.specs.Commands.{AreFew, Replies};
ghost use Rattle.mapdb_cluster.specs.Steps.{applied_reply};

use crate::events::{Refusal, Reply};
use mapdb_replica::{Applied, Command, IssueFault, Replica, first_number};

/// The reply to a command that a copy applied.
fn applied_reply(applied: Result<Applied, IssueFault>) -> Reply
    requires { IfOk applied AreFew }
    ensures { result ≡ applied_reply applied }
{
    match applied {
        Ok(Applied::Mapped(names)) => Reply::Issued {
            first: first_number(names.as_slice()),
            count: names.len() as u32,
        },
        Ok(Applied::Revoked(count)) => Reply::Revoked(count),
        Ok(Applied::Ended(_)) => Reply::Ended,
        Err(fault) => Reply::Refused(Refusal::Issue(fault)),
    }
}

/// Does a command at a copy.
pub(crate) fn issue(copy: &mut Replica, command: &Command) -> Reply
    ensures commands { Replies applied_reply command.now copy.old result copy.new }
    ensures formed { all_formed copy.new.ops ≡ true }
{
    applied_reply(copy.apply(command))
}
