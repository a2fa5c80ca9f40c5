//! The commands that the lines of a script are.

ghost use Rattle.std.specs.Prelude.{◌≡◌};
ghost use Rattle.mapdb_script.specs.Commands.{command_of};

use mapdb_lines::Line;
use mapdb_replica::Command;

/// A command, and the processor that it is issued at.
#[derive(Clone, Copy)]
pub(crate) struct Issued {
    pub(crate) at: u8,
    pub(crate) command: Command,
}

/// The command that a line is, if it is one.
#[inline(always)]
pub(crate) fn command_of(line: &Line<'_>) -> Option<Issued>
    ensures { result ≡ command_of line.now }
{
    match *line {
        Line::Map {
            at,
            sender,
            item,
            receiver,
            window,
        } => {
            let command = Command::Map {
                sender,
                item,
                receiver,
                window,
            };
            Some(Issued { at, command })
        }
        Line::Unmap {
            at,
            space,
            page,
            rights,
            flush,
        } => {
            let command = Command::Unmap {
                space,
                page,
                rights,
                flush,
            };
            Some(Issued { at, command })
        }
        Line::End { at, space } => {
            let command = Command::End { space };
            Some(Issued { at, command })
        }
        _ => None,
    }
}
