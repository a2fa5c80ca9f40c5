//! What a run counted, and why it stops.

ghost use Rattle.std.specs.Prelude.{◌≡◌};

use mapdb_lines::{LineFault, ReadFault};
use std::alloc::AllocError;
use thiserror::Error;

/// What a run counted.
#[derive(Clone, Copy, Debug, PartialEq, Eq)]
pub struct Summary {
    /// All lines, also those that say nothing.
    pub lines: u64,
    /// The lines that say something.
    pub commands: u64,
    /// The replies that refuse.
    pub refused: u64,
}

/// Why a run stops before its end.
#[derive(Clone, Copy, Debug, PartialEq, Eq, Error)]
pub enum ScriptFault {
    /// A line is at fault, which the output tells.
    #[error("a line is at fault")]
    Line {
        /// The number of the line, from 1 on.
        number: u64,
        /// What is wrong with it.
        fault: LineFault,
    },
    /// The reader failed.
    #[error("read failed")]
    Read,
    /// The writer failed, or took nothing.
    #[error("write failed")]
    Write,
    /// There was no memory for a line, a reply or a copy.
    #[error("out of memory")]
    Memory,
}

impl From<AllocError> for ScriptFault {
    ghost use Rattle.mapdb_script.specs.declared.faults.ScriptFault.TheVariants as variant;

    ghost from_gives = { λ _ e. e ≡ variant.Memory };

    fn from(_e: AllocError) -> ScriptFault {
        ScriptFault::Memory
    }
}

impl From<ReadFault> for ScriptFault {
    ghost use Rattle.mapdb_script.specs.Faults.{script_fault};

    ghost from_gives = { λ e f. f ≡ script_fault e };

    fn from(fault: ReadFault) -> ScriptFault {
        match fault {
            ReadFault::Failed => ScriptFault::Read,
            ReadFault::Memory => ScriptFault::Memory,
        }
    }
}
