//! Why an exchange gives no report, and which of several faults is told.

ghost use Rattle.std.specs.Prelude.{◌≡◌, [], ◌∷◌, ◌++◌, List, nat_lt, IfNone, IfSome};
ghost use Rattle.mapdb_exchange.specs.Faults.{IsFirstFault, node_turn, fault_turn};
ghost use Rattle.mapdb_exchange.specs.declared.faults.WorkFault.{WorkFault};

use mapdb_node::CallFault;
use mapdb_replica::TakeFault;
use std::alloc::{AllocError, AllocFailed};

/// What a node did not do for a worker.
#[derive(Clone, Copy, Debug, PartialEq, Eq)]
pub enum NodeFault {
    /// The journal of a node has 1,048,576 entries.
    JournalFull,
    /// A node gave no seat, or its seats do not close it.
    Seats,
    /// A copy has no operation of its own at a place where a reply told of one.
    Own,
    /// An operation of a batch was not taken, for another cause than memory.
    Refused(TakeFault),
}

/// Why an exchange gives no report. They are told in this order.
#[derive(Clone, Copy, Debug, PartialEq, Eq)]
pub enum RunFault {
    /// There is no script, or there are more than 4; or the capacity is 0, or more than 1,024. No
    /// thread was started.
    BadCount,
    /// Memory ran out, by the exchange or inside an event.
    Memory,
    /// A thread could not be started.
    NoThread,
    /// A node did not do what a worker asked.
    Node(NodeFault),
    /// The gate did not let a call pass.
    Gate,
    /// A link did not carry a message, or carried another than it should; or the histories do not
    /// show the scripts, or not that each processor took what the others issued.
    Link,
}

/// The system gave no thread for a worker.
#[derive(Clone, Copy, Debug, PartialEq, Eq)]
pub(crate) struct Unstarted;

/// Why a worker ended early: what a run tells, but for a bad count.
#[derive(Clone, Copy, Debug, PartialEq, Eq)]
pub(crate) enum WorkFault {
    Memory,
    NoThread,
    Node(NodeFault),
    Gate,
    Link,
}

impl NodeFault {
    /// Whether this fault is told rather than the other.
    fn is_before(&self, other: &NodeFault) -> bool
        ensures { result ≡ nat_lt (node_turn self.now) (node_turn other.now) }
    {
        match (*self, *other) {
            (_, NodeFault::JournalFull) => false,
            (NodeFault::JournalFull, _) => true,
            (_, NodeFault::Seats) => false,
            (NodeFault::Seats, _) => true,
            (_, NodeFault::Own) => false,
            (NodeFault::Own, _) => true,
            (NodeFault::Refused(_), NodeFault::Refused(_)) => false,
        }
    }
}

impl From<AllocError> for WorkFault {
    ghost use Rattle.std.specs.Prelude.{◌≡◌};
    ghost use Rattle.mapdb_exchange.specs.declared.faults.WorkFault.{WorkFault};

    ghost from_gives = { λ fault worker. worker ≡ WorkFault.Memory };

    fn from(_fault: AllocError) -> WorkFault {
        WorkFault::Memory
    }
}

impl<T: Drop> From<AllocFailed<T>> for WorkFault {
    ghost use Rattle.std.specs.Prelude.{◌≡◌};
    ghost use Rattle.mapdb_exchange.specs.declared.faults.WorkFault.{WorkFault};

    ghost from_gives = { λ fault worker. worker ≡ WorkFault.Memory };

    fn from(_fault: AllocFailed<T>) -> WorkFault {
        WorkFault::Memory
    }
}

impl From<CallFault> for WorkFault {
    ghost use Rattle.std.specs.Prelude.{◌≡◌};
    ghost use Rattle.mapdb_exchange.specs.Calls.{called_fault};

    ghost from_gives = { λ fault worker. worker ≡ called_fault fault };

    fn from(fault: CallFault) -> WorkFault {
        match fault {
            CallFault::JournalFull => WorkFault::Node(NodeFault::JournalFull),
            CallFault::Memory => WorkFault::Memory,
            CallFault::Gate => WorkFault::Gate,
        }
    }
}

impl From<WorkFault> for RunFault {
    ghost use Rattle.std.specs.Prelude.{◌≡◌};
    ghost use Rattle.mapdb_exchange.specs.Faults.{run_fault};

    ghost from_gives = { λ fault told. told ≡ run_fault fault };

    fn from(fault: WorkFault) -> RunFault {
        match fault {
            WorkFault::Memory => RunFault::Memory,
            WorkFault::NoThread => RunFault::NoThread,
            WorkFault::Node(why) => RunFault::Node(why),
            WorkFault::Gate => RunFault::Gate,
            WorkFault::Link => RunFault::Link,
        }
    }
}

impl WorkFault {
    /// Whether this fault is told rather than the other.
    fn is_before(&self, other: &WorkFault) -> bool
        ensures { result ≡ nat_lt (fault_turn self.now) (fault_turn other.now) }
    {
        match (*self, *other) {
            (_, WorkFault::Memory) => false,
            (WorkFault::Memory, _) => true,
            (_, WorkFault::NoThread) => false,
            (WorkFault::NoThread, _) => true,
            (WorkFault::Node(one), WorkFault::Node(another)) => one.is_before(&another),
            (_, WorkFault::Node(_)) => false,
            (WorkFault::Node(_), _) => true,
            (_, WorkFault::Gate) => false,
            (WorkFault::Gate, _) => true,
            (WorkFault::Link, WorkFault::Link) => false,
        }
    }
}

/// Which fault is told, where one more is met after those of which this one is told.
#[tactic(auto, using(crate::proofs::FirstFaults::told_first))]
fn told_of(held: Option<WorkFault>, fault: &WorkFault) -> WorkFault
    ensures { (faults : List WorkFault) → IfSome held (IsFirstFault faults)
        → IfNone held (faults ≡ [])
        → IsFirstFault (faults ++ fault.now ∷ []) result }
{
    let Some(held) = held else {
        return *fault;
    };
    if fault.is_before(&held) { *fault } else { held }
}

/// The fault that is told of several workers': the first of those that come first in the order of
/// faults.
pub(crate) fn first_fault(faults: &[WorkFault]) -> Option<WorkFault>
    ensures first { IfSome result (IsFirstFault faults.now) }
    ensures none { IfNone result (faults.now ≡ []) }
{
    let mut first = None;
    for fault in faults {
        first = Some(told_of(first, fault));
    }
    first
}
