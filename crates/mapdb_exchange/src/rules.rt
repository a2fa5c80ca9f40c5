//! The rule of a link's channel, and what each call on an end of the link does under it.

use crate::messages::Message;
use crossbeam_channel::protocol::{Join, Lesson, Outcome, Protocol, Split};
use std::collections::LinkedList;

/// What the pass of an end of a link may do, and what it has put and received. No value of it is
/// made.
pub(crate) struct PassView {
    /// Whether the end puts.
    pub sends: bool,
    /// Whether the end receives.
    pub receives: bool,
    /// What was put, in order.
    pub put: LinkedList<Message>,
    /// What was received, in order.
    pub received: LinkedList<Message>,
}

/// The rule: what was put is what was received, followed by what the channel holds.
pub(crate) struct InOrder;

impl Protocol<Message, PassView> for InOrder {
    ghost use Rattle.std.specs.Prelude.{true, []};
    ghost use Rattle.mapdb_exchange.specs.Rules.{pass_view, Carries};

    ghost holds = { Carries };

    ghost first = { pass_view true true [] [] };
}

/// The two ends of a link: one puts, the other receives.
pub(crate) struct Ends;

impl Split<PassView> for Ends {
    ghost use Rattle.std.specs.Prelude.{true, false, []};
    ghost use Rattle.mapdb_exchange.specs.Rules.{pass_view};

    ghost left = { λ v. pass_view true false v.put [] };

    ghost right = { λ v. pass_view false true [] v.received };
}

impl Join<PassView> for Ends {
    ghost use Rattle.std.specs.Prelude.{true, false, []};
    ghost use Rattle.mapdb_exchange.specs.Rules.{pass_view};

    ghost both = { λ v w. pass_view true true v.put w.received };

    ghost spent = { pass_view false false [] [] };
}

/// A message is put at the back.
pub(crate) struct Puts;

impl Outcome<Message, PassView> for Puts {
    ghost use Rattle.std.specs.Prelude.{◌≡◌, [], ◌∷◌, ◌++◌};
    ghost use Rattle.mapdb_exchange.specs.Rules.{pass_view};

    ghost then = { λ v x w. w ≡ pass_view v.sends v.receives (v.put ++ x ∷ []) v.received };
}

impl Lesson<Message, PassView> for Puts {
    ghost fact = { λ v items. Unit {0} };
}

/// The message at the front is received.
pub(crate) struct Receives;

impl Outcome<Message, PassView> for Receives {
    ghost use Rattle.std.specs.Prelude.{◌≡◌, [], ◌∷◌, ◌++◌};
    ghost use Rattle.mapdb_exchange.specs.Rules.{pass_view};

    ghost then = { λ v x w. w ≡ pass_view v.sends v.receives v.put (v.received ++ x ∷ []) };
}

impl Lesson<Message, PassView> for Receives {
    ghost fact = { λ v items. Unit {0} };
}

/// With both ends in one hand: what was put is what was received, followed by what the channel
/// holds.
pub(crate) struct Compares;

impl Lesson<Message, PassView> for Compares {
    ghost use Rattle.std.specs.Prelude.{◌≡◌, ◌++◌};

    ghost fact = { λ v items. v.put ≡ v.received ++ items };
}
