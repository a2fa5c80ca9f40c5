//! A handle to a copy, or to none.

ghost use Rattle.std.specs.Prelude.{◌≡◌};
ghost use Rattle.std.specs.Coded.{coded_option};
ghost use Rattle.std.specs.declared.option.Option.{Option};
ghost use Rattle.std.specs.declared.option.Option.TheVariants.{None, Some};
ghost use Rattle.std.specs.Option.{option_map};
ghost use Rattle.mapdb_replica.specs.contracts.replicas.Replica.{the_row};
ghost use Rattle.mapdb_c.specs.Handles.{held_at};
ghost use Rattle.mapdb_replica.specs.Replica.{Log};

use crate::loose::Loose;
use mapdb_replica::Replica;
use std::alloc::Global;
use std::marker::Model;
use std::mem::replace;
use std::ptr::null_mut;

/// What C has of a copy: one pointer, null where there is none. What it points at is a box that it
/// owns.
#[repr(C)]
pub struct Handle {
    at: *mut u8,
    alloc: Global,
    ghost held: { Option Log } by { coded_option the_row.coded },
}

impl Model for Handle {
    ghost also_owns = { λ h. held_at the_row h.alloc h.at h.held };
}

impl Handle {
    /// A handle without a copy.
    pub(crate) fn none(alloc: Global) -> Handle
        ensures { result.held ≡ None }
    {
        Handle {
            at: null_mut(),
            alloc,
        }
    }

    /// The handle of a copy.
    fn of(loose: Loose<Replica, Global>) -> Handle
        ensures { result.held ≡ Some loose.value }
    {
        let Loose { ptr, alloc } = loose;
        Handle {
            at: ptr as *mut u8,
            alloc,
        }
    }

    /// The copy of the handle, where it has one.
    fn into_loose(self) -> Option<Loose<Replica, Global>>
        ensures { option_map (λ l. l.value) result ≡ self.held }
    {
        let Handle { at, alloc } = self;
        if at.is_null() {
            None
        } else {
            Some(Loose {
                ptr: at as *mut Replica,
                alloc,
            })
        }
    }
}

impl Handle {
    ghost use Rattle.std.specs.Option.{option_map};

    /// The box, or none.
    fn into_box(self) -> Option<Box<Replica>>
        ensures { option_map (λ b. b.value) result ≡ self.held }
    {
        match self.into_loose() {
            Some(loose) => Some(loose.into_box()),
            None => None,
        }
    }

    /// Takes the box out.
    pub(crate) fn take(&mut self, alloc: Global) -> Option<Box<Replica>>
        ensures taken { option_map (λ b. b.value) result ≡ self.old.held }
        ensures none { self.new.held ≡ None }
    {
        replace(self, Handle::none(alloc)).into_box()
    }

    /// Puts a box in, and frees what was there.
    pub(crate) fn put(&mut self, replica: Box<Replica>)
        ensures { self.new.held ≡ Some replica.value }
    {
        let _old = replace(self, Handle::of(Loose::of(replica))).into_box();
    }
}

impl Drop for Handle {
    fn drop(self) {
        let _held = self.into_box();
    }
}
