//! A zone that C keeps: a pointer in C's memory, to a zone that several of them may share.

ghost use Rattle.std.specs.{Option.{MatchOption}, Prelude.{◌≡◌}};
ghost use Rattle.std.specs.declared.{alloc.Global.{Global as Heap}, option.Option.{Option}, sync.Arc.{Arc}};
ghost use Rattle.{
  tz_info.specs.Zones.{Zone},
  zoned_ffi.specs.Owned.{held, shared_row},
};

use crate::slot::Slot;
use std::alloc::Global;
use std::marker::Model;
use std::ptr::null_mut;
use std::sync::Arc;
use tz_info::TimeZone;

/// A zone that C keeps. Null if none is open.
#[repr(C)]
pub struct Handle {
    at: *mut u8,
    alloc: Global,
    pub ghost shared: { Option (Arc Zone Heap) },
}

impl Model for Handle {
    ghost also_owns = { λ handle. held shared_row handle.alloc handle.at handle.shared };
}

impl Handle {
    /// None is open.
    pub fn closed(alloc: Global) -> Handle
        ensures { result.shared ≡ None }
    {
        Handle {
            at: null_mut(),
            alloc,
        }
    }

    /// The zone of the box is open.
    pub fn of(shared: Box<Arc<TimeZone>>) -> Handle
        ensures { result.shared ≡ Some shared.value }
    {
        Handle::from_slot(Slot::from_box(shared))
    }

    fn from_slot(slot: Slot<Arc<TimeZone>, Global>) -> Handle
        ensures { result.shared ≡ Some slot.value }
    {
        let Slot { at, alloc } = slot;
        Handle {
            at: at.cast::<u8>(),
            alloc,
        }
    }

    fn into_slot(self) -> Option<Slot<Arc<TimeZone>, Global>>
        ensures { MatchOption result (self.shared ≡ None) (λ s. self.shared ≡ Some s.value) }
    {
        let Handle { at, alloc } = self;
        if at == null_mut() {
            None
        } else {
            Some(Slot {
                at: at.cast::<Arc<TimeZone>>(),
                alloc,
            })
        }
    }
}

impl Drop for Handle {
    fn drop(self) {
        if let Some(slot) = self.into_slot() {
            drop(slot.into_box());
        }
    }
}

unsafe impl Send for Handle {}
