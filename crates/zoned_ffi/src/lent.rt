//! A zone that C keeps, as it is asked: the handle is only read, by any number of calls at once.

ghost use Rattle.std.specs.{Option.{MatchOption}, Prelude.{◌≡◌, ℕ}};
ghost use Rattle.std.specs.declared.{alloc.Global.{Global as Heap}, option.Option.{Option}, sync.Arc.{Arc}};
ghost use Rattle.{
  tz_info.specs.Zones.{Zone},
  zoned_ffi.specs.Owned.{lent, shared_row},
};

use std::marker::Model;
use std::ptr::null;
use std::sync::Arc;
use tz_info::TimeZone;

/// A [`crate::handle::Handle`] that is lent: nobody closes it or opens another zone in it meanwhile.
/// Null if no zone is open.
#[repr(C)]
pub struct Lent {
    at: *const u8,
    ghost life: { ℕ },
    pub ghost shared: { Option (Arc Zone Heap) },
}

impl Model for Lent {
    ghost also_owns = { λ handle. lent shared_row handle.life handle.at handle.shared };
}

impl Lent {
    /// The zone that is open.
    pub fn share(&self) -> Option<&Arc<TimeZone>>
        ensures { MatchOption result (self.now.shared ≡ None)
            (λ share. self.now.shared ≡ Some share.now) }
    {
        let at = self.at;
        if at == null() {
            return None;
        }
        unsafe { Some(&*at.cast::<Arc<TimeZone>>()) }
    }
}

unsafe impl Send for Lent {}

unsafe impl Sync for Lent {}
