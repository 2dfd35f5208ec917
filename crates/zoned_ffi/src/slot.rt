//! A box as its pointer, and back.

ghost use Rattle.std.specs.{Box.Ownership.{box_owns}, Prelude.{◌≡◌}};

use std::alloc::Allocator;
use std::marker::Model;

/// What a box owns, by its pointer: a block of the allocator with a value in it.
pub struct Slot<T, A: Allocator> {
    pub at: *mut T,
    pub alloc: A,
    pub ghost value: { T },
}

impl<T, A: Allocator> Model for Slot<T, A> {
    ghost also_owns = { λ slot. box_owns (A.dealloc_token slot.alloc) T.row slot.at slot.value };
}

impl<T: Drop, A: Allocator> Slot<T, A> {
    /// The pointer of the box.
    pub fn from_box(boxed: Box<T, A>) -> Slot<T, A>
        ensures { result.value ≡ boxed.value }
    {
        let parts = Box::into_raw_with_allocator(boxed);
        Slot {
            at: parts.0,
            alloc: parts.1,
        }
    }

    /// The box at the pointer.
    pub fn into_box(self) -> Box<T, A>
        ensures { result.value ≡ self.value }
    {
        let Slot { at, alloc } = self;
        unsafe { Box::from_raw(alloc, at) }
    }
}
