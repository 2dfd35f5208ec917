//! When the stretch of a time is searched for.

// A near miss asks for a search after two others in a row.
const NEAR_MISSES: u8 = 2;

// One in 256 far misses asks for a search: the first time after 16 others.
const FIRST_FAR_MISSES: u8 = 240;

/// The last times that lay outside the stretch that is kept. Only the time that calls take depends on
/// them: a search costs as much as two to four lookups, and pays where times lie near one another, or
/// where stretches are long.
#[derive(Clone, Copy)]
pub struct Misses {
    // The part of the axis in which the last of them lay.
    part: i64,
    // How many in a row came in the part of the one before.
    near: u8,
    // How many did not, and `FIRST_FAR_MISSES` more.
    far: u8,
}

impl Misses {
    /// None yet.
    pub fn none() -> Misses {
        Misses {
            part: i64::MIN,
            near: 0,
            far: FIRST_FAR_MISSES,
        }
    }

    /// Whether to search for the stretch of a time in that part, which lies outside the one that is kept.
    #[inline(always)]
    pub fn is_due(&mut self, part: i64) -> bool {
        let is_near = part == self.part;
        self.part = part;
        if !is_near {
            self.near = 0;
            self.far = self.far.wrapping_add(1);
            return self.far == 0;
        }
        if self.near < NEAR_MISSES {
            self.near += 1;
            return false;
        }
        self.near = 0;
        true
    }
}
