//! Both ends of the range, by clocks that show buffer days.

use offset_core::FixedOffset;
use zoned_time::{DateTime, Utc};

pub fn last() -> DateTime<FixedOffset> {
    DateTime::<Utc>::MAX_UTC().with_timezone(&FixedOffset::east(3600))
}

pub fn first() -> DateTime<FixedOffset> {
    DateTime::<Utc>::MIN_UTC().with_timezone(&FixedOffset::west(3600))
}
