//! The seconds at which a zone has a type: all of them from the first one to the last one.

ghost use Rattle.std.specs.{Int.{int_min}, Prelude.{◌≡◌, ◌<ℤ◌, ◌-ℤ◌, option_map, pos}};
ghost use Rattle.{
  tz_info.specs.{HeldChanges.{change_held}, Zones.{Zone}},
  tz_info.specs.Steps.Typed.{IsTypedUntil, IsBeginBy, IsEndBy, IsLastTimed, IsLastTyped, IsTypedFrom},
};

use crate::change::HeldChange;
use crate::zone::time_zone::TimeZone;

// The first second of the years -2147483646 to 2147483645, for which rules answer, and the one after
// them.
pub(super) const FIRST_OF_RULE: i64 = -67_768_100_504_812_800;

const END_OF_RULE: i64 = 67_767_976_170_460_800;

impl TimeZone {
    // When the span begins whose seconds have that last change, or none.
    pub(in crate::zone) fn span_begin(&self, previous: Option<HeldChange<'_>>) -> Option<i64>
        ensures { IsBeginBy self.now (option_map change_held previous.entry) result }
    {
        match previous {
            Some(change) => Some(change.at),
            None => self.typed_from(),
        }
    }

    // When the span ends whose seconds have that next change, or none.
    pub(super) fn span_end(&self, next: Option<HeldChange<'_>>) -> Option<i64>
        ensures { IsEndBy self.now (option_map change_held next.entry) result }
    {
        match next {
            Some(change) => Some(change.at),
            None => self.typed_until(),
        }
    }

    // The first second that has a type; `None` if that is the first one of 64 bits.
    fn typed_from(&self) -> Option<i64>
        ensures { IsTypedFrom self.now result }
    {
        let _ = &self.changes;
        match self.find_local_time_type(i64::MIN) {
            Ok(_) => None,
            Err(_) => Some(FIRST_OF_RULE),
        }
    }

    // The second after the last one that has a type; `None` if that is the last one of 64 bits.
    fn typed_until(&self) -> Option<i64>
        ensures { IsTypedUntil self.now result }
    {
        second_after(self.last_typed())
    }

    // The last second that has a type: that with a leap time, or of a rule of two types the last one of the
    // years that it answers in. Before a rule begins, it isn't asked.
    pub(in crate::zone) fn last_typed(&self) -> i64
        ensures { IsLastTyped self.now result }
    {
        let _ = &self.changes;
        let last = self.last_timed();
        match self.turns() {
            Some(_) => up_to(last, self.rule_begin().max(i128::from(END_OF_RULE))),
            None => last,
        }
    }

    // The last second that has a leap time; without transitions none needs one.
    fn last_timed(&self) -> i64
        ensures { IsLastTimed self.now result }
    {
        if self.has_no_transition() {
            return i64::MAX;
        }
        self.leap_seconds.last()
    }
}

// The second, or the one before `end` if that is earlier.
fn up_to(second: i64, end: i128) -> i64
    requires { pos 0 <ℤ end }
    ensures { result ≡ int_min second (end -ℤ pos 1) }
{
    i128::from(second).min(end - 1) as i64
}

// The second after the last one that has a type; `None` if that is the last one of 64 bits.
pub(in crate::zone) fn second_after(last: i64) -> Option<i64>
    ensures { (z : Zone) → IsLastTyped z last → IsTypedUntil z result }
{
    if last == i64::MAX {
        return None;
    }
    Some(last + 1)
}
