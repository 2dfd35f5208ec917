//! The moments at which a rule's types give way to each other.

ghost use Rattle.std.specs.Prelude.{◌≡◌, if◌then◌else◌, ◌||◌, int_le};
ghost use Rattle.{
  tz_info.specs.Rules.{Alternate},
  tz_info.specs.Steps.{Changes.{nearer_one}, Beside.{change_found}, Turns.{dst_by, is_between, is_dst_by_one}},
};

// A second at which daylight saving time starts, or ends.
#[derive(Clone, Copy)]
pub(crate) struct Moment {
    pub(crate) at: i64,
    pub(crate) to_dst: bool,
}

// The seconds at which daylight saving time starts and ends in one year.
#[derive(Clone, Copy)]
pub(super) struct Turns {
    pub(super) start: i64,
    pub(super) end: i64,
}

impl Turns {
    // Whether it is daylight saving time at the second, if no other year's moments matter.
    pub(super) fn is_dst(self, unix_time: i64) -> bool
        ensures { result ≡ is_dst_by_one self.start self.end unix_time }
    {
        let has_started = self.start <= unix_time;
        let has_not_ended = unix_time < self.end;
        if self.is_start_first() {
            has_started & has_not_ended
        } else {
            has_started | has_not_ended
        }
    }

    // The start, or the end.
    pub(super) fn moment(self, to_dst: bool) -> i64
        ensures { result ≡ (if to_dst then self.start else self.end) }
    {
        if to_dst { self.start } else { self.end }
    }

    // Whether the start does not come after the end.
    fn is_start_first(self) -> bool
        ensures { result ≡ int_le self.start self.end }
    {
        self.start <= self.end
    }

    fn is_from_start(self, unix_time: i64) -> bool
        ensures { result ≡ is_between self.start self.end unix_time }
    {
        self.start <= unix_time && unix_time < self.end
    }

    fn is_from_end(self, unix_time: i64) -> bool
        ensures { result ≡ is_between self.end self.start unix_time }
    {
        self.end <= unix_time && unix_time < self.start
    }
}

// Whether it is daylight saving time at the second by the moments of its year and of the years
// before and after it.
pub(super) fn is_dst_by_three(before: Turns, here: Turns, after: Turns, unix_time: i64) -> bool
    ensures { result ≡ dst_by before here after unix_time }
{
    if here.is_start_first() {
        is_any(
            before.is_from_start(unix_time),
            here.is_from_start(unix_time),
            after.is_from_start(unix_time),
        )
    } else {
        !is_any(
            before.is_from_end(unix_time),
            here.is_from_end(unix_time),
            after.is_from_end(unix_time),
        )
    }
}

// Whether one of them holds: a function of its own, so that no case is made of each.
fn is_any(a: bool, b: bool, c: bool) -> bool
    ensures { result ≡ (a || b || c) }
{
    a || b || c
}

// The moment that comes first, or the one that comes last.
pub(super) fn nearer(found: Option<Moment>, other: Option<Moment>, forward: bool) -> Option<Moment>
    ensures { (a : Alternate) → change_found a result
        ≡ nearer_one forward (change_found a found) (change_found a other) }
{
    let Some(one) = found else {
        return other;
    };
    let Some(second) = other else {
        return Some(one);
    };
    let is_nearer = if forward {
        second.at < one.at
    } else {
        one.at < second.at
    };
    if is_nearer { Some(second) } else { Some(one) }
}
