//! The span that goes on after a zone's last clock change. It is kept, so that a second in it needs
//! no search.

ghost use Rattle.std.specs.Prelude.{◌↔◌, ◌<ℤ◌, ◌≤ℤ◌, IsTrue};
ghost use Rattle.tz_info.specs.{Steps.LastSpans.{IsLastSpan}, Zones.{Zone}};

use tz_base::{Change, LocalTimeType, Span};

// The span of each second later than `after`, up to `last`, after which none has a type. Only one second
// shows a local time later than `local_after`, and lies in it.
#[derive(Clone, Copy)]
pub(in crate::zone) struct LastSpan {
    pub(in crate::zone) after: i64,
    pub(in crate::zone) last: i64,
    pub(in crate::zone) local_after: i64,
    pub(in crate::zone) span: Span,
    // The change that began the span, if one did.
    pub(in crate::zone) begin: Option<Change>,
}

impl LastSpan {
    // The span of no second.
    pub(in crate::zone) fn none() -> LastSpan
        ensures { (z : Zone) → IsLastSpan z result }
    {
        LastSpan {
            after: i64::MAX,
            last: i64::MIN,
            local_after: i64::MAX,
            span: Span {
                local_time_type: LocalTimeType::utc(),
                from: None,
                until: None,
            },
            begin: None,
        }
    }

    // Whether the second is known to lie in the span.
    #[inline(always)]
    pub(in crate::zone) fn has(&self, unix_time: i64) -> bool
        ensures { IsTrue result
            ↔ ((self.now.after <ℤ unix_time) × (unix_time ≤ℤ self.now.last)) }
    {
        self.after < unix_time && unix_time <= self.last
    }

    // Whether it is known to have begun by that second.
    #[inline(always)]
    pub(in crate::zone) fn has_begun(&self, unix_time: i64) -> bool
        ensures { IsTrue result ↔ (self.now.after <ℤ unix_time) }
    {
        self.after < unix_time
    }
}
