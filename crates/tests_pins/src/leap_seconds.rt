//! The 27 leap seconds of UTC from 1972 to 2016: leap times count them, Unix times don't.

ghost use Rattle.std.specs.Prelude.{◌≡◌, [], ◌∷◌, map, pos, neg_ℤ, ◌*ℤ◌, ℤ};
ghost use Rattle.{
  tests_pins.specs.LeapSeconds.{back_and_forth, utc_leaps, days_after, entry},
  tz_info.specs.Leaps.{AreLeapSeconds, IsLeapTime, IsLeapTimeRefused, IsNear, IsUnixTime, thresholds},
};

/// They may be a zone's, and each ends with a month: at midnight of UTC.
#[tactic(auto, using(crate::proofs::LeapSeconds::utc_valid), unfolding(crate::proofs::Computed::calendar))]
pub fn table()
    ensures valid { AreLeapSeconds utc_leaps }
    ensures midnights { thresholds (pos 0) utc_leaps
        ≡ map (λ day. day *ℤ pos 86_400) days_after }
{}

/// Entries come 28 days apart, less a second, or more; the first from 1970 on, and each one second
/// more or less than the one before.
pub fn limits()
    ensures close { AreLeapSeconds (entry (pos 78_796_800) 1 ∷ entry (pos 81_215_999) 2 ∷ []) }
    ensures too_close { ¬ (AreLeapSeconds
        (entry (pos 78_796_800) 1 ∷ entry (pos 81_215_998) 2 ∷ [])) }
    ensures two_at_once { ¬ (AreLeapSeconds (entry (pos 78_796_800) 2 ∷ [])) }
    ensures two_more { ¬ (AreLeapSeconds
        (entry (pos 78_796_800) 1 ∷ entry (pos 94_694_401) 3 ∷ [])) }
    ensures none_more { ¬ (AreLeapSeconds
        (entry (pos 78_796_800) 1 ∷ entry (pos 94_694_401) 1 ∷ [])) }
    ensures taken_away { AreLeapSeconds (record {
      unix_leap_time = pos 78_796_800;
      correction = neg_ℤ (pos 1);
    } ∷ []) }
    ensures before_1970 { ¬ (AreLeapSeconds (record {
      unix_leap_time = neg_ℤ (pos 1);
      correction = pos 1;
    } ∷ [])) }
{}

/// 1972-06-30 23:59:60 is the leap time 78796800. From 1972-07-01 00:00:00 on leap times are one
/// ahead; from 2017-01-01 00:00:00 on they are 27 ahead.
pub fn leap_times()
    ensures before_first { IsLeapTime utc_leaps (pos 78_796_799) (pos 78_796_799) }
    ensures first { IsLeapTime utc_leaps (pos 78_796_800) (pos 78_796_801) }
    ensures before_second { IsLeapTime utc_leaps (pos 94_694_399) (pos 94_694_400) }
    ensures second { IsLeapTime utc_leaps (pos 94_694_400) (pos 94_694_402) }
    ensures before_last { IsLeapTime utc_leaps (pos 1_483_228_799) (pos 1_483_228_825) }
    ensures last { IsLeapTime utc_leaps (pos 1_483_228_800) (pos 1_483_228_827) }
{}

/// With the corrections 1, 2 and 1 the second before the last of 64 bits has no leap time, since the
/// second correction leads out of 64 bits. The second before that has one.
pub fn leap_times_of_64_bits()
    ensures leaves { (x : ℤ) → ¬ (IsLeapTime back_and_forth (pos 9_223_372_036_854_775_806) x) }
    ensures refused { IsLeapTimeRefused back_and_forth (pos 9_223_372_036_854_775_806) }
    ensures fits { IsLeapTime back_and_forth (pos 9_223_372_036_854_775_805)
        (pos 9_223_372_036_854_775_806) }
{}

/// Seconds to 10^13 before 1970 and after it are near enough to have leap times.
#[tactic(auto, using(crate::proofs::Words::ints))]
pub fn near()
    ensures least { IsNear (neg_ℤ (pos 10_000_000_000_000)) }
    ensures before { ¬ (IsNear (neg_ℤ (pos 10_000_000_000_001))) }
    ensures greatest { IsNear (pos 10_000_000_000_000) }
    ensures after { ¬ (IsNear (pos 10_000_000_000_001)) }
{}

/// A leap second has the Unix time of the second that follows it.
pub fn unix_times()
    ensures before_first { IsUnixTime utc_leaps (pos 78_796_799) (pos 78_796_799) }
    ensures first { IsUnixTime utc_leaps (pos 78_796_800) (pos 78_796_800) }
    ensures after_first { IsUnixTime utc_leaps (pos 78_796_801) (pos 78_796_800) }
    ensures before_last { IsUnixTime utc_leaps (pos 1_483_228_825) (pos 1_483_228_799) }
    ensures last { IsUnixTime utc_leaps (pos 1_483_228_826) (pos 1_483_228_800) }
    ensures after_last { IsUnixTime utc_leaps (pos 1_483_228_827) (pos 1_483_228_800) }
{}
