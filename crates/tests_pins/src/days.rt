//! Days of three zones, around a midnight near which their clocks were set: as `zdump -v` of the tz
//! database has them. Each zone is taken as if clocks had been set that once.
#![tactic(auto, using(crate::proofs::SetDays::set_days))]

ghost use Rattle.std.specs.Prelude.{◌≡◌, ℤ, pos, neg_ℤ};
ghost use Rattle.{
  naive_base.specs.Stamp.{of_secs},
  tests_pins.specs.Days.{AreSetAt},
  zoned_time.specs.Days.{AreEndsOfDay, IsNeverOnDay, IsFirstInstantFrom, IsInDay, midnight},
  zoned_time.specs.DayEnds.{HasNoEnd, IsEndOfDay, IsFirstOfWeek, IsLengthOfDay, first_day_of_year, first_of_month},
};

/// In Apia clocks went from 10 hours behind UTC to 14 ahead at 2011-12-30 10:00:00 UTC. The date
/// 2011-12-30, day 15338, was never shown; it and the next one start at that second, so it has no length
/// and no last instant.
pub fn apia()
    ensures never { (off : ℤ → ℤ)
        → AreSetAt off (pos 1_325_239_200) (neg_ℤ (pos 36_000)) (pos 50_400)
        → IsNeverOnDay off (pos 15_338) }
    ensures empty { (off : ℤ → ℤ)
        → AreSetAt off (pos 1_325_239_200) (neg_ℤ (pos 36_000)) (pos 50_400)
        → IsFirstInstantFrom off (midnight (pos 15_338)) (of_secs (pos 1_325_239_200) 0) }
    ensures next { (off : ℤ → ℤ)
        → AreSetAt off (pos 1_325_239_200) (neg_ℤ (pos 36_000)) (pos 50_400)
        → IsFirstInstantFrom off (midnight (pos 15_339)) (of_secs (pos 1_325_239_200) 0) }
    ensures length { (off : ℤ → ℤ)
        → AreSetAt off (pos 1_325_239_200) (neg_ℤ (pos 36_000)) (pos 50_400)
        → IsLengthOfDay off (pos 15_338) (pos 0) }
    ensures no_end { (off : ℤ → ℤ)
        → AreSetAt off (pos 1_325_239_200) (neg_ℤ (pos 36_000)) (pos 50_400)
        → HasNoEnd off (pos 15_338) }
{}

/// In Toronto clocks went from 5 hours behind UTC to 4 at 1919-03-31 04:30:00 UTC, when they showed
/// 23:30 on 1919-03-30. The next day, -18539, starts then, at 00:30, and has 84,600 seconds.
pub fn toronto()
    ensures starts { (off : ℤ → ℤ)
        → AreSetAt off (neg_ℤ (pos 1_601_753_400)) (neg_ℤ (pos 18_000)) (neg_ℤ (pos 14_400))
        → IsFirstInstantFrom off (midnight (neg_ℤ (pos 18_539)))
        (of_secs (neg_ℤ (pos 1_601_753_400)) 0) }
    ensures ends { (off : ℤ → ℤ)
        → AreSetAt off (neg_ℤ (pos 1_601_753_400)) (neg_ℤ (pos 18_000)) (neg_ℤ (pos 14_400))
        → AreEndsOfDay off (neg_ℤ (pos 18_539))
        (neg_ℤ (pos 1_601_753_400)) (neg_ℤ (pos 1_601_668_801)) }
{}

/// In St. John's clocks went from 2 hours 30 minutes behind UTC to 3 hours 30 minutes at 2005-10-30
/// 02:31:00 UTC, when they showed 00:01. Day 13086, that date, had started a minute before; the
/// instant 02:41:00 UTC, when they showed 23:11 of the date before again, lies in it. From start to start
/// the date before has 24 hours, and this one 25.
pub fn st_johns()
    ensures starts { (off : ℤ → ℤ)
        → AreSetAt off (pos 1_130_639_460) (neg_ℤ (pos 9_000)) (neg_ℤ (pos 12_600))
        → IsFirstInstantFrom off (midnight (pos 13_086)) (of_secs (pos 1_130_639_400) 0) }
    ensures shown_again { (off : ℤ → ℤ)
        → AreSetAt off (pos 1_130_639_460) (neg_ℤ (pos 9_000)) (neg_ℤ (pos 12_600))
        → IsInDay off (pos 13_086) (of_secs (pos 1_130_640_060) 0) }
    ensures overlap { (off : ℤ → ℤ)
        → AreSetAt off (pos 1_130_639_460) (neg_ℤ (pos 9_000)) (neg_ℤ (pos 12_600))
        → AreEndsOfDay off (pos 13_085) (pos 1_130_553_000) (pos 1_130_642_999) }
    ensures second_less { (off : ℤ → ℤ)
        → AreSetAt off (pos 1_130_639_460) (neg_ℤ (pos 9_000)) (neg_ℤ (pos 12_600))
        → ¬ (AreEndsOfDay off (pos 13_085) (pos 1_130_553_000) (pos 1_130_642_998)) }
    ensures length { (off : ℤ → ℤ)
        → AreSetAt off (pos 1_130_639_460) (neg_ℤ (pos 9_000)) (neg_ℤ (pos 12_600))
        → IsLengthOfDay off (pos 13_085) (pos 86_400_000_000_000) }
    ensures next_length { (off : ℤ → ℤ)
        → AreSetAt off (pos 1_130_639_460) (neg_ℤ (pos 9_000)) (neg_ℤ (pos 12_600))
        → IsLengthOfDay off (pos 13_086) (pos 90_000_000_000_000) }
    ensures end { (off : ℤ → ℤ)
        → AreSetAt off (pos 1_130_639_460) (neg_ℤ (pos 9_000)) (neg_ℤ (pos 12_600))
        → IsEndOfDay off (pos 13_085) (record { s = pos 1_130_639_399; f = 999_999_999 }) }
{}

/// In Juneau clocks went from 15:02:19 ahead of UTC to 8:57:41 behind UTC at 1867-10-19 00:31:13 UTC, when
/// they showed 15:33:32 on 1867-10-19. They had shown the date before, day -37330, for 24 hours, and
/// showed it again: from its first second to its last it is 48 hours. By their starts that day has 24
/// hours, and the next one 48.
pub fn juneau_1867()
    ensures ends { (off : ℤ → ℤ)
        → AreSetAt off (neg_ℤ (pos 3_225_223_727)) (pos 54_139) (neg_ℤ (pos 32_261))
        → AreEndsOfDay off (neg_ℤ (pos 37_330))
        (neg_ℤ (pos 3_225_366_139)) (neg_ℤ (pos 3_225_193_340)) }
    ensures length { (off : ℤ → ℤ)
        → AreSetAt off (neg_ℤ (pos 3_225_223_727)) (pos 54_139) (neg_ℤ (pos 32_261))
        → IsLengthOfDay off (neg_ℤ (pos 37_330)) (pos 86_400_000_000_000) }
    ensures next_length { (off : ℤ → ℤ)
        → AreSetAt off (neg_ℤ (pos 3_225_223_727)) (pos 54_139) (neg_ℤ (pos 32_261))
        → IsLengthOfDay off (neg_ℤ (pos 37_329)) (pos 172_800_000_000_000) }
{}

/// 2021-03-17, day 18703, is a Wednesday: its week begins on 2021-03-15 if weeks begin on Monday, and
/// on 2021-03-14 if they begin on Sunday; its month begins on 2021-03-01, its year on 2021-01-01.
pub fn first_days()
    ensures monday { IsFirstOfWeek 1 (pos 18_703) (pos 18_701) }
    ensures sunday { IsFirstOfWeek 0 (pos 18_703) (pos 18_700) }
    ensures itself { IsFirstOfWeek 1 (pos 18_701) (pos 18_701) }
    ensures week_before { ¬ (IsFirstOfWeek 1 (pos 18_701) (pos 18_694)) }
    ensures month { first_of_month (pos 18_703) ≡ pos 18_687 }
    ensures year { first_day_of_year (pos 18_703) ≡ pos 18_628 }
{}
