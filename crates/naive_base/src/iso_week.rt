//! Weeks of ISO 8601.
ghost use Rattle.std.specs.Prelude.{◌≡◌, ◌+◌, ◌≤◌, pos, neg_ℤ, ◌≤ℤ◌};
ghost use Rattle.{
  gregorian.specs.DateOf.{year_of},
  naive_base.specs.Range.{IsWideDay, IsWideYear},
};

/// A week by the rule of ISO 8601: it runs from Monday to Sunday, and belongs to the year that its
/// Thursday lies in, whose weeks are counted from 1.
///
/// Weeks compare and hash by their years, then by their numbers. `{:?}` prints a week as `2020-W53`.
///
/// ```
/// let week = NaiveDate::from_ymd_opt(2021, 1, 3)?.iso_week(); // 2020-W53
/// let numbers = (week.year(), week.week(), week.week0()); // (2020, 53, 52)
/// ```
#[derive(Clone, Copy, PartialEq, Eq, PartialOrd, Ord, Hash)]
pub struct IsoWeek {
    year: i32,
    week: u32,
    pub ghost in_year: { IsWideYear year × (1 ≤ week) × (week ≤ 53) },
}

impl IsoWeek {
    ghost use Rattle.naive_base.specs.IsoWeek.{IsWeekOf, iso_year, iso_number};

    // The week that a day lies in.
    pub(crate) fn of_day(day: i64) -> IsoWeek
        requires { IsWideDay day }
        ensures { IsWeekOf day result }
    {
        let thursday = gregorian::thursday_of_week(day);
        IsoWeek {
            year: year_of_thursday(thursday),
            week: gregorian::day_of_year(thursday) / 7 + 1,
        }
    }

    /// Returns the year that the week's Thursday lies in.
    pub fn year(&self) -> i32
        ensures value { result ≡ iso_year self.now }
        ensures bound { IsWideYear result }
    {
        self.year
    }

    /// Returns the week's number in that year, from 1 to 53.
    pub fn week(&self) -> u32
        ensures value { result ≡ iso_number self.now }
        ensures bound { (1 ≤ result) × (result ≤ 53) }
    {
        self.week
    }

    /// Returns the week's number in that year, from 0 to 52.
    pub fn week0(&self) -> u32
        ensures value { result + 1 ≡ iso_number self.now }
        ensures bound { result ≤ 52 }
    {
        self.week - 1
    }
}

// The year of a Thursday at most three days from a day of the range or a buffer day.
fn year_of_thursday(thursday: i64) -> i32
    requires first { neg_ℤ (pos 96_465_296) ≤ℤ thursday }
    requires last { thursday ≤ℤ pos 95_026_240 }
    ensures value { result ≡ year_of thursday }
    ensures bound { IsWideYear result }
{
    gregorian::year_of(thursday)
}
