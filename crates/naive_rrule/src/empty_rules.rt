//! Rules whose parts for hours, minutes and seconds leave them no time.
ghost use Rattle.std.specs.Prelude.{◌≡◌, ◌↔◌, ◌<◌, ◌≤◌, ◌*◌, ◌%◌, IsTrue, ℕ, ℤ};
ghost use Rattle.{
  gregorian.specs.Year.{floor_mod},
  naive_rrule.specs.{RecurrenceRules.{HasSecond}, Steps.OccasionSteps.{IsTimeOn, HasPeriodOfDay, IsPartOfHours}},
};

use crate::Frequency;
use crate::occasions::Occasions;
use naive_plans::days::second_of;

impl<'a> Occasions<'a> {
    // Whether hours, minutes, seconds and periods leave it no time on any date.
    pub(crate) fn has_no_time(&self) -> bool
        ensures { IsTrue result → (day : ℤ) (second : ℕ) → second < 86_400
            → IsTimeOn self.now.rule self.now.start day second → ⊥ }
    {
        if self.has_no_second() {
            return true;
        }
        match self.rule.frequency {
            Frequency::Hourly => self.has_no_period(3600),
            Frequency::Minutely => self.has_no_period(60),
            Frequency::Secondly => self.has_no_period(1),
            _ => false,
        }
    }

    // Whether it has no second of a minute: `BYSECOND` may list only the second 60.
    #[tactic(auto, using(crate::proofs::PeriodsOfDay::no_second))]
    fn has_no_second(&self) -> bool
        ensures { IsTrue result → (second : ℕ)
            → HasSecond self.now.rule (floor_mod self.now.start 86_400) second → ⊥ }
    {
        for second in 0..60 {
            if self.has_second(second) {
                return false;
            }
        }
        true
    }

    // Whether the rule has no time in a period that counts, if its periods are `length` seconds long. On
    // each day the periods that count have the same remainder modulo a number that divides both the
    // periods of a day and the interval.
    fn has_no_period(&self, length: u32) -> bool
        requires { IsPartOfHours self.now.rule length }
        ensures { IsTrue result → (day : ℤ) (second : ℕ) → second < 86_400
            → IsTimeOn self.now.rule self.now.start day second → ⊥ }
    {
        let periods = 86_400 / length;
        let step = common_step(periods, self.rule.interval);
        let first = second_of(self.start) / length % step;
        for period in 0..periods {
            if period % step == first && self.has_period_of_day(period * length, length) {
                return false;
            }
        }
        true
    }

    // Whether the parts for hours, minutes and seconds let a period through that begins at a second of
    // the day.
    fn has_period_of_day(&self, second: u32, length: u32) -> bool
        requires { IsPartOfHours self.now.rule length }
        ensures { IsTrue result ↔ HasPeriodOfDay self.now.rule (floor_mod self.now.start 86_400) length second }
    {
        if !self.has_hour(second) {
            return false;
        }
        if length <= 60 && !self.has_minute(second) {
            return false;
        }
        length > 1 || self.has_second(second)
    }
}

// The greatest number that divides two numbers.
fn common_step(number: u32, other: u32) -> u32
    requires { (1 ≤ number) × (1 ≤ other) }
    ensures { (1 ≤ result) × (number % result ≡ 0) × (other % result ≡ 0) }
{
    let mut step = number.min(other);
    'steps: while number % step != 0 || other % step != 0 {
        step -= 1;
    }
    step
}
