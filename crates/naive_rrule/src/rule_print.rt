//! How rules print: as RFC 5545 writes them.
ghost use Rattle.std.specs.Prelude.{Some};
ghost use Rattle.naive_rrule.specs.RulePrints as prints;

use crate::NthWeekday;
use crate::rule_text::{CalendarDay, ClockTime, PartName, Parts, RuleEnd, RuleText, Word};
use naive_base::Weekday;
use offset_core::ShortText;
use std::fmt;

/// As in `BYDAY`: `-1FR`, or `FR` for each Friday.
impl fmt::Display for NthWeekday {
    ghost output = { λ e. Some (prints.entry_text e) };

    fn fmt<W: fmt::Write>(&self, f: &mut fmt::Formatter<W>) -> fmt::Result {
        if self.nth == 0 {
            write!(f, "{}", self.weekday.word())
        } else {
            write!(f, "{}{}", self.nth, self.weekday.word())
        }
    }
}

impl fmt::Display for CalendarDay {
    ghost output = { λ d. Some (prints.day_text d) };

    fn fmt<W: fmt::Write>(&self, f: &mut fmt::Formatter<W>) -> fmt::Result {
        let mut text = ShortText::new();
        text.push_four_digits(self.year % 10_000);
        text.push_two_digits(self.month % 100);
        text.push_two_digits(self.day % 100);
        write!(f, "{}", text.as_str())
    }
}

impl fmt::Display for ClockTime {
    ghost output = { λ t. Some (prints.time_text t) };

    fn fmt<W: fmt::Write>(&self, f: &mut fmt::Formatter<W>) -> fmt::Result {
        let mut text = ShortText::new();
        text.push_two_digits(self.hour % 100);
        text.push_two_digits(self.minute % 100);
        text.push_two_digits(self.second % 100);
        write!(f, "{}", text.as_str())
    }
}

impl fmt::Display for RuleEnd {
    ghost output = { λ e. Some (prints.end_text e) };

    fn fmt<W: fmt::Write>(&self, f: &mut fmt::Formatter<W>) -> fmt::Result {
        match self {
            RuleEnd::Never => Ok(()),
            RuleEnd::Count(count) => write!(f, ";COUNT={count}"),
            RuleEnd::Date(day) => write!(f, ";UNTIL={day}"),
            RuleEnd::Local(day, time) => write!(f, ";UNTIL={day}T{time}"),
            RuleEnd::Utc(day, time) => write!(f, ";UNTIL={day}T{time}Z"),
        }
    }
}

#[derive(Clone, Copy)]
struct Interval(Option<u32>);

impl fmt::Display for Interval {
    ghost output = { λ i. Some (prints.interval_text i.0) };

    fn fmt<W: fmt::Write>(&self, f: &mut fmt::Formatter<W>) -> fmt::Result {
        match self.0 {
            None => Ok(()),
            Some(interval) => write!(f, ";INTERVAL={interval}"),
        }
    }
}

#[derive(Clone, Copy)]
struct WeekStart(Option<Weekday>);

impl fmt::Display for WeekStart {
    ghost output = { λ w. Some (prints.week_start_text w.0) };

    fn fmt<W: fmt::Write>(&self, f: &mut fmt::Formatter<W>) -> fmt::Result {
        match self.0 {
            None => Ok(()),
            Some(weekday) => write!(f, ";WKST={}", weekday.word()),
        }
    }
}

#[derive(Clone, Copy)]
struct Numbers<'a>(PartName, &'a [u32]);

impl<'a> fmt::Display for Numbers<'a> {
    ghost output = { λ n. Some (prints.numbers_text n.0 n.1.now) };

    fn fmt<W: fmt::Write>(&self, f: &mut fmt::Formatter<W>) -> fmt::Result {
        let Some((first, others)) = self.1.split_first() else {
            return Ok(());
        };
        write!(f, ";{}={first}", self.0.word())?;
        for other in others {
            write!(f, ",{other}")?;
        }
        Ok(())
    }
}

#[derive(Clone, Copy)]
struct Places<'a>(PartName, &'a [i32]);

impl<'a> fmt::Display for Places<'a> {
    ghost output = { λ n. Some (prints.places_text n.0 n.1.now) };

    fn fmt<W: fmt::Write>(&self, f: &mut fmt::Formatter<W>) -> fmt::Result {
        let Some((first, others)) = self.1.split_first() else {
            return Ok(());
        };
        write!(f, ";{}={first}", self.0.word())?;
        for other in others {
            write!(f, ",{other}")?;
        }
        Ok(())
    }
}

#[derive(Clone, Copy)]
struct Weekdays<'a>(&'a [NthWeekday]);

impl<'a> fmt::Display for Weekdays<'a> {
    ghost output = { λ n. Some (prints.weekdays_text n.0.now) };

    fn fmt<W: fmt::Write>(&self, f: &mut fmt::Formatter<W>) -> fmt::Result {
        let Some((first, others)) = self.0.split_first() else {
            return Ok(());
        };
        write!(f, ";BYDAY={first}")?;
        for other in others {
            write!(f, ",{other}")?;
        }
        Ok(())
    }
}

#[derive(Clone, Copy)]
struct Dates<'a>(&'a Parts);

impl<'a> fmt::Display for Dates<'a> {
    ghost output = { λ p. Some (prints.dates_text p.0.now) };

    fn fmt<W: fmt::Write>(&self, f: &mut fmt::Formatter<W>) -> fmt::Result {
        let parts = self.0;
        write!(f, "{}", Numbers(PartName::ByMonth, &parts.by_month))?;
        write!(f, "{}", Places(PartName::ByWeekNo, &parts.by_week_number))?;
        write!(f, "{}", Places(PartName::ByYearDay, &parts.by_year_day))?;
        write!(f, "{}", Places(PartName::ByMonthDay, &parts.by_month_day))?;
        write!(f, "{}", Weekdays(&parts.by_weekday))
    }
}

#[derive(Clone, Copy)]
struct Times<'a>(&'a Parts);

impl<'a> fmt::Display for Times<'a> {
    ghost output = { λ p. Some (prints.times_text p.0.now) };

    fn fmt<W: fmt::Write>(&self, f: &mut fmt::Formatter<W>) -> fmt::Result {
        let parts = self.0;
        write!(f, "{}", Numbers(PartName::ByHour, &parts.by_hour))?;
        write!(f, "{}", Numbers(PartName::ByMinute, &parts.by_minute))?;
        write!(f, "{}", Numbers(PartName::BySecond, &parts.by_second))?;
        write!(f, "{}", Places(PartName::BySetPos, &parts.by_set_position))?;
        write!(f, "{}", parts.end)
    }
}

/// As RFC 5545 writes it, in capital letters. The parts that it has come in one order.
impl fmt::Display for RuleText {
    ghost output = { λ r. Some (prints.rule_text r) };

    fn fmt<W: fmt::Write>(&self, f: &mut fmt::Formatter<W>) -> fmt::Result {
        write!(f, "FREQ={}", self.frequency.word())?;
        write!(f, "{}", Interval(self.parts.interval))?;
        write!(f, "{}", WeekStart(self.parts.week_start))?;
        write!(f, "{}", Dates(&self.parts))?;
        write!(f, "{}", Times(&self.parts))
    }
}
