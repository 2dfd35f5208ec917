//! Rules in words.

ghost use Rattle.std.specs.Prelude.{◌≡◌, ◌&&◌, false, int_le, int_lt, option_map, pos, true, unsigned_abs, MatchOption, Some};
ghost use Rattle.{
  naive_base.specs.{NaiveTime.{printed_time}, Text.{time_text}},
  zonedump_lib.specs.RuleWords.{day_words, moment_words, month_words, rule_words, turn_words, turns_words, week_words},
  zonedump_lib.specs.RuleWords.{weekday_words},
};

use crate::words::TypeWords;
use naive_base::NaiveTime;
use std::fmt;
use std::fmt::Write;
use tz_info::{AlternateTime, DayForm, TransitionRule};

#[tactic(auto, unfolding(crate::specs::RuleWords::week_words))]
fn week(week: u8) -> &'static str
    ensures { result.now ≡ week_words week }
{
    match week {
        1 => "first",
        2 => "second",
        3 => "third",
        4 => "fourth",
        _ => "last",
    }
}

#[tactic(auto, unfolding(crate::specs::RuleWords::weekday_words))]
fn weekday(weekday: u8) -> &'static str
    ensures { result.now ≡ weekday_words weekday }
{
    match weekday {
        0 => "Sunday",
        1 => "Monday",
        2 => "Tuesday",
        3 => "Wednesday",
        4 => "Thursday",
        5 => "Friday",
        _ => "Saturday",
    }
}

#[tactic(auto, unfolding(crate::specs::RuleWords::month_words))]
fn month(month: u8) -> &'static str
    ensures { result.now ≡ month_words month }
{
    match month {
        1 => "January",
        2 => "February",
        3 => "March",
        4 => "April",
        5 => "May",
        6 => "June",
        7 => "July",
        8 => "August",
        9 => "September",
        10 => "October",
        11 => "November",
        _ => "December",
    }
}

// A day of every year.
#[derive(Clone, Copy)]
struct DayWords(DayForm);

impl fmt::Display for DayWords {
    ghost output = { λ words. Some (day_words words.0) };

    fn fmt<W: fmt::Write>(&self, f: &mut fmt::Formatter<W>) -> fmt::Result {
        match self.0 {
            DayForm::Julian1(n) => write!(f, "date {n} of 365"),
            DayForm::Julian0(n) => write!(f, "{n} days after 1 January"),
            DayForm::MonthWeekday(m, w, d) => {
                write!(f, "the {} {} of {}", week(w), weekday(d), month(m))
            }
        }
    }
}

// A time of a rule's day.
#[derive(Clone, Copy)]
struct MomentWords(i32);

impl fmt::Display for MomentWords {
    ghost output = { λ words. Some (moment_words words.0) };

    #[tactic(auto, unfolding(crate::specs::RuleWords::moment_words))]
    fn fmt<W: fmt::Write>(&self, f: &mut fmt::Formatter<W>) -> fmt::Result {
        match time_of(self.0) {
            Some(time) => write!(f, "{time}"),
            None => write!(f, "{} s after midnight", self.0),
        }
    }
}

// The time of the day at that second, if the day has it.
fn time_of(second: i32) -> Option<NaiveTime>
    ensures { MatchOption result ((int_le (pos 0) second && int_lt second (pos 86_400)) ≡ false)
        (λ time. ((int_le (pos 0) second && int_lt second (pos 86_400)) ≡ true)
        × (printed_time time ≡ time_text (unsigned_abs second) 0)) }
{
    if second < 0 {
        return None;
    }
    NaiveTime::from_num_seconds_from_midnight_opt(second as u32, 0)
}

// A day of every year, and its time.
#[derive(Clone, Copy)]
struct TurnWords(DayForm, i32);

impl fmt::Display for TurnWords {
    ghost output = { λ words. Some (turn_words (record { day = words.0; time = words.1 })) };

    fn fmt<W: fmt::Write>(&self, f: &mut fmt::Formatter<W>) -> fmt::Result {
        write!(f, "{} at {}", DayWords(self.0), MomentWords(self.1))
    }
}

// Two types in turns each year.
#[derive(Clone, Copy)]
struct TurnsWords<'a>(&'a AlternateTime);

impl fmt::Display for TurnsWords<'_> {
    ghost output = { λ words. Some (turns_words words.0.now) };

    fn fmt<W: fmt::Write>(&self, f: &mut fmt::Formatter<W>) -> fmt::Result {
        let std = TypeWords(self.0.std());
        let dst = TypeWords(self.0.dst());
        let start = TurnWords(self.0.dst_start().form(), self.0.dst_start_time());
        let end = TurnWords(self.0.dst_end().form(), self.0.dst_end_time());
        write!(f, "{std}, and {dst} from {start} to {end}")
    }
}

// What follows the last transition.
#[derive(Clone, Copy)]
pub(crate) struct RuleWords<'a>(pub(crate) Option<&'a TransitionRule>);

impl fmt::Display for RuleWords<'_> {
    ghost output = { λ words. Some (rule_words (option_map (λ r. r.now) words.0)) };

    fn fmt<W: fmt::Write>(&self, f: &mut fmt::Formatter<W>) -> fmt::Result {
        match self.0 {
            None => write!(f, "none"),
            Some(TransitionRule::Fixed(t)) => write!(f, "{} always", TypeWords(t)),
            Some(TransitionRule::Alternate(a)) => write!(f, "{}", TurnsWords(a)),
        }
    }
}
