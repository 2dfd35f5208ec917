//! Days, and the times of day after them.

ghost use Rattle.std.specs.Prelude.{◌≡◌, ◌++◌, ◌∷◌, string_bytes, OnOk};
ghost use Rattle.{
  tz_info.specs.TzGrammar.{comma},
  tz_write.specs.Steps.TextPieces.{spelled_date, time_after},
};

use crate::pieces::clock::{push_byte, push_number};
use crate::pieces::offset::push_time;
use std::alloc::AllocError;
use tz_info::{DayForm, RuleDay};

// A date.
fn push_date(text: &mut String, day: RuleDay) -> Result<(), AllocError>
    ensures { OnOk result (string_bytes text.new ≡ string_bytes text.old ++ spelled_date day) }
{
    match day.form() {
        DayForm::Julian1(n) => push_julian(text, n),
        DayForm::Julian0(n) => push_number(text, n as u32),
        DayForm::MonthWeekday(month, week, weekday) => {
            push_month_weekday(text, month, week, weekday)
        }
    }
}

fn push_julian(text: &mut String, n: u16) -> Result<(), AllocError>
    ensures { OnOk result
        (string_bytes text.new ≡ string_bytes text.old ++ spelled_date (DayForm.Julian1 n)) }
{
    push_byte(text, b'J')?;
    push_number(text, n as u32)
}

fn push_month_weekday(text: &mut String, month: u8, week: u8, weekday: u8) -> Result<(), AllocError>
    ensures { OnOk result
        (string_bytes text.new
        ≡ string_bytes text.old ++ spelled_date (DayForm.MonthWeekday month week weekday)) }
{
    push_byte(text, b'M')?;
    push_number(text, month as u32)?;
    push_byte(text, b'.')?;
    push_number(text, week as u32)?;
    push_byte(text, b'.')?;
    push_number(text, weekday as u32)
}

// The time after a date, unless it is 2 o'clock.
fn push_time_after(text: &mut String, time: i32) -> Result<(), AllocError>
    ensures { OnOk result (string_bytes text.new ≡ string_bytes text.old ++ time_after time) }
{
    if time == 7_200 {
        return Ok(());
    }
    push_byte(text, b'/')?;
    push_time(text, time)
}

// A comma, a day and its time.
pub(crate) fn push_day(text: &mut String, day: RuleDay, time: i32) -> Result<(), AllocError>
    ensures { OnOk result
        (string_bytes text.new
        ≡ string_bytes text.old ++ (comma ∷ spelled_date day ++ time_after time)) }
{
    push_byte(text, b',')?;
    push_date(text, day)?;
    push_time_after(text, time)
}
