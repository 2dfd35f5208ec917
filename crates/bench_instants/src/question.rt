//! The questions.

/// What is asked about instants, and about dates.
#[derive(Clone, Copy, PartialEq, Eq)]
pub enum Question {
    /// The date and the time of day that are shown at a Unix time.
    FieldsAt,
    /// Those of an instant.
    Fields,
    /// The instant at which a date and a time of day are shown.
    FromFields,
    /// The instant a month later by the calendar.
    MonthLater,
    /// The instant a day later by the calendar.
    DayLater,
    /// The instant at nine on that day.
    AtNine,
    /// The instant, cut to five minutes.
    FiveMinutes,
    /// The instant, cut to a day.
    WholeDay,
    /// The seconds between two instants.
    Difference,
    /// Which of two instants is the earlier one.
    Order,
    /// The text of an instant.
    Print,
    /// What the clocks of another zone show.
    Elsewhere,
    /// The one instant that is selected for a local time.
    Resolve,
    /// That for a local time in a gap.
    InGap,
    /// The instants of four weeks, at half past two on each day.
    Daily,
    /// The year, the month and the day of a date.
    DateFields,
    /// The day of the week.
    DateWeekday,
    /// The day of the year.
    DateOrdinal,
    /// The ISO week.
    DateIsoWeek,
    /// The date a month later.
    DateMonthLater,
    /// The date with June for its month.
    DateInJune,
    /// The date of a year, a month and a day.
    DateOfMonth,
    /// The date of a year and its day.
    DateOfYear,
    /// The date of an ISO week and its day.
    DateOfWeek,
    /// The date and the time of day of a local date-time.
    LocalFields,
    /// The local date-time a month later.
    LocalMonthLater,
}

impl Question {
    pub const ALL: [Question; 26] = [
        Question::FieldsAt,
        Question::Fields,
        Question::FromFields,
        Question::MonthLater,
        Question::DayLater,
        Question::AtNine,
        Question::FiveMinutes,
        Question::WholeDay,
        Question::Difference,
        Question::Order,
        Question::Print,
        Question::Elsewhere,
        Question::Resolve,
        Question::InGap,
        Question::Daily,
        Question::DateFields,
        Question::DateWeekday,
        Question::DateOrdinal,
        Question::DateIsoWeek,
        Question::DateMonthLater,
        Question::DateInJune,
        Question::DateOfMonth,
        Question::DateOfYear,
        Question::DateOfWeek,
        Question::LocalFields,
        Question::LocalMonthLater,
    ];

    /// Its name in what is printed.
    pub fn name(self) -> &'static str {
        match self {
            Question::FieldsAt => "fields_at",
            Question::Fields => "fields",
            Question::FromFields => "from_fields",
            Question::MonthLater => "month_later",
            Question::DayLater => "day_later",
            Question::AtNine => "at_nine",
            Question::FiveMinutes => "five_minutes",
            Question::WholeDay => "whole_day",
            Question::Difference => "difference",
            Question::Order => "order",
            Question::Print => "print",
            Question::Elsewhere => "elsewhere",
            Question::Resolve => "resolve",
            Question::InGap => "in_gap",
            Question::Daily => "daily",
            Question::DateFields => "date_fields",
            Question::DateWeekday => "date_weekday",
            Question::DateOrdinal => "date_ordinal",
            Question::DateIsoWeek => "date_iso_week",
            Question::DateMonthLater => "date_month_later",
            Question::DateInJune => "date_in_june",
            Question::DateOfMonth => "date_of_month",
            Question::DateOfYear => "date_of_year",
            Question::DateOfWeek => "date_of_week",
            Question::LocalFields => "local_fields",
            Question::LocalMonthLater => "local_month_later",
        }
    }
}
