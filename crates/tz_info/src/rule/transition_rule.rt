//! The rule of a TZ string.

ghost use Rattle.std.specs.Prelude.{◌≡◌, MatchResult};

use crate::rule::alternate::AlternateTime;
use tz_base::{Error, Expected, LocalTimeType};

/// What a TZ string says: one type forever, or two that take turns each year.
#[derive(Clone, Copy, Debug, PartialEq, Eq)]
pub enum TransitionRule {
    /// One type at every instant.
    Fixed(LocalTimeType),
    /// Standard time and daylight saving time in turns.
    Alternate(AlternateTime),
}

impl TransitionRule {
    ghost use Rattle.tz_info.specs.RuleTypes.{RuleAt, IsRuleRefused};

    /// The type in force at the second of Unix time.
    ///
    /// If the start of daylight saving time comes before its end in the second's UTC year,
    /// daylight saving time lasts from each year's start to its end; if the end comes first, as
    /// south of the equator, standard time lasts from each year's end to its start. Each moment
    /// belongs to what it begins: the rule of `EST5EDT,M3.2.0,M11.1.0` gives `EST` at 1615705199,
    /// the second before 2021-03-14 02:00:00 in New York, and `EDT` at 1615705200.
    ///
    /// # Errors
    ///
    /// [`Error::OutOfRange`] if and only if the rule has two types and the second's UTC year is
    /// below `i32::MIN + 2` or above `i32::MAX - 2`. A rule of one type always answers.
    #[inline(always)]
    pub fn find_local_time_type(&self, unix_time: i64) -> Result<&LocalTimeType, Error>
        ensures { MatchResult result (λ t. RuleAt self.now unix_time t.now)
            (λ e. (e ≡ Error.OutOfRange Expected.YearThatRuleAnswersIn)
            × IsRuleRefused self.now unix_time) }
    {
        match self {
            TransitionRule::Fixed(local) => Ok(local),
            TransitionRule::Alternate(alternate) => alternate.find_local_time_type(unix_time),
        }
    }
}

impl From<LocalTimeType> for TransitionRule {
    ghost use Rattle.tz_info.specs.declared.rule.transition_rule.TransitionRule.TheVariants.{Fixed};

    ghost from_gives = { λ t rule. rule ≡ Fixed t };

    fn from(inner: LocalTimeType) -> TransitionRule {
        TransitionRule::Fixed(inner)
    }
}

impl From<AlternateTime> for TransitionRule {
    ghost use Rattle.tz_info.specs.declared.rule.transition_rule.TransitionRule.TheVariants.{Alternate};

    ghost from_gives = { λ a rule. rule ≡ Alternate a };

    fn from(inner: AlternateTime) -> TransitionRule {
        TransitionRule::Alternate(inner)
    }
}
