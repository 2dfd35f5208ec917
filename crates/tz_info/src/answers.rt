//! The second at which a wall clock shows a local time, the local time that it shows at a second, and answers of wall clocks, joined.

ghost use Rattle.std.specs.Prelude.{◌≡◌, ◌+ℤ◌, ◌-ℤ◌};
ghost use Rattle.{
  offset_core.specs.LocalResult.{map_of},
  tz_base.specs.LocalTypes.{IsUtOffset},
  tz_info.specs.{Leaps.{IsNear}, Moments.{IsRuleTime}, Steps.{Answers.{joined}, Runs.{IsEnd}}},
};

use offset_core::MappedLocalTime;
use tz_base::LocalTimeType;

// Of two answers, the first of which is that of earlier seconds, the answer of all the seconds.
#[inline(always)]
pub(crate) fn joined<'a>(
    first: MappedLocalTime<&'a LocalTimeType>,
    last: MappedLocalTime<&'a LocalTimeType>,
) -> MappedLocalTime<&'a LocalTimeType>
    ensures { map_of (λ r. r.now) result
        ≡ joined (map_of (λ r. r.now) first.entry) (map_of (λ r. r.now) last.entry) }
{
    match (first, last) {
        (MappedLocalTime::None, answer) | (answer, MappedLocalTime::None) => answer,
        (
            MappedLocalTime::Single(least) | MappedLocalTime::Ambiguous(least, _),
            MappedLocalTime::Single(greatest) | MappedLocalTime::Ambiguous(_, greatest),
        ) => MappedLocalTime::Ambiguous(least, greatest),
    }
}

// The types themselves.
#[inline(always)]
pub(crate) fn types_copied(
    answer: MappedLocalTime<&LocalTimeType>,
) -> MappedLocalTime<LocalTimeType>
    ensures { result ≡ map_of (λ r. r.now) answer.entry }
{
    match answer {
        MappedLocalTime::None => MappedLocalTime::None,
        MappedLocalTime::Single(only) => MappedLocalTime::Single(*only),
        MappedLocalTime::Ambiguous(first, last) => MappedLocalTime::Ambiguous(*first, *last),
    }
}

// The second at which a clock at that offset, in seconds east of UTC, shows the local time.
#[inline(always)]
pub(crate) fn second_showing(local: i64, offset: i32) -> i64
    requires { IsEnd local }
    ensures value { result ≡ local -ℤ offset }
    ensures near { IsNear (local -ℤ offset) }
{
    local - offset as i64
}

// The local time that a clock of that type shows at the second.
#[inline(always)]
pub(crate) fn shown_at(second: i64, local_type: &LocalTimeType) -> i64
    requires { IsRuleTime second }
    ensures shown { result ≡ second +ℤ local_type.now.offset }
    ensures offset { IsUtOffset local_type.now.offset }
{
    second + local_type.offset() as i64
}
