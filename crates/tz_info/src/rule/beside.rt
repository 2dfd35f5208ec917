//! What a rule says of a second: the type in force, and the seconds on both sides at which clocks
//! change.

ghost use Rattle.std.specs.Prelude.{◌≡◌, option_map, MatchOption};
ghost use Rattle.{
  tz_info.specs.{Steps.Beside.{change_found, IsBeside}, Moments.{IsRuleTime}},
  tz_info.specs.Rules.{Alternate},
  tz_search.specs.{Counts.{RoseWithin}, RisingCounts.{HasRoomFor}},
};

use crate::rule::alternate::AlternateTime;
use crate::rule::moments::Moment;
use crate::rule::season::is_rule_time;
use tz_search::Probes;

// Whether it is daylight saving time at a second, and the seconds of the last change up to it and of
// the first one after it.
#[derive(Clone, Copy)]
pub(crate) struct Beside {
    pub(crate) is_dst: bool,
    pub(crate) previous: Option<i64>,
    pub(crate) next: Option<i64>,
}

impl AlternateTime {
    // What the rule says of the second, if it answers at it. It is asked about the second's year, and
    // about one year on each side.
    #[inline(always)]
    pub(crate) fn beside(&self, second: i64, probes: &mut Probes) -> Option<Beside>
        requires { HasRoomFor 3 probes.old.rule_questions }
        ensures found { MatchOption result (¬ (IsRuleTime second)) (IsBeside self.now second) }
        ensures cost { RoseWithin probes.old probes.new 0 3 }
    {
        if !is_rule_time(second) {
            return None;
        }
        let asked = self.ask_year_at(second, probes);
        let previous = self.moment_from(asked, second, false, probes);
        let next = self.moment_from(asked, second, true, probes);
        Some(Beside {
            is_dst: self.is_dst_in_year(asked, second),
            previous: second_of(previous),
            next: second_of(next),
        })
    }
}

fn second_of(found: Option<Moment>) -> Option<i64>
    ensures { (a : Alternate) → result ≡ option_map (λ c. c.at) (change_found a found) }
{
    Some(found?.at)
}
