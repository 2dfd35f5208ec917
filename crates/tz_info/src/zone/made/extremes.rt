//! The least and the greatest offset of a zone.

ghost use Rattle.std.specs.Prelude.{◌<◌, length};
ghost use Rattle.{
  tz_info.specs.{RuleTypes.{IsRule}, Windows.{offsets}, Zones.{IsRuleOrNone}},
  tz_info.specs.Steps.Extremes.{offsets_of, AreExtremes, AreJoined, AreJoinedByRule},
};

use crate::rule::TransitionRule;
use tz_base::LocalTimeType;

// The least and the greatest of some offsets, in seconds east of UTC.
#[derive(Clone, Copy, Debug)]
pub(in crate::zone) struct Extremes {
    pub(in crate::zone) least: i32,
    pub(in crate::zone) greatest: i32,
}

impl Extremes {
    // Those of one offset more.
    fn with(self, offset: i32) -> Extremes
        ensures { AreJoined self offset result }
    {
        let least = if offset < self.least {
            offset
        } else {
            self.least
        };
        let greatest = if self.greatest < offset {
            offset
        } else {
            self.greatest
        };
        Extremes { least, greatest }
    }

    // Those of the offsets of the rule's types more.
    pub(in crate::zone) fn with_rule(self, rule: &TransitionRule) -> Extremes
        ensures joined { AreJoinedByRule self rule.now result }
        ensures limits { IsRule rule.now }
    {
        match rule {
            TransitionRule::Fixed(only) => self.with(only.offset()),
            TransitionRule::Alternate(turns) => {
                let one = self.with(turns.std().offset());
                one.with(turns.dst().offset())
            }
        }
    }
}

// Those of the offsets of the types and of the rule, in one pass.
pub(in crate::zone) fn extremes_of(
    types: &[LocalTimeType],
    rule: &Option<TransitionRule>,
) -> Extremes
    requires { 0 < length types.now }
    ensures extremes { AreExtremes (offsets types.now rule.now) result }
    ensures limits { IsRuleOrNone rule.now }
{
    let found = extremes_of_types(types);
    match rule {
        None => found,
        Some(rule) => found.with_rule(rule),
    }
}

// Those of the offsets of the types.
fn extremes_of_types(types: &[LocalTimeType]) -> Extremes
    requires { 0 < length types.now }
    ensures { AreExtremes (offsets_of types.now) result }
{
    let first = types[0].offset();
    let mut found = Extremes {
        least: first,
        greatest: first,
    };
    for place in 1..types.len() {
        found = found.with(types[place].offset());
    }
    found
}
