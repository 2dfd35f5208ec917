//! A stretch of seconds around one, at each of which a rule says the same type.

ghost use Rattle.std.specs.Prelude.{◌≡◌, ◌↔◌, int_le, ℤ, IfSome, MatchOption};
ghost use Rattle.tz_info.specs.{
  Moments.{IsRuleTime},
  Rules.{Alternate},
  Steps.{RulePieces.{HasOneAnswer, IsInPiece}, Seasons.{IsDecidedIn, IsSeason}},
};

use crate::rule::alternate::AlternateTime;
use crate::rule::season::{FIRST_RULE_TIME, LAST_RULE_TIME, Season, is_rule_time};

// Seconds from `from` on and before `until`, and whether it is daylight saving time at them.
#[derive(Clone, Copy)]
pub(crate) struct RulePiece {
    pub(crate) from: i64,
    pub(crate) until: i64,
    pub(crate) is_dst: bool,
}

impl AlternateTime {
    // The piece of the second, if the rule answers at it. Mostly it lasts from one moment of the rule to the next; near
    // the turn of a year it may be shorter.
    #[inline(always)]
    pub(crate) fn piece_at(&self, second: i64) -> Option<RulePiece>
        ensures { MatchOption result (¬ (IsRuleTime second))
            (λ p. HasOneAnswer self.now p × IsInPiece p second) }
    {
        if !is_rule_time(second) {
            return None;
        }
        let season = self.season(second);
        if !season.decides(second) {
            return Some(self.piece_of_one(season, second));
        }
        let piece = season.piece_at(second);
        if piece.from == season.from {
            Some(self.joined_before(piece))
        } else if piece.until == season.until {
            Some(self.joined_after(piece))
        } else {
            Some(piece)
        }
    }

    // The piece that is the second.
    #[inline(never)]
    fn piece_of_one(&self, season: Season, second: i64) -> RulePiece
        requires season { IsSeason self.now season }
        requires time { IsRuleTime second }
        ensures one { HasOneAnswer self.now result }
        ensures inside { IsInPiece result second }
    {
        RulePiece {
            from: second,
            until: second + 1,
            is_dst: self.is_dst_in(season, second),
        }
    }

    // The piece with the seconds before it, if the rule says the same there by the moments of one year.
    fn joined_before(&self, piece: RulePiece) -> RulePiece
        requires { HasOneAnswer self.now piece }
        ensures one { HasOneAnswer self.now result }
        ensures wider { (second : ℤ) → IsInPiece piece second → IsInPiece result second }
    {
        if piece.from <= FIRST_RULE_TIME || piece.from > LAST_RULE_TIME {
            return piece;
        }
        let Some(before) = self.piece_of_season(piece.from - 1) else {
            return piece;
        };
        if before.is_dst != piece.is_dst {
            return piece;
        }
        RulePiece {
            from: before.from,
            until: piece.until,
            is_dst: piece.is_dst,
        }
    }

    // The same with the seconds after it.
    fn joined_after(&self, piece: RulePiece) -> RulePiece
        requires { HasOneAnswer self.now piece }
        ensures one { HasOneAnswer self.now result }
        ensures wider { (second : ℤ) → IsInPiece piece second → IsInPiece result second }
    {
        if piece.until < FIRST_RULE_TIME || piece.until > LAST_RULE_TIME {
            return piece;
        }
        let Some(after) = self.piece_of_season(piece.until) else {
            return piece;
        };
        if after.is_dst != piece.is_dst {
            return piece;
        }
        RulePiece {
            from: piece.from,
            until: after.until,
            is_dst: piece.is_dst,
        }
    }

    // The piece of the second by the moments of its year, if these decide.
    #[inline(always)]
    fn piece_of_season(&self, second: i64) -> Option<RulePiece>
        requires { IsRuleTime second }
        ensures { IfSome result (λ p. HasOneAnswer self.now p × IsInPiece p second) }
    {
        let season = self.season(second);
        if season.decides(second) {
            Some(season.piece_at(second))
        } else {
            None
        }
    }
}

impl Season {
    // The seconds of the season that have the second, with no moment and no end of the rule's years between.
    #[inline(always)]
    fn piece_at(self, second: i64) -> RulePiece
        requires decided { IsDecidedIn self second }
        requires time { IsRuleTime second }
        ensures one { (a : Alternate) → IsSeason a self → HasOneAnswer a result }
        ensures inside { IsInPiece result second }
    {
        let all = RulePiece {
            from: self.from,
            until: self.until,
            is_dst: self.turns.is_dst(second),
        };
        let answered = all
            .cut_at(FIRST_RULE_TIME, second)
            .cut_at(LAST_RULE_TIME + 1, second);
        answered
            .cut_at(self.turns.start, second)
            .cut_at(self.turns.end, second)
    }
}

impl RulePiece {
    // Those of the piece's seconds that lie on the same side of the moment as the second.
    #[inline(always)]
    pub(crate) fn cut_at(self, moment: i64, second: i64) -> RulePiece
        ensures side { (u : ℤ) → IsInPiece result u
            ↔ (IsInPiece self u × (int_le moment u ≡ int_le moment second)) }
        ensures kept { result.is_dst ≡ self.is_dst }
    {
        let RulePiece {
            from,
            until,
            is_dst,
        } = self;
        if moment <= second {
            return RulePiece {
                from: if from < moment { moment } else { from },
                until,
                is_dst,
            };
        }
        RulePiece {
            from,
            until: if moment < until { moment } else { until },
            is_dst,
        }
    }
}
