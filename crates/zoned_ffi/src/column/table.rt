//! What a long column keeps: stretches in the order of time, and a table that says for each part of the
//! axis with which of them it begins.

ghost use Rattle.std.specs.Prelude.{◌<◌, ◌≡◌, MatchResult};
ghost use Rattle.zoned_ffi.specs.Steps.KeptTimes.{AreKept, IsKept, IsNotWritten, IsWritten, stretch_at};

use crate::column::kept::{Kept, found_around, found_at, kept_around};
use crate::column::row::{answer_by, answer_by_zone};
use crate::column::stretches::Stretches;
use crate::column::{NO_TIME, Question};

// Places 0 to 255 make a ring in the order of time. The place at which the stretch of place 0 is kept too.
const PLACE_0_AGAIN: usize = 256;

// The place of the one from elsewhere.
const ELSEWHERE: usize = 257;

// The place of the first one that is kept. It isn't 0, which is noted for all parts at first.
const START: u8 = 128;

// The most stretches in the ring: the place after the last one stays without a time.
const MOST: usize = 255;

// The parts of the axis, 136 years or more, for which the table can note a stretch.
const PARTS: usize = 2_048;

// How many parts away from those that are noted another one may be, to be noted too: 17 years or more. So a
// few old dates among new ones take no notes.
const REACH: i64 = 256;

// How many parts may be noted for a time from elsewhere.
const MOST_FROM_ELSEWHERE: i64 = 1_536;

// How many parts of a stretch are noted beyond the one that is asked about.
const MORE: i64 = 64;

// How many more stretches than rows may have been looked for.
const AHEAD: usize = 8;

// Of 64 times from elsewhere the first may replace the stretch that they share, and the one in the middle may
// be noted.
const FROM_ELSEWHERE: u8 = 64;

/// Which stretch a part of the axis begins with, and which stretches are kept. Only the time that a call
/// takes depends on it: each stretch is right by itself. The stretches aren't part of the table, since a struct
/// of both would be moved when it is made.
#[derive(Clone, Copy)]
pub struct Table {
    // The place of a stretch for each part.
    parts: [u8; PARTS],
    // It is noted for the parts from `begin` on and before `end`.
    begin: i64,
    end: i64,
    // The ring has the zone's stretches from the second `from` on and before `until`, but for those so short
    // that nothing is kept of them.
    from: i64,
    until: i64,
    // Their first time, and the first after them.
    low: i64,
    high: i64,
    // The places of the first one and the last one.
    first: u8,
    last: u8,
    // How many were looked for.
    count: usize,
    // The times from elsewhere, modulo `FROM_ELSEWHERE`.
    from_elsewhere: u8,
}

impl Table {
    /// The table before the first stretch, for times around that one.
    #[inline(always)]
    pub fn none_around(question: Question, time: i64) -> Table {
        let part = question.unit.part_of(time);
        Table {
            parts: [0; PARTS],
            begin: part,
            end: part,
            from: i64::MIN,
            until: i64::MAX,
            low: time,
            high: time,
            first: START,
            last: START,
            count: 0,
            from_elsewhere: 0,
        }
    }

    /// Keeps the stretch of the time, from which on the others are found.
    pub fn keep_first(&mut self, question: Question, stretches: &mut Stretches, time: i64)
        requires { AreKept question stretches.old }
        ensures { AreKept question.entry stretches.new }
    {
        let Some(found) = found_around(question, time) else {
            return;
        };
        self.from = found.from;
        self.until = found.until;
        let kept = found.kept;
        if !kept.is_empty() {
            put(question, stretches, START, kept);
            self.low = kept.low;
            self.high = kept.end();
        }
    }

    /// The stretch that is kept for the time, if one is: that with which its part begins, or the next one
    /// if the time doesn't come before that.
    #[inline(always)]
    pub fn kept_for(&self, question: Question, stretches: &Stretches, time: i64) -> Kept
        requires { AreKept question stretches.now }
        ensures { IsKept question.entry result }
    {
        let part = question.unit.part_of(time);
        let first = self.parts[index_of(part)] as usize;
        stretches.at(
            question,
            first + (stretches.lows[first + 1] <= time) as usize,
        )
    }

    /// What is written of the time in that row, or the number that says why nothing is.
    #[inline(always)]
    pub fn answer(
        &mut self,
        question: Question,
        stretches: &mut Stretches,
        row: usize,
        time: i64,
    ) -> Result<i64, u32>
        requires { AreKept question stretches.old }
        ensures kept { AreKept question.entry stretches.new }
        ensures answer { MatchResult result (IsWritten question.entry time)
            (λ n. IsNotWritten question.entry time n) }
    {
        match self
            .kept_for(question, stretches, time)
            .answer_to(question, time)
        {
            Some(found) => Ok(found),
            None if self.reaches(question.unit.part_of(time)) => {
                self.answer_nearby(&question, stretches, row, time)
            }
            None => self.answer_elsewhere(&question, stretches, time),
        }
    }

    // The same for a time of which no stretch is kept so far, but whose part can be noted.
    #[tactic(auto, using(crate::proofs::Casts::passed_on))]
    #[inline(never)]
    fn answer_nearby(
        &mut self,
        question: &Question,
        stretches: &mut Stretches,
        row: usize,
        time: i64,
    ) -> Result<i64, u32>
        requires { AreKept question.now stretches.old }
        ensures kept { AreKept question.now stretches.new }
        ensures answer { MatchResult result (IsWritten question.now time)
            (λ n. IsNotWritten question.now time n) }
    {
        self.keep_towards(*question, stretches, row, time);
        self.note(*question, time);
        let kept = self.kept_for(*question, stretches, time);
        if kept.has(time) {
            return answer_by(*question, kept, time);
        }
        self.answer_elsewhere(question, stretches, time)
    }

    // The same by the stretch from elsewhere, which becomes that of the time if a search is due.
    #[tactic(auto, using(crate::proofs::Casts::passed_on))]
    #[inline(never)]
    fn answer_elsewhere(
        &mut self,
        question: &Question,
        stretches: &mut Stretches,
        time: i64,
    ) -> Result<i64, u32>
        requires { AreKept question.now stretches.old }
        ensures kept { AreKept question.now stretches.new }
        ensures answer { MatchResult result (IsWritten question.now time)
            (λ n. IsNotWritten question.now time n) }
    {
        if time == NO_TIME {
            return Ok(NO_TIME);
        }
        self.from_elsewhere = self.from_elsewhere.wrapping_add(1) % FROM_ELSEWHERE;
        let kept = stretches.at(*question, ELSEWHERE);
        if kept.has(time) {
            return answer_by(*question, kept, time);
        }
        if self.from_elsewhere != 1 {
            return answer_by_zone(question, time);
        }
        let kept = kept_around(*question, time);
        stretches.put(*question, ELSEWHERE, kept);
        answer_by(*question, kept, time)
    }

    // Keeps stretches up to that of the time. It looks for no more of them than there were rows, and some.
    fn keep_towards(&mut self, question: Question, stretches: &mut Stretches, row: usize, time: i64)
        requires { AreKept question stretches.old }
        ensures { AreKept question.entry stretches.new }
    {
        for _ in self.count..row.saturating_add(AHEAD).min(MOST) {
            if !self.keep_one(question, stretches, time) {
                return;
            }
        }
    }

    // Whether to note that part and all up to it: it is near those that are noted, or a note is due and leaves
    // room for more of them.
    fn reaches(&self, part: i64) -> bool {
        let after_begin = part.wrapping_sub(self.begin);
        let before_end = self.end.wrapping_sub(part);
        let most = if self.from_elsewhere == FROM_ELSEWHERE / 2 {
            MOST_FROM_ELSEWHERE
        } else if -REACH <= after_begin.min(before_end) {
            PARTS as i64
        } else {
            return false;
        };
        after_begin.max(before_end) <= most
    }

    // Keeps one stretch more, unless the time lies among those that are kept. Whether it did.
    fn keep_one(&mut self, question: Question, stretches: &mut Stretches, time: i64) -> bool
        requires { AreKept question stretches.old }
        ensures { AreKept question.entry stretches.new }
    {
        if self.high <= time {
            self.note_up_to(question.unit.part_of(self.high));
            self.keep_next(question, stretches);
            return true;
        }
        if time < self.low {
            self.note_down_to(question.unit.part_of(self.low));
            self.keep_previous(question, stretches);
            return true;
        }
        false
    }

    // Keeps the stretch after those that are kept.
    fn keep_next(&mut self, question: Question, stretches: &mut Stretches)
        requires { AreKept question stretches.old }
        ensures { AreKept question.entry stretches.new }
    {
        self.count = self.count.wrapping_add(1);
        let Some(found) = found_at(question, self.until) else {
            self.high = i64::MAX;
            return;
        };
        self.until = found.until;
        let kept = found.kept;
        if !kept.is_empty() {
            self.last = self.last.wrapping_add(1);
            put(question, stretches, self.last, kept);
            self.high = kept.end();
        }
    }

    // Keeps the stretch before those that are kept. The part in which it ends begins with it.
    fn keep_previous(&mut self, question: Question, stretches: &mut Stretches)
        requires { AreKept question stretches.old }
        ensures { AreKept question.entry stretches.new }
    {
        self.count = self.count.wrapping_add(1);
        let Some(found) = found_at(question, self.from.wrapping_sub(1)) else {
            self.low = i64::MIN;
            return;
        };
        self.from = found.from;
        let kept = found.kept;
        if !kept.is_empty() {
            self.first = self.first.wrapping_sub(1);
            put(question, stretches, self.first, kept);
            self.low = kept.low;
            let last = question.unit.part_of(kept.end());
            self.begin = self.begin.max(last.wrapping_add(1));
        }
    }

    // Notes the part of the time, those up to it, and some more of its stretch, if that is kept.
    fn note(&mut self, question: Question, time: i64) {
        if self.low <= time && time < self.high {
            let part = question.unit.part_of(time);
            let last = question.unit.part_of(self.high);
            let first = question.unit.part_of(self.low);
            self.note_up_to(last.min(part.wrapping_add(MORE)));
            self.note_down_to(first.max(part.wrapping_sub(MORE)));
        }
    }

    // Notes the last stretch for the parts after those that are noted, up to that one.
    fn note_up_to(&mut self, part: i64) {
        let end = part
            .wrapping_add(1)
            .min(self.begin.wrapping_add(PARTS as i64));
        self.note_for(self.end, end, self.last);
        self.end = self.end.max(end);
    }

    // Notes the first stretch for the parts before those that are noted, down to that one.
    fn note_down_to(&mut self, part: i64) {
        let begin = part.max(self.end.wrapping_sub(PARTS as i64));
        self.note_for(begin, self.begin, self.first);
        self.begin = self.begin.min(begin);
    }

    // Notes the place for the parts from `begin` on and before `end`.
    fn note_for(&mut self, begin: i64, end: i64, place: u8) {
        if end <= begin {
            return;
        }
        let count = (end.wrapping_sub(begin).cast_unsigned() as usize).min(PARTS);
        let from = index_of(begin);
        let until = from + count;
        if until <= PARTS {
            self.parts[from..until].fill(place);
        } else {
            self.parts[from..].fill(place);
            self.parts[..until - PARTS].fill(place);
        }
    }
}

// Keeps the stretch at that place of the ring.
fn put(question: Question, stretches: &mut Stretches, place: u8, kept: Kept)
    requires kept { AreKept question stretches.old }
    requires this { IsKept question kept }
    ensures stretch { stretch_at stretches.new place ≡ kept }
    ensures kept { AreKept question.entry stretches.new }
{
    stretches.put(question, place as usize, kept);
    if place == 0 {
        stretches.put(question, PLACE_0_AGAIN, kept);
    }
}

// The place at which the stretch of the part is noted.
#[inline(always)]
fn index_of(part: i64) -> usize
    ensures { result < 2_048 }
{
    (part.cast_unsigned() % 2_048) as usize
}
