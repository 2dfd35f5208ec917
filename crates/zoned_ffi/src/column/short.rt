//! Columns that are short or in order, and the first rows of others: a lookup for each time, unless the stretch
//! that is kept has it.

ghost use Rattle.std.specs.Prelude.{◌≡◌, ◌≤◌, ◌<◌, drop, length, take, MatchOption, MatchResult};
ghost use Rattle.zoned_ffi.specs.Steps.KeptTimes.{AreWritten, IsKept, IsNotWritten, IsStop, IsWritten};

use crate::column::block::write_run;
use crate::column::kept::{Kept, kept_around};
use crate::column::pace::Pace;
use crate::column::row::answer_by_zone;
use crate::column::{NO_TIME, Question, Stop};

// The fewest rows that pay for a table.
const LONG: usize = 640;

// A table is needed after 12 lookups, if they are one in eight rows or more.
const LOOKUPS: usize = 12;

const ONE_IN: usize = 8;

// A search is due at each 32nd miss in a row, and at the third one of a column.
const MISSES: u8 = 32;

// The last row whose time the stretch that is kept didn't have, and how many such rows came in a row. Only the
// time that a call takes depends on them: a search takes somewhat longer than a lookup.
#[derive(Clone, Copy)]
struct LastMiss {
    row: usize,
    in_a_row: u8,
    // How many rows were looked up so far.
    lookups: usize,
}

impl LastMiss {
    fn none() -> LastMiss {
        LastMiss {
            row: 0,
            in_a_row: MISSES - 3,
            lookups: 0,
        }
    }

    // Whether as many of the rows so far were looked up as need a table.
    fn needs_table(&self, rows: usize) -> bool {
        self.lookups >= LOOKUPS.max(rows / ONE_IN)
    }

    // Whether to search for the stretch of a time in that row. If the stretch that is kept answered the row
    // before, the next one may do the same: then a later time asks for a search at once, and an earlier one if
    // the next row misses too. So an old date among new ones loses no stretch.
    #[inline(always)]
    fn is_search_due(&mut self, row: usize, is_later: bool) -> bool {
        let was_answered = row.wrapping_sub(self.row) > 1;
        self.row = row;
        if was_answered {
            self.in_a_row = MISSES - 1;
            return is_later;
        }
        self.in_a_row = self.in_a_row.wrapping_add(1) % MISSES;
        self.in_a_row == 0
    }
}

/// Writes the answers, up to the first time that has none, or up to a row from which on a table pays. Returns
/// the row after those that are written, or the row without an answer and the number that says why.
#[inline(never)]
pub fn write_short(question: Question, times: &[i64], answers: &mut [i64]) -> Result<usize, Stop>
    requires { length times.now ≡ length answers.old }
    ensures size { length answers.new ≡ length times.now }
    ensures answered { MatchResult result
        (λ row. (row ≤ length times.now) × (row < length times.now → 8 ≤ length times.now)
        × AreWritten question.entry (take row times.now) (take row answers.new) × (drop row answers.new ≡ drop row answers.old))
        (λ s. IsStop question.entry times.now answers.old answers.new s) }
{
    let mut kept = Kept::none(question);
    let mut last_miss = LastMiss::none();
    let mut pace = Pace::new();
    let rows = times.len();
    let mut from = 0;
    while from < rows {
        if rows - from >= LONG && last_miss.needs_table(from) {
            return Ok(from);
        }
        let written = write_run(question, kept, times, answers, &mut pace, from);
        if written > 0 {
            from += written;
        } else {
            let to = pace.missed(from, rows);
            match write_rows(
                question,
                times,
                answers,
                &mut kept,
                &mut last_miss,
                from,
                to,
            ) {
                Some(stop) => return Err(stop),
                None => {}
            }
            from = to;
        }
    }
    Ok(from)
}

// Writes the answers of the rows from `from` on and before `to`, one by one, up to the first without.
#[inline(always)]
fn write_rows(
    question: Question,
    times: &[i64],
    answers: &mut [i64],
    kept: &mut Kept,
    last_miss: &mut LastMiss,
    from: usize,
    to: usize,
) -> Option<Stop>
    requires size { length answers.old ≡ length times.now }
    requires rows { (from < to) × (to ≤ length times.now) }
    requires kept { IsKept question kept.old }
    requires before { AreWritten question (take from times.now) (take from answers.old) }
    ensures size { length answers.new ≡ length times.now }
    ensures kept { IsKept question.entry kept.new }
    ensures answered { MatchOption result
        (AreWritten question.entry (take to times.now) (take to answers.new)
        × (drop to answers.new ≡ drop to answers.old))
        (λ s. (from ≤ s.row) × IsStop question.entry times.now answers.old answers.new s) }
{
    for row in from..to {
        match answer(question, kept, last_miss, row, times[row]) {
            Ok(found) => answers[row] = found,
            Err(number) => return Some(Stop { row, number }),
        }
    }
    None
}

// What is written of the time, or the number that says why nothing is.
#[inline(always)]
fn answer(
    question: Question,
    kept: &mut Kept,
    last_miss: &mut LastMiss,
    row: usize,
    time: i64,
) -> Result<i64, u32>
    requires { IsKept question kept.old }
    ensures kept { IsKept question.entry kept.new }
    ensures answer { MatchResult result (IsWritten question.entry time)
        (λ n. IsNotWritten question.entry time n) }
{
    if let Some(found) = kept.answer_to(question, time) {
        return Ok(found);
    }
    if time != NO_TIME {
        if is_search_due(question, *kept, last_miss, row, time) {
            *kept = kept_around(question, time);
            if let Some(found) = kept.answer_to(question, time) {
                return Ok(found);
            }
        }
    }
    answer_by_zone(&question, time)
}

// Whether to search for the stretch of the time in that row.
#[inline(always)]
fn is_search_due(
    question: Question,
    kept: Kept,
    last_miss: &mut LastMiss,
    row: usize,
    time: i64,
) -> bool {
    if !question.keeps_stretches() {
        return false;
    }
    let is_due = last_miss.is_search_due(row, kept.end() <= time);
    if !is_due {
        last_miss.lookups = last_miss.lookups.wrapping_add(1);
    }
    is_due
}
