//! Rows that follow one another, answered together.

ghost use Rattle.std.specs.Prelude.{◌≡◌, ◌≤◌, ◌<◌, ◌+◌, drop, length, not, take, IsTrue, MatchOption};
ghost use Rattle.zoned_ffi.specs.Steps.KeptTimes.{AreKept, AreKeptTimes, AreWritten, Ends, IsKept, IsStop};

use crate::column::kept::Kept;
use crate::column::pace::{NARROW, Pace, WIDE};
use crate::column::stretches::Stretches;
use crate::column::table::Table;
use crate::column::{Question, Stop};

/// Writes the answers of the rows from `from` on and before `to` by the table, up to the first without.
#[inline(always)]
pub fn write_by_table(
    question: Question,
    times: &[i64],
    answers: &mut [i64],
    stretches: &mut Stretches,
    table: &mut Table,
    from: usize,
    to: usize,
) -> Option<Stop>
    requires size { length answers.old ≡ length times.now }
    requires rows { (from < to) × (to ≤ length times.now) }
    requires kept { AreKept question stretches.old }
    requires before { AreWritten question (take from times.now) (take from answers.old) }
    ensures size { length answers.new ≡ length times.now }
    ensures kept { AreKept question.entry stretches.new }
    ensures answered { MatchOption result
        (AreWritten question.entry (take to times.now) (take to answers.new)
        × (drop to answers.new ≡ drop to answers.old))
        (λ s. (from ≤ s.row) × IsStop question.entry times.now answers.old answers.new s) }
{
    let mut row = from;
    while row < to {
        row = write_kept(question, times, answers, stretches, table, row, to);
        if row < to {
            match table.answer(question, stretches, row, times[row]) {
                Ok(found) => answers[row] = found,
                Err(number) => return Some(Stop { row, number }),
            }
            row += 1;
        }
    }
    None
}

/// Writes the answers of `WIDE` or `NARROW` rows from `from` on if they lie in the stretch: how many, or 0.
#[inline(always)]
pub fn write_run(
    question: Question,
    kept: Kept,
    times: &[i64],
    answers: &mut [i64],
    pace: &mut Pace,
    from: usize,
) -> usize
    requires size { length answers.old ≡ length times.now }
    requires row { from ≤ length times.now }
    requires kept { IsKept question kept }
    requires before { AreWritten question (take from times.now) (take from answers.old) }
    ensures size { length answers.new ≡ length times.now }
    ensures rows { from + result ≤ length times.now }
    ensures answered { AreWritten question.entry (take (from + result) times.now) (take (from + result) answers.new) }
    ensures rest { drop (from + result) answers.new ≡ drop (from + result) answers.old }
{
    let left = times.len() - from;
    if left >= WIDE
        && pace.tries_wide()
        && write_together(question, kept, times, answers, from, from + WIDE)
    {
        pace.found(WIDE);
        return WIDE;
    }
    if left >= NARROW && write_together(question, kept, times, answers, from, from + NARROW) {
        pace.found(NARROW);
        return NARROW;
    }
    0
}

// Writes the answers of these rows if they lie in the stretch. Whether they do.
#[inline(always)]
fn write_together(
    question: Question,
    kept: Kept,
    times: &[i64],
    answers: &mut [i64],
    from: usize,
    to: usize,
) -> bool
    requires size { length answers.old ≡ length times.now }
    requires rows { (from < to) × (to ≤ length times.now) }
    requires kept { IsKept question kept }
    requires before { AreWritten question (take from times.now) (take from answers.old) }
    ensures size { length answers.new ≡ length times.now }
    ensures answered { IsTrue result → AreWritten question.entry (take to times.now) (take to answers.new) }
    ensures rest { IsTrue result → drop to answers.new ≡ drop to answers.old }
    ensures none { IsTrue (not result) → answers.new ≡ answers.old }
{
    if !are_in(kept, times, from, to) {
        return false;
    }
    write_sums(question, kept, times, answers, from, to);
    true
}

// Whether the stretch has the times of all these rows, if it has the first and the last one. All are tried
// without a jump: by their distances from its beginning, or by their number if the last is far from that.
#[inline(always)]
fn are_in(kept: Kept, times: &[i64], from: usize, to: usize) -> bool
    requires rows { (from < to) × (to ≤ length times.now) }
    requires kept { Ends kept }
    ensures { IsTrue result → AreKeptTimes times.now from to kept }
{
    let last = times[to - 1];
    if !kept.has(times[from]) || !kept.has(last) {
        return false;
    }
    if kept.distance_to(last) < kept.length / 2 {
        are_at_front(kept, times, from, to)
    } else {
        are_counted(kept, times, from, to)
    }
}

// Whether the bits that are set in the distance of any of these times make less than the length of the
// stretch: then each distance is less.
#[inline(always)]
fn are_at_front(kept: Kept, times: &[i64], from: usize, to: usize) -> bool
    requires rows { (from < to) × (to ≤ length times.now) }
    requires kept { Ends kept }
    ensures { IsTrue result → AreKeptTimes times.now from to kept }
{
    let mut bits = 0;
    for row in from..to {
        bits |= kept.distance_to(times[row]);
    }
    bits < kept.length
}

// Whether as many of these times lie in the stretch as there are.
#[inline(always)]
fn are_counted(kept: Kept, times: &[i64], from: usize, to: usize) -> bool
    requires rows { (from < to) × (to ≤ length times.now) }
    requires kept { Ends kept }
    ensures { IsTrue result → AreKeptTimes times.now from to kept }
{
    let mut found = 0;
    for row in from..to {
        if kept.has(times[row]) {
            found += 1;
        }
    }
    found == to - from
}

// Writes the answers of these rows, which lie in the stretch.
#[inline(always)]
fn write_sums(
    question: Question,
    kept: Kept,
    times: &[i64],
    answers: &mut [i64],
    from: usize,
    to: usize,
)
    requires size { length answers.old ≡ length times.now }
    requires rows { (from < to) × (to ≤ length times.now) }
    requires kept { IsKept question kept }
    requires within { AreKeptTimes times.now from to kept }
    requires before { AreWritten question (take from times.now) (take from answers.old) }
    ensures size { length answers.new ≡ length times.now }
    ensures answered { AreWritten question.entry (take to times.now) (take to answers.new) }
    ensures rest { drop to answers.new ≡ drop to answers.old }
{
    let _ = question;
    for row in from..to {
        answers[row] = times[row] + kept.add;
    }
}

// Writes the answers of these rows by the stretches, as long as one has the time. Returns the first row that
// is not written. The loop has no call, so that its numbers stay in registers.
#[inline(always)]
fn write_kept(
    question: Question,
    times: &[i64],
    answers: &mut [i64],
    stretches: &Stretches,
    table: &Table,
    from: usize,
    to: usize,
) -> usize
    requires size { length answers.old ≡ length times.now }
    requires rows { (from < to) × (to ≤ length times.now) }
    requires kept { AreKept question stretches.now }
    requires before { AreWritten question (take from times.now) (take from answers.old) }
    ensures size { length answers.new ≡ length times.now }
    ensures row { (from ≤ result) × (result ≤ to) }
    ensures answered { AreWritten question.entry (take result times.now) (take result answers.new) }
    ensures rest { drop result answers.new ≡ drop result answers.old }
{
    for row in from..to {
        let time = times[row];
        match table
            .kept_for(question, stretches, time)
            .answer_to(question, time)
        {
            Some(found) => answers[row] = found,
            None => return row,
        }
    }
    to
}
