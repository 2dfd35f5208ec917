//! Columns of instants as local times, and of local times as instants, in one pass.

ghost use Rattle.std.specs.Prelude.{◌≡◌, ◌≢◌, ◌≤◌, ◌<◌, length, take, MatchOption};
ghost use Rattle.{
  zoned_ffi.specs.Columns.{AreAnswered, IsFirstWithout, IsRowNumber, IsSoughtNumber},
  zoned_ffi.specs.Steps.KeptTimes.{AreWritten, IsStop},
};

mod block;
mod kept;
mod pace;
mod row;
mod short;
mod stretches;
mod table;

use crate::choice::{Choice, Missing};
use crate::refusal::{NO_LOCAL_TIME, OTHER_SIZE};
use crate::unit::Unit;
use crate::whole_second::WholeSecond;
use block::{write_by_table, write_run};
use pace::Pace;
use short::write_short;
use stretches::Stretches;
use table::Table;
use tz_info::TimeZone;

/// No time: the value of a missing time in a column.
pub(crate) const NO_TIME: i64 = i64::MIN;

/// Which way a column goes.
#[derive(Clone, Copy)]
pub enum Way {
    /// Instants become local times.
    ToLocal,
    /// Local times become instants, under a choice for gaps and folds. Some that it rejects become no time.
    ToInstants(Choice, Missing),
    /// Instants become whole seconds that are found for them.
    ToWholeSeconds(WholeSecond),
}

/// What is asked about the times of a column.
#[derive(Clone, Copy)]
pub struct Question<'a> {
    /// The zone.
    pub zone: &'a TimeZone,
    /// What they and their answers are counted in.
    pub unit: Unit,
    /// Which way the column goes.
    pub way: Way,
}

impl Question<'_> {
    /// Whether stretches give its answers. What is found for an instant isn't as far from each instant of a
    /// stretch.
    pub fn keeps_stretches(&self) -> bool {
        match self.way {
            Way::ToLocal | Way::ToInstants(_, _) => true,
            Way::ToWholeSeconds(_) => false,
        }
    }
}

/// The first row that has no answer, and the number that says why.
#[derive(Clone, Copy)]
pub struct Stop {
    /// The row, from 0 on.
    pub row: usize,
    /// The number.
    pub number: u32,
}

// The rows that show where most times lie.
const SAMPLE: usize = 9;

/// Writes the answer to each time, up to the first that has none. Returns the row of that time, if
/// there is one, and the number that says why.
fn write_column(question: Question, times: &[i64], answers: &mut [i64]) -> Option<Stop>
    requires { length times.now ≡ length answers.old }
    ensures { MatchOption result (AreWritten question.entry times.now answers.new)
        (λ s. IsStop question.entry times.now answers.old answers.new s) }
{
    match write_short(question, times, answers) {
        Err(stop) => Some(stop),
        Ok(row) => {
            if row == times.len() {
                return None;
            }
            write_long(question, times, answers, row)
        }
    }
}

// A time in their middle, though one or two are far away.
fn middle_of_all(sample: &[i64; SAMPLE]) -> i64 {
    middle_of(
        middle_of(sample[0], sample[1], sample[2]),
        middle_of(sample[3], sample[4], sample[5]),
        middle_of(sample[6], sample[7], sample[8]),
    )
}

// The one that comes between the other two.
fn middle_of(one: i64, other: i64, third: i64) -> i64 {
    one.min(other).max(one.max(other).min(third))
}

// Three neighbours near the front, in the middle and near the end; not the first row, nor the last one.
fn sample(times: &[i64]) -> [i64; SAMPLE]
    requires { 8 ≤ length times.now }
{
    let middle = times.len() / 2;
    let last = times.len() - 1;
    [
        times[1],
        times[2],
        times[3],
        times[middle + 1],
        times[middle + 2],
        times[middle + 3],
        times[last - 3],
        times[last - 2],
        times[last - 1],
    ]
}

// Writes the answers from a row on, with a table.
#[inline(never)]
fn write_long(question: Question, times: &[i64], answers: &mut [i64], start: usize) -> Option<Stop>
    requires size { length answers.old ≡ length times.now }
    requires rows { (start < length times.now) × (8 ≤ length times.now) }
    requires before { AreWritten question (take start times.now) (take start answers.old) }
    ensures { MatchOption result (AreWritten question.entry times.now answers.new)
        (λ s. (start ≤ s.row) × IsStop question.entry times.now answers.old answers.new s) }
{
    let middle = middle_of_all(&sample(times));
    let mut stretches = Stretches::none(question);
    let mut table = Table::none_around(question, middle);
    table.keep_first(question, &mut stretches, middle);
    let mut pace = Pace::new();
    let rows = times.len();
    let mut from = start;
    while from < rows {
        let kept = table.kept_for(question, &stretches, times[from]);
        let written = write_run(question, kept, times, answers, &mut pace, from);
        if written > 0 {
            from += written;
        } else {
            let to = pace.missed(from, rows);
            match write_by_table(
                question,
                times,
                answers,
                &mut stretches,
                &mut table,
                from,
                to,
            ) {
                Some(stop) => return Some(stop),
                None => {}
            }
            from = to;
        }
    }
    None
}

/// Writes the local time of each instant if there is room for as many: 0, or why not. If an instant
/// has none, the row of the first such instant is written too.
pub fn answer_locals(
    zone: &TimeZone,
    unit: Unit,
    instants: &[i64],
    locals: &mut [i64],
    row: &mut usize,
) -> u32
    ensures answered { result ≡ 0
        → AreAnswered zone.now unit Way.ToLocal instants.now locals.new × (row.new ≡ row.old) }
    ensures without { result ≡ 37
        → IsFirstWithout zone.now unit Way.ToLocal instants.now locals.old locals.new row.new 37 }
    ensures refused { result ≢ 0 → result ≢ 37
        → (result ≡ 32) × (length instants.now ≢ length locals.old)
        × (locals.new ≡ locals.old) × (row.new ≡ row.old) }
{
    if instants.len() != locals.len() {
        return OTHER_SIZE;
    }
    let question = Question {
        zone,
        unit,
        way: Way::ToLocal,
    };
    match write_column(question, instants, locals) {
        Some(stop) => {
            *row = stop.row;
            NO_LOCAL_TIME
        }
        None => 0,
    }
}

/// Writes the instant of each local time if there is room for as many: 0, or why not. If a local time
/// has none, the row of the first such local time is written too.
#[tactic(auto, using(crate::proofs::Columns::row_number))]
pub fn answer_times(
    zone: &TimeZone,
    unit: Unit,
    choice: Choice,
    missing: Missing,
    locals: &[i64],
    instants: &mut [i64],
    row: &mut usize,
) -> u32
    ensures answered { result ≡ 0
        → AreAnswered zone.now unit (Way.ToInstants choice missing) locals.now instants.new
        × (row.new ≡ row.old) }
    ensures without { IsRowNumber result
        → IsFirstWithout zone.now unit (Way.ToInstants choice missing) locals.now
        instants.old instants.new row.new result }
    ensures refused { result ≢ 0 → ¬ (IsRowNumber result)
        → (result ≡ 32) × (length locals.now ≢ length instants.old)
        × (instants.new ≡ instants.old) × (row.new ≡ row.old) }
{
    if locals.len() != instants.len() {
        return OTHER_SIZE;
    }
    let question = Question {
        zone,
        unit,
        way: Way::ToInstants(choice, missing),
    };
    match write_column(question, locals, instants) {
        Some(stop) => {
            let Stop { row: first, number } = stop;
            *row = first;
            number
        }
        None => 0,
    }
}

/// Writes what is found for each instant if there is room for as many: 0, or why not. If nothing is found
/// for an instant, the row of the first such instant is written too.
#[tactic(auto, using(crate::proofs::WholeSeconds::row_number))]
pub fn answer_whole_seconds(
    zone: &TimeZone,
    unit: Unit,
    sought: WholeSecond,
    instants: &[i64],
    found: &mut [i64],
    row: &mut usize,
) -> u32
    ensures answered { result ≡ 0
        → AreAnswered zone.now unit (Way.ToWholeSeconds sought) instants.now found.new
        × (row.new ≡ row.old) }
    ensures without { IsSoughtNumber result
        → IsFirstWithout zone.now unit (Way.ToWholeSeconds sought) instants.now
        found.old found.new row.new result }
    ensures refused { result ≢ 0 → ¬ (IsSoughtNumber result)
        → (result ≡ 32) × (length instants.now ≢ length found.old)
        × (found.new ≡ found.old) × (row.new ≡ row.old) }
{
    if instants.len() != found.len() {
        return OTHER_SIZE;
    }
    let question = Question {
        zone,
        unit,
        way: Way::ToWholeSeconds(sought),
    };
    match write_column(question, instants, found) {
        Some(stop) => {
            let Stop { row: place, number } = stop;
            *row = place;
            number
        }
        None => 0,
    }
}
