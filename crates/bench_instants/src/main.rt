//! Times what programs do with instants, and prints the answers. `bench/run.sh` compares both with
//! those of other libraries.
//!
//! Usage: `bench_instants times ZONE OTHER`, `bench_instants answers ZONE OTHER COUNT`, or
//! `bench_instants kept ZONE LOOKUP COUNT`, with `borrowed` for `kept`. The zones are names of files,
//! each a TZif file or a TZ string. `times` prints a line for each question, its words parted by tabs:
//! its name, the nanoseconds for all answers, how many there are, and their sum. `answers` prints the
//! name and the answer of each question about each of the first COUNT values. `kept`
//! and `borrowed` ask such a zone for an `instant`, for a `wall` clock or in a `gap`, COUNT
//! times, and print what the answers sum up to: `bench/time_instants.py` times them. With other words,
//! or other files, it ends with status 1.
//!
//! No function has a contract. `values` draws what is asked about, `question` names the questions,
//! `answers` and `dates` sum up their answers, and `lookups` asks the zone itself, many times over.
//! The library is called from two places ([`place::Place`]).
#![tactic(auto)]

mod answers;
mod dates;
mod lookups;
mod place;
mod question;
mod timing;
mod values;
mod work_error;

use answers::sum_of;
use lookups::{Lookup, sum_of_lookups};
use place::Printed;
use question::Question;
use std::alloc::Global;
use std::io::{BufWriter, Write};
use std::process::ExitCode;
use std::{env, fs, io, str};
use timing::COUNT;
use values::Values;
use work_error::WorkError;
use zoned_ref::{KeptZone, TimeZoneRef};
use zoned_time::DateTime;

// How many instants are sorted.
const MANY: usize = 1_000_000;

fn main(rt: HostRuntime) -> ExitCode {
    match work(&rt) {
        Ok(()) => ExitCode::SUCCESS,
        Err(_) => ExitCode::FAILURE,
    }
}

fn work(rt: &HostRuntime) -> Result<(), WorkError> {
    let mut words = env::args(rt)?;
    let _program = words.next();
    let what = words.next().ok_or(WorkError::Usage)?;
    let zone = words.next().ok_or(WorkError::Usage)?;
    let other = words.next().ok_or(WorkError::Usage)?;
    let count = words.next();
    print(
        rt,
        what.as_str(),
        zone.as_str(),
        other.as_str(),
        text_of(&count),
    )
}

// A word that isn't needed is empty if it isn't given.
fn text_of(word: &Option<String>) -> &str {
    match word {
        Some(word) => word.as_str(),
        None => "",
    }
}

fn print(
    rt: &HostRuntime,
    what: &str,
    zone: &str,
    other: &str,
    count: &str,
) -> Result<(), WorkError> {
    match what {
        "times" => print_times(rt, &values_of(rt, zone, other, COUNT)?),
        "answers" => {
            let Ok(count) = count.parse::<usize>() else {
                return Err(WorkError::Usage);
            };
            print_answers(rt, &values_of(rt, zone, other, count)?)
        }
        kind => print_sum(
            rt,
            kind,
            zone,
            Lookup::of_word(other).ok_or(WorkError::Usage)?,
            count,
        ),
    }
}

fn values_of(
    rt: &HostRuntime,
    zone: &str,
    other: &str,
    count: usize,
) -> Result<Values<KeptZone>, WorkError> {
    let (zone, other) = (kept(rt, zone)?, kept(rt, other)?);
    Ok(Values::new(rt.alloc(), zone, other, count)?)
}

// What the answers of a zone of that kind sum up to.
fn print_sum(
    rt: &HostRuntime,
    kind: &str,
    zone: &str,
    lookup: Lookup,
    count: &str,
) -> Result<(), WorkError> {
    let Ok(count) = count.parse::<u32>() else {
        return Err(WorkError::Usage);
    };
    let sum = match kind {
        "kept" => sum_of_kept(&kept(rt, zone)?, lookup, count),
        "borrowed" => sum_of_borrowed(&read(rt, zone)?, lookup, count)?,
        _ => return Err(WorkError::Usage),
    };
    println!(rt; "{sum}")?;
    Ok(())
}

fn sum_of_kept(zone: &KeptZone, lookup: Lookup, count: u32) -> i64 {
    sum_of_lookups(zone, lookup, count)
}

fn sum_of_borrowed(zone: &tz_info::TimeZone, lookup: Lookup, count: u32) -> Result<i64, WorkError> {
    match TimeZoneRef::new(zone) {
        Some(zone) => Ok(sum_of_lookups(&zone, lookup, count)),
        None => Err(WorkError::Zone),
    }
}

fn print_times(rt: &HostRuntime, values: &Values<KeptZone>) -> Result<(), WorkError> {
    for question in Question::ALL {
        let (nanoseconds, sum) = timing::least_nanoseconds(rt, rt.alloc(), values, question)?;
        print_time(rt, question.name(), nanoseconds, COUNT, sum)?;
    }
    let many = Values::new(rt.alloc(), values.zone, values.other, MANY)?;
    let (nanoseconds, sum) = timing::least_nanoseconds_to_sort(rt, rt.alloc(), &many)?;
    print_time(rt, "sort", nanoseconds, MANY, sum)
}

fn print_time(
    rt: &HostRuntime,
    name: &str,
    nanoseconds: u128,
    count: usize,
    sum: i64,
) -> Result<(), WorkError> {
    println!(rt; "{name}\t{nanoseconds}\t{count}\t{sum}")?;
    Ok(())
}

fn print_answers(rt: &HostRuntime, values: &Values<KeptZone>) -> Result<(), WorkError> {
    let mut output = BufWriter::new(rt.alloc(), rt.stdout())?;
    for question in Question::ALL {
        for place in 0..values.seconds.len() {
            let answer = sum_of::<KeptZone, Printed>(
                rt.alloc(),
                values,
                question,
                place,
                place + 1,
            );
            print_answer(&mut output, question.name(), answer)?;
        }
    }
    print_texts(&mut output, &values.instants)?;
    for instant in timing::sorted(rt.alloc(), &values.instants)? {
        print_answer(&mut output, "sort", instant.timestamp())?;
    }
    output.flush()?;
    Ok(())
}

fn print_answer<W: Write>(output: &mut W, name: &str, answer: i64) -> io::Result<()> {
    writeln!(output, "{name}\t{answer}")
}

fn print_texts<W: Write>(output: &mut W, instants: &[DateTime<KeptZone>]) -> io::Result<()> {
    for instant in instants {
        writeln!(output, "text\t{instant}")?;
    }
    Ok(())
}

// The zone of a file, kept.
fn kept(rt: &HostRuntime, path: &str) -> Result<KeptZone, WorkError> {
    match KeptZone::keep(rt.alloc(), read(rt, path)?) {
        Ok(zone) => Ok(zone),
        Err(_) => Err(WorkError::Zone),
    }
}

// The zone of a file.
fn read(rt: &HostRuntime, path: &str) -> Result<tz_info::TimeZone, WorkError> {
    let bytes = fs::read(rt, path)?;
    parsed(rt.alloc(), &bytes)
}

fn parsed(alloc: Global, bytes: &[u8]) -> Result<tz_info::TimeZone, WorkError> {
    if bytes.starts_with(b"TZif") {
        return Ok(tz_info::TimeZone::from_tz_data(alloc, bytes)?);
    }
    match str::from_utf8(bytes) {
        Ok(text) => Ok(tz_info::TimeZone::from_posix_tz(alloc, text)?),
        Err(_) => Err(WorkError::Zone),
    }
}
